//! What a thread may read and write.

ghost use Rattle.std.specs.Prelude.{◌≡◌, IfOk, Option};
ghost use Rattle.judge_rules.specs.Scans.{may_see, read_rows, reads_in, since_of, write_row};

use crate::branch::{one, same_if};
use crate::words::Rules;
use judge_state::{JudgedBranch, State};
use std::alloc::{AllocError, Global};

/// The number of commits when a branch began.
fn since_of(branch: Option<JudgedBranch>, state: &State) -> usize
    ensures { result ≡ since_of branch state.now }
{
    match branch {
        None => state.commits(),
        Some(branch) => branch.since,
    }
}

/// Whether others have committed a value since, or, if nothing is isolated, written it.
fn may_see(rules: Rules, since: usize, key: u32, value: u32, state: &State) -> bool
    ensures { result ≡ may_see rules since key value state.now }
{
    state.may_read(since, key, value) || (rules.lacks.isolation && state.is_worked(key, value))
}

/// Whether a branch may read a value.
fn reads_in(rules: Rules, x: u32, key: u32, value: u32, state: &State) -> bool
    ensures { result ≡ reads_in rules x key value state.now }
{
    if state.has_worked(x, key) {
        state.has_value(x, key, value)
    } else {
        let since = since_of(state.branch(x), state);
        may_see(rules, since, key, value, state)
    }
}

/// A thread reads a value, in its branch or outside of any.
pub(crate) fn read_rows(
    alloc: Global,
    rules: Rules,
    active: Option<u32>,
    thread: u32,
    key: u32,
    value: u32,
    state: &State,
) -> Result<Vec<State>, AllocError>
    ensures { IfOk result (λ v. v.items ≡ read_rows rules active thread key value state.now) }
{
    match active {
        Some(x) => same_if(alloc, reads_in(rules, x, key, value, state), state),
        None => {
            if may_see(rules, state.commits(), key, value, state) {
                one(alloc, state.copied(alloc)?.outside(alloc, thread)?)
            } else {
                Ok(Vec::new(alloc))
            }
        }
    }
}

/// A thread writes a value, in its branch or outside of any.
pub(crate) fn write_row(
    alloc: Global,
    active: Option<u32>,
    thread: u32,
    key: u32,
    value: u32,
    state: &State,
) -> Result<State, AllocError>
    ensures { IfOk result (λ u. u ≡ write_row active thread key value state.now) }
{
    let copy = state.copied(alloc)?;
    match active {
        Some(x) => copy.worked(alloc, x, key, value),
        None => copy.written(alloc, thread, key, value),
    }
}
