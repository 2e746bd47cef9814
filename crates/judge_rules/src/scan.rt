//! What a recover may give.

ghost use Rattle.std.specs.Prelude.{◌≡◌, IfOk};
ghost use Rattle.std.specs.List.{list_all};
ghost use Rattle.judge_state.specs.Scans.{may_give};
ghost use Rattle.judge_rules.specs.Scans.{given_rows, is_short, may_give_all, scan_after, scan_in};

use crate::branch::{one, same_if};
use crate::flags::has;
use crate::rows::is_unscanned;
use crate::words::Rules;
use judge_state::{State, are_distinct};
use std::alloc::{AllocError, Global};
use xa_codes::Flags;

/// The scan that a recover goes on with.
fn scan_in(alloc: Global, thread: u32, flags: Flags, state: &State) -> Result<State, AllocError>
    ensures { IfOk result (λ u. u ≡ scan_in thread flags.0 state.now) }
{
    let copy = state.copied(alloc)?;
    if has(flags, Flags::TMSTARTRSCAN) {
        copy.scan_opened(alloc, thread)
    } else {
        Ok(copy)
    }
}

/// Whether this number of branches leaves none out.
fn is_short(rules: Rules, count: u32, given: &[u32]) -> bool
    ensures { result ≡ is_short rules count given.now }
{
    rules.lacks.count || !(count as usize <= given.len())
}

/// Whether the scan of a thread may give each of these branches.
fn may_each(thread: u32, state: &State, given: &[u32]) -> bool
    ensures { result ≡ list_all (may_give thread state.now) given.now }
{
    given.iter().all(|x| state.may_give(thread, *x))
}

/// Whether a scan may give these branches.
fn may_give_all(rules: Rules, thread: u32, count: u32, given: &[u32], state: &State) -> bool
    ensures { result ≡ may_give_all rules thread count given.now state.now }
{
    are_distinct(given)
        && may_each(thread, state, given)
        && (rules.lacks.count || given.len() <= count as usize)
        && (!is_short(rules, count, given) || state.owes_only(thread, given))
}

/// The scan after it gave these.
fn scan_after(
    alloc: Global,
    thread: u32,
    flags: Flags,
    given: &[u32],
    state: State,
) -> Result<State, AllocError>
    ensures { IfOk result (λ u. u ≡ scan_after thread flags.0 given.now state) }
{
    if has(flags, Flags::TMENDRSCAN) {
        state.scan_closed(alloc, thread)
    } else {
        state.scan_given(alloc, thread, given)
    }
}

/// A recover gives these branches.
pub(crate) fn given_rows(
    alloc: Global,
    rules: Rules,
    state: &State,
    thread: u32,
    count: u32,
    flags: Flags,
    given: &[u32],
) -> Result<Vec<State>, AllocError>
    ensures { IfOk result (λ v. v.items ≡ given_rows rules state.now thread count flags.0 given.now) }
{
    if is_unscanned(state, thread, flags) {
        return same_if(alloc, true, state);
    }
    let scan = scan_in(alloc, thread, flags, state)?;
    if may_give_all(rules, thread, count, given, &scan) {
        one(alloc, scan_after(alloc, thread, flags, given, scan)?)
    } else {
        Ok(Vec::new(alloc))
    }
}
