//! Failures, restarts and lost connections.

ghost use Rattle.std.specs.Prelude.{◌≡◌, ◌++◌, IfErr, IfOk, map, filter, fold, Option};
ghost use Rattle.judge_state.specs.Moves.{brought_back, gone, marked};
ghost use Rattle.judge_rules.specs.Falls.{after_cut, after_restart, done_failing, effects, effects_rows, failed, failed_rows, half_done, hangs_on, is_decided, may_return, maybe_back, maybe_gone};
ghost use Rattle.judge_rules.specs.Sets.{AreApartStates, AreTooManyStates, IsSetOf};

use crate::branch::{both, one, two};
use crate::calls::{BranchVerb, On};
use crate::errors::JudgeError;
use crate::passes::stand_in;
use crate::replies::Reply;
use crate::sets::each_once;
use crate::words::Rules;
use judge_state::{JudgedBranch, Stand, State, Work};
use std::alloc::{AllocError, Global};

/// A call fails, and nothing changed.
fn failed_rows(alloc: Global, state: &State, reply: Reply) -> Result<Vec<State>, AllocError>
    ensures { IfOk result (λ v. v.items ≡ failed_rows state.now reply) }
{
    match reply {
        Reply::RmErr => one(alloc, state.copied(alloc)?),
        Reply::RmFail => {
            let fallen = state.copied(alloc)?.fallen(alloc)?;
            two(alloc, state.copied(alloc)?, fallen)
        }
        _ => Ok(Vec::new(alloc)),
    }
}

/// A call fails, if the manager may fail.
pub(crate) fn failed(
    alloc: Global,
    rules: Rules,
    state: &State,
    reply: Reply,
) -> Result<Vec<State>, AllocError>
    ensures { IfOk result (λ v. v.items ≡ failed rules state.now reply) }
{
    if rules.never.failures {
        Ok(Vec::new(alloc))
    } else {
        failed_rows(alloc, state, reply)
    }
}

/// What a call on a branch that fails may have done nevertheless.
fn half_done(
    alloc: Global,
    verb: BranchVerb,
    state: &State,
    on: On,
) -> Result<Vec<State>, AllocError>
    ensures { IfOk result (λ v. v.items ≡ half_done verb state.now on) }
{
    let x = on.xid.number;
    match verb {
        BranchVerb::Start | BranchVerb::Forget => Ok(Vec::new(alloc)),
        BranchVerb::End => one(alloc, state.copied(alloc)?.unlinked(alloc, on.thread, x)?),
        BranchVerb::Prepare => {
            let prepared = state.copied(alloc)?.prepared(alloc, x)?;
            let gone = state.copied(alloc)?.gone(alloc, x)?;
            two(alloc, prepared, gone)
        }
        BranchVerb::Commit => one(alloc, state.copied(alloc)?.gone(alloc, x)?),
        BranchVerb::Rollback => one(alloc, state.copied(alloc)?.rolled(alloc, x)?),
    }
}

/// What a call on a branch may have done besides, where the manager failed.
fn done_failing(
    alloc: Global,
    verb: BranchVerb,
    state: &State,
    on: On,
) -> Result<Vec<State>, AllocError>
    ensures { IfOk result (λ v. v.items ≡ done_failing verb state.now on) }
{
    let x = on.xid.number;
    match verb {
        BranchVerb::Start | BranchVerb::Prepare | BranchVerb::Rollback => Ok(Vec::new(alloc)),
        BranchVerb::End => {
            let unlinked = state.copied(alloc)?.unlinked(alloc, on.thread, x)?;
            one(alloc, unlinked.marked(alloc, x)?)
        }
        BranchVerb::Commit => one(alloc, state.copied(alloc)?.committed(alloc, x)?),
        BranchVerb::Forget => one(alloc, state.copied(alloc)?.gone(alloc, x)?),
    }
}

/// Whether a branch is decided, and stays so whatever fails.
fn is_decided(verb: BranchVerb, stand: Stand) -> bool
    ensures { result ≡ is_decided verb stand }
{
    matches!(
        (verb, stand),
        (
            BranchVerb::Commit | BranchVerb::Rollback,
            Stand::Heuristic(_)
        )
    )
}

/// What a failing call may have done, by its answer.
fn effects_rows(
    alloc: Global,
    verb: BranchVerb,
    state: &State,
    on: On,
    reply: Reply,
) -> Result<Vec<State>, AllocError>
    ensures { IfOk result (λ v. v.items ≡ effects_rows verb state.now on reply) }
{
    match reply {
        Reply::RmErr => half_done(alloc, verb, state, on),
        Reply::RmFail => {
            let half = half_done(alloc, verb, state, on)?;
            let failing = done_failing(alloc, verb, state, on)?;
            both(half, failing)
        }
        _ => Ok(Vec::new(alloc)),
    }
}

/// What a call that nothing refuses may have done where it fails.
pub(crate) fn effects(
    alloc: Global,
    rules: Rules,
    verb: BranchVerb,
    state: &State,
    on: On,
    reply: Reply,
) -> Result<Vec<State>, AllocError>
    ensures { IfOk result (λ v. v.items ≡ effects rules verb state.now on reply) }
{
    let stand = stand_in(state.branch(on.xid.number));
    if rules.never.failures || is_decided(verb, stand) {
        Ok(Vec::new(alloc))
    } else {
        effects_rows(alloc, verb, state, on, reply)
    }
}

/// These states, with a branch back in each.
fn all_brought_back(
    alloc: Global,
    branch: JudgedBranch,
    works: &[Work],
    states: &[State],
) -> Result<Vec<State>, AllocError>
    ensures { IfOk result (λ v. v.items ≡ map (brought_back branch works.now) states.now) }
{
    let mut back = Vec::new(alloc);
    for state in states {
        back.push(state.copied(alloc)?.brought_back(alloc, branch, works)?)?;
    }
    Ok(back)
}

/// These states, and each with a branch that was lost back in it.
fn maybe_back(
    alloc: Global,
    works: &[Work],
    states: Vec<State>,
    branch: JudgedBranch,
) -> Result<Vec<State>, AllocError>
    ensures { IfOk result (λ v. v.items ≡ maybe_back works.now states.items branch) }
{
    let back = all_brought_back(alloc, branch, works, &states)?;
    both(states, back)
}

/// The branches that were lost, and whose names are free.
fn may_return(
    alloc: Global,
    state: &State,
    lost: &[JudgedBranch],
) -> Result<Vec<JudgedBranch>, AllocError>
    ensures { IfOk result (λ v. v.items ≡ may_return state.now lost.now) }
{
    lost.iter()
        .filter(|b| !state.branch(b.name).is_some())
        .copied()
        .collect(alloc)
}

/// These states, with any of the branches that were lost back.
fn all_maybe_back(
    alloc: Global,
    works: &[Work],
    states: Vec<State>,
    lost: &[JudgedBranch],
) -> Result<Vec<State>, JudgeError>
    requires { AreApartStates states.items }
    ensures states { IfOk result (λ v. IsSetOf (fold (maybe_back works.now) states.items lost.now) v.items) }
    ensures too_many { IfErr result (λ e. e ≡ JudgeError.TooMany
        → AreTooManyStates (fold (maybe_back works.now) states.items lost.now)) }
{
    let mut back = states;
    for branch in lost {
        let more = maybe_back(alloc, works, back, *branch)?;
        back = each_once(alloc, more)?;
    }
    Ok(back)
}

/// The states after a restart.
pub(crate) fn after_restart(
    alloc: Global,
    rules: Rules,
    cut: bool,
    state: &State,
) -> Result<Vec<State>, JudgeError>
    ensures states { IfOk result (λ v. IsSetOf (after_restart rules cut state.now) v.items) }
    ensures too_many { IfErr result (λ e. e ≡ JudgeError.TooMany
        → AreTooManyStates (after_restart rules cut state.now)) }
{
    let restarted = state.copied(alloc)?.restarted(alloc)?;
    if cut && rules.lacks.forced {
        let lost = may_return(alloc, &restarted, state.lost())?;
        let states = one(alloc, restarted)?;
        all_maybe_back(alloc, state.lost_works(), states, &lost)
    } else {
        Ok(one(alloc, restarted)?)
    }
}

/// Whether a branch at work hangs on a thread.
fn hangs_on(thread: u32, state: &State, branch: JudgedBranch) -> bool
    ensures { result ≡ hangs_on thread state.now branch }
{
    branch.is_at_work() && (branch.owner == thread || state.has_link(thread, branch.name))
}

/// The branches at work that hang on a thread.
fn all_hanging(alloc: Global, thread: u32, state: &State) -> Result<Vec<JudgedBranch>, AllocError>
    ensures { IfOk result (λ v. v.items ≡ filter (hangs_on thread state.now) state.now.branches) }
{
    state
        .branches()
        .iter()
        .filter(|b| hangs_on(thread, state, **b))
        .copied()
        .collect(alloc)
}

/// These states, with a branch gone from each.
fn all_gone(alloc: Global, x: u32, states: &[State]) -> Result<Vec<State>, AllocError>
    ensures { IfOk result (λ v. v.items ≡ map (gone x) states.now) }
{
    let mut gone = Vec::new(alloc);
    for state in states {
        gone.push(state.copied(alloc)?.gone(alloc, x)?)?;
    }
    Ok(gone)
}

/// These states, with a branch in each that can only be rolled back.
fn all_marked(alloc: Global, x: u32, states: &[State]) -> Result<Vec<State>, AllocError>
    ensures { IfOk result (λ v. v.items ≡ map (marked x) states.now) }
{
    let mut marked = Vec::new(alloc);
    for state in states {
        marked.push(state.copied(alloc)?.marked(alloc, x)?)?;
    }
    Ok(marked)
}

/// These states, then each with this branch gone, then each with it marked: it can only be rolled back.
fn maybe_gone(
    alloc: Global,
    states: Vec<State>,
    branch: JudgedBranch,
) -> Result<Vec<State>, AllocError>
    ensures { IfOk result (λ v. v.items ≡ maybe_gone states.items branch) }
{
    let gone = all_gone(alloc, branch.name, &states)?;
    let marked = all_marked(alloc, branch.name, &states)?;
    both(both(states, gone)?, marked)
}

/// These states, where each of these branches may stay, be gone, or be one that can only be rolled back.
fn all_maybe_gone(
    alloc: Global,
    states: Vec<State>,
    branches: &[JudgedBranch],
) -> Result<Vec<State>, JudgeError>
    requires { AreApartStates states.items }
    ensures states { IfOk result (λ v. IsSetOf (fold maybe_gone states.items branches.now) v.items) }
    ensures too_many { IfErr result (λ e. e ≡ JudgeError.TooMany
        → AreTooManyStates (fold maybe_gone states.items branches.now)) }
{
    let mut left = states;
    for branch in branches {
        let more = maybe_gone(alloc, left, *branch)?;
        left = each_once(alloc, more)?;
    }
    Ok(left)
}

/// The states after the connection of a thread is gone.
pub(crate) fn after_cut(alloc: Global, thread: u32, state: &State) -> Result<Vec<State>, JudgeError>
    ensures states { IfOk result (λ v. IsSetOf (after_cut thread state.now) v.items) }
    ensures too_many { IfErr result (λ e. e ≡ JudgeError.TooMany
        → AreTooManyStates (after_cut thread state.now)) }
{
    let hanging = all_hanging(alloc, thread, state)?;
    let states = one(alloc, state.copied(alloc)?.cut_off(alloc, thread)?)?;
    all_maybe_gone(alloc, states, &hanging)
}
