//! What a call that nothing refuses may be answered, and what it does.

ghost use Rattle.std.specs.Prelude.{◌≡◌, IfOk, Option, true};
ghost use Rattle.judge_state.specs.Moves.{decided, gone, linked, marked, stands};
ghost use Rattle.judge_state.specs.declared.parts.Stand.TheVariants.{Heuristic};
ghost use Rattle.judge_rules.specs.Replies.{agrees, decision_in, is_heuristic};
ghost use Rattle.judge_rules.specs.Passes.{branch_passes, commit_passes, decide_passes, decided_passes, end_passes, end_spoiled, entered, forget_passes, left, left_spoiled, one_if, own_decision, prepare_passes, rollback_passes, spoiled_passes, stand_in, start_passes};

use crate::branch::{both, one, same_if};
use crate::calls::{BranchVerb, On};
use crate::flags::has;
use crate::replies::Reply;
use crate::starts::{is_plain, is_spoiled_at};
use crate::words::Rules;
use judge_state::{JudgedBranch, JudgedDecision, Stand, State};
use std::alloc::{AllocError, Global};
use xa_codes::Flags;

/// Whether a code tells a heuristic decision.
fn is_heuristic(reply: Reply) -> bool
    ensures { result ≡ is_heuristic reply }
{
    matches!(
        reply,
        Reply::HeurHaz | Reply::HeurCom | Reply::HeurRb | Reply::HeurMix
    )
}

/// What a heuristic answer tells of the decision.
fn decision_in(reply: Reply) -> JudgedDecision
    ensures { result ≡ decision_in reply }
{
    match reply {
        Reply::HeurCom => JudgedDecision::Commit,
        Reply::HeurRb => JudgedDecision::Rollback,
        Reply::HeurMix => JudgedDecision::Mixed,
        _ => JudgedDecision::Unknown,
    }
}

/// Whether a decision that is known is not contradicted by what is told.
fn agrees(known: JudgedDecision, told: JudgedDecision) -> bool
    ensures { result ≡ agrees known told }
{
    matches!(
        (known, told),
        (JudgedDecision::Unknown, _)
            | (JudgedDecision::Commit, JudgedDecision::Commit)
            | (JudgedDecision::Rollback, JudgedDecision::Rollback)
            | (JudgedDecision::Mixed, JudgedDecision::Mixed)
    )
}

/// The stand of a branch that is known.
pub(crate) fn stand_in(branch: Option<JudgedBranch>) -> Stand
    ensures { result ≡ stand_in branch }
{
    match branch {
        None => Stand::Active,
        Some(branch) => branch.stand,
    }
}

/// The state in which the branch of a start is there, and its association taken up.
fn entered(alloc: Global, state: &State, on: On) -> Result<State, AllocError>
    ensures { IfOk result (λ u. u ≡ entered state.now on) }
{
    let copy = state.copied(alloc)?;
    if is_plain(on.flags) {
        copy.begun(on.thread, on.xid.number)
    } else if has(on.flags, Flags::TMJOIN) {
        Ok(copy)
    } else if state.has_suspended(on.thread, on.xid.number) {
        copy.unlinked(alloc, on.thread, on.xid.number)
    } else {
        Ok(copy.picked(on.xid.number))
    }
}

/// A state, with a branch marked, if this holds.
fn marked_if(alloc: Global, holds: bool, state: State, x: u32) -> Result<Vec<State>, AllocError>
    ensures { IfOk result (λ v. v.items ≡ one_if holds (marked x state)) }
{
    if holds {
        one(alloc, state.marked(alloc, x)?)
    } else {
        Ok(Vec::new(alloc))
    }
}

/// A state, with a branch gone, if this holds.
fn gone_if(alloc: Global, holds: bool, state: &State, x: u32) -> Result<Vec<State>, AllocError>
    ensures { IfOk result (λ v. v.items ≡ one_if holds (gone x state.now)) }
{
    if holds {
        one(alloc, state.copied(alloc)?.gone(alloc, x)?)
    } else {
        Ok(Vec::new(alloc))
    }
}

/// A state, with a suspended association, if this holds.
fn suspended_if(alloc: Global, holds: bool, state: State, on: On) -> Result<Vec<State>, AllocError>
    ensures { IfOk result (λ v. v.items ≡ one_if holds (linked on.thread on.xid.number true state)) }
{
    if holds {
        one(alloc, state.linked(on.thread, on.xid.number, true)?)
    } else {
        Ok(Vec::new(alloc))
    }
}

/// A state, with a branch decided, if this holds.
fn decided_if(
    alloc: Global,
    holds: bool,
    state: &State,
    x: u32,
    decision: JudgedDecision,
) -> Result<Vec<State>, AllocError>
    ensures { IfOk result (λ v. v.items ≡ one_if holds (decided x decision state.now)) }
{
    if holds {
        one(alloc, state.copied(alloc)?.decided(alloc, x, decision)?)
    } else {
        Ok(Vec::new(alloc))
    }
}

/// A state, with what is known of a decision, if this holds.
fn known_if(
    alloc: Global,
    holds: bool,
    state: &State,
    x: u32,
    decision: JudgedDecision,
) -> Result<Vec<State>, AllocError>
    ensures { IfOk result (λ v. v.items ≡ one_if holds (stands x (Heuristic decision) state.now)) }
{
    if holds {
        one(alloc, state.copied(alloc)?.known(alloc, x, decision)?)
    } else {
        Ok(Vec::new(alloc))
    }
}

/// A start of a branch at work, which has entered it.
fn start_passes(
    alloc: Global,
    rules: Rules,
    state: &State,
    on: On,
    entered: State,
    reply: Reply,
) -> Result<Vec<State>, AllocError>
    ensures { IfOk result (λ v. v.items ≡ start_passes rules state.now on entered reply) }
{
    match reply {
        Reply::Ok => one(alloc, entered.linked(on.thread, on.xid.number, false)?),
        Reply::RolledBack => {
            let may = !rules.never.rollback;
            let kept = marked_if(alloc, may, entered, on.xid.number)?;
            let unknown = same_if(alloc, may && is_plain(on.flags), state)?;
            both(kept, unknown)
        }
        Reply::Retry => same_if(alloc, has(on.flags, Flags::TMNOWAIT), state),
        _ => Ok(Vec::new(alloc)),
    }
}

/// A resume of a branch that can only be rolled back, which has entered it.
fn spoiled_passes(
    alloc: Global,
    state: &State,
    on: On,
    entered: State,
    reply: Reply,
) -> Result<Vec<State>, AllocError>
    ensures { IfOk result (λ v. v.items ≡ spoiled_passes state.now on entered reply) }
{
    match reply {
        Reply::RolledBack => one(alloc, entered),
        Reply::Retry => same_if(alloc, has(on.flags, Flags::TMNOWAIT), state),
        _ => Ok(Vec::new(alloc)),
    }
}

/// The association that an end leaves in a branch at work.
fn left(on: On, state: State) -> Result<State, AllocError>
    ensures { IfOk result (λ u. u ≡ left on state) }
{
    if !has(on.flags, Flags::TMSUSPEND) {
        Ok(state)
    } else if has(on.flags, Flags::TMMIGRATE) {
        state.migrating(on.xid.number)
    } else {
        state.linked(on.thread, on.xid.number, true)
    }
}

/// An end in a branch at work, whose association is gone.
fn end_passes(
    alloc: Global,
    rules: Rules,
    on: On,
    unlinked: State,
    reply: Reply,
) -> Result<Vec<State>, AllocError>
    ensures { IfOk result (λ v. v.items ≡ end_passes rules on unlinked reply) }
{
    match reply {
        Reply::Ok => one(alloc, left(on, unlinked)?),
        Reply::RolledBack => {
            let may = has(on.flags, Flags::TMFAIL) || !rules.never.rollback;
            marked_if(alloc, may, unlinked, on.xid.number)
        }
        Reply::NoMigrate => {
            let may = has(on.flags, Flags::TMMIGRATE) && has(on.flags, Flags::TMSUSPEND);
            suspended_if(alloc, may, unlinked, on)
        }
        _ => Ok(Vec::new(alloc)),
    }
}

/// The association that an end leaves in a branch that can only be rolled back.
fn left_spoiled(on: On, state: State) -> Result<State, AllocError>
    ensures { IfOk result (λ u. u ≡ left_spoiled on state) }
{
    if has(on.flags, Flags::TMSUSPEND) {
        state.linked(on.thread, on.xid.number, true)
    } else {
        Ok(state)
    }
}

/// An end in a branch that can only be rolled back, whose association is gone.
fn end_spoiled(
    alloc: Global,
    on: On,
    unlinked: State,
    reply: Reply,
) -> Result<Vec<State>, AllocError>
    ensures { IfOk result (λ v. v.items ≡ end_spoiled on unlinked reply) }
{
    match reply {
        Reply::Ok => one(alloc, left_spoiled(on, unlinked)?),
        Reply::RolledBack => one(alloc, unlinked),
        _ => Ok(Vec::new(alloc)),
    }
}

/// A vote.
fn prepare_passes(
    alloc: Global,
    rules: Rules,
    state: &State,
    x: u32,
    reply: Reply,
) -> Result<Vec<State>, AllocError>
    ensures { IfOk result (λ v. v.items ≡ prepare_passes rules state.now x reply) }
{
    match reply {
        Reply::Ok => one(alloc, state.copied(alloc)?.prepared(alloc, x)?),
        Reply::RdOnly => one(alloc, state.copied(alloc)?.committed(alloc, x)?),
        Reply::RolledBack => gone_if(alloc, !rules.never.rollback, state, x),
        _ => Ok(Vec::new(alloc)),
    }
}

/// A decision that is told and was not the operator's.
fn own_decision(
    alloc: Global,
    rules: Rules,
    state: &State,
    x: u32,
    reply: Reply,
) -> Result<Vec<State>, AllocError>
    ensures { IfOk result (λ v. v.items ≡ own_decision rules state.now x reply) }
{
    let may = is_heuristic(reply) && !rules.never.heuristics;
    decided_if(alloc, may, state, x, decision_in(reply))
}

/// A commit.
fn commit_passes(
    alloc: Global,
    rules: Rules,
    state: &State,
    on: On,
    reply: Reply,
) -> Result<Vec<State>, AllocError>
    ensures { IfOk result (λ v. v.items ≡ commit_passes rules state.now on reply) }
{
    let one_phase = has(on.flags, Flags::TMONEPHASE);
    match reply {
        Reply::Ok => one(alloc, state.copied(alloc)?.committed(alloc, on.xid.number)?),
        Reply::RolledBack => {
            let may = one_phase && !rules.never.rollback;
            gone_if(alloc, may, state, on.xid.number)
        }
        Reply::Retry => same_if(alloc, !one_phase, state),
        _ => own_decision(alloc, rules, state, on.xid.number, reply),
    }
}

/// A rollback.
fn rollback_passes(
    alloc: Global,
    rules: Rules,
    state: &State,
    x: u32,
    reply: Reply,
) -> Result<Vec<State>, AllocError>
    ensures { IfOk result (λ v. v.items ≡ rollback_passes rules state.now x reply) }
{
    match reply {
        Reply::Ok | Reply::RolledBack => one(alloc, state.copied(alloc)?.rolled(alloc, x)?),
        _ => own_decision(alloc, rules, state, x, reply),
    }
}

/// A commit or rollback of a branch that was decided.
fn decided_passes(
    alloc: Global,
    state: &State,
    x: u32,
    decision: JudgedDecision,
    reply: Reply,
) -> Result<Vec<State>, AllocError>
    ensures { IfOk result (λ v. v.items ≡ decided_passes state.now x decision reply) }
{
    let told = decision_in(reply);
    let may = is_heuristic(reply) && agrees(decision, told);
    known_if(alloc, may, state, x, told)
}

/// A forget.
fn forget_passes(
    alloc: Global,
    state: &State,
    x: u32,
    reply: Reply,
) -> Result<Vec<State>, AllocError>
    ensures { IfOk result (λ v. v.items ≡ forget_passes state.now x reply) }
{
    match reply {
        Reply::Ok => one(alloc, state.copied(alloc)?.gone(alloc, x)?),
        _ => Ok(Vec::new(alloc)),
    }
}

/// A commit or rollback, by how the branch stands.
fn decide_passes(
    alloc: Global,
    rules: Rules,
    verb: BranchVerb,
    state: &State,
    on: On,
    stand: Stand,
    reply: Reply,
) -> Result<Vec<State>, AllocError>
    ensures { IfOk result (λ v. v.items ≡ decide_passes rules verb state.now on stand reply) }
{
    match (stand, verb) {
        (Stand::Heuristic(decision), _) => {
            decided_passes(alloc, state, on.xid.number, decision, reply)
        }
        (_, BranchVerb::Commit) => commit_passes(alloc, rules, state, on, reply),
        _ => rollback_passes(alloc, rules, state, on.xid.number, reply),
    }
}

/// A start.
fn starts(
    alloc: Global,
    rules: Rules,
    state: &State,
    on: On,
    reply: Reply,
) -> Result<Vec<State>, AllocError>
    ensures { IfOk result (λ v. v.items ≡ branch_passes rules BranchVerb.Start state.now on reply) }
{
    let entered = entered(alloc, state, on)?;
    let spoiled = is_spoiled_at(state.branch(on.xid.number));
    if has(on.flags, Flags::TMRESUME) && spoiled {
        spoiled_passes(alloc, state, on, entered, reply)
    } else {
        start_passes(alloc, rules, state, on, entered, reply)
    }
}

/// An end.
fn ends(
    alloc: Global,
    rules: Rules,
    state: &State,
    on: On,
    reply: Reply,
) -> Result<Vec<State>, AllocError>
    ensures { IfOk result (λ v. v.items ≡ branch_passes rules BranchVerb.End state.now on reply) }
{
    let unlinked = state
        .copied(alloc)?
        .unlinked(alloc, on.thread, on.xid.number)?;
    if is_spoiled_at(state.branch(on.xid.number)) {
        end_spoiled(alloc, on, unlinked, reply)
    } else {
        end_passes(alloc, rules, on, unlinked, reply)
    }
}

/// A call on a branch that nothing refuses.
pub(crate) fn branch_passes(
    alloc: Global,
    rules: Rules,
    verb: BranchVerb,
    state: &State,
    on: On,
    reply: Reply,
) -> Result<Vec<State>, AllocError>
    ensures { IfOk result (λ v. v.items ≡ branch_passes rules verb state.now on reply) }
{
    match verb {
        BranchVerb::Start => starts(alloc, rules, state, on, reply),
        BranchVerb::End => ends(alloc, rules, state, on, reply),
        BranchVerb::Prepare => prepare_passes(alloc, rules, state, on.xid.number, reply),
        BranchVerb::Forget => forget_passes(alloc, state, on.xid.number, reply),
        BranchVerb::Commit | BranchVerb::Rollback => {
            let stand = stand_in(state.branch(on.xid.number));
            decide_passes(alloc, rules, verb, state, on, stand, reply)
        }
    }
}
