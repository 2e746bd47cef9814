//! How the judge goes on after a fault.
//!
//! After an answer that no history admits, anything may be true. To go on, the states are taken in which the
//! call had no effect, and those in which the answer is taken at its word; so one fault does not breed
//! others.

ghost use Rattle.std.specs.Prelude.{◌≡◌, IfOk};
ghost use Rattle.judge_state.specs.Questions.{branch_at};
ghost use Rattle.judge_set.specs.Resuming.{at_word, branch_word, ended, function_word, is_ok, is_start, is_unknown, known, resumed, started, tells, told, told_of};

use judge_rules::{
    BranchVerb, Function, HistoryEvent, JudgedAnswer, JudgedCall, On, Reply, reply_of,
};
use judge_state::State;
use std::alloc::{AllocError, Global};

/// A state, with a branch of this name: begun by the thread, if it was not known.
fn known(state: State, on: On) -> Result<State, AllocError>
    ensures { IfOk result (λ s. s ≡ known on state) }
{
    match state.branch(on.xid.number) {
        Some(_) => Ok(state),
        None => state.begun(on.thread, on.xid.number),
    }
}

/// A start that was told XA_OK: the thread is active in the branch, and in no other.
fn started(alloc: Global, state: &State, on: On) -> Result<State, AllocError>
    ensures { IfOk result (λ s. s ≡ started on state.now) }
{
    let state = known(state.copied(alloc)?, on)?;
    let state = state.inactive(alloc, on.thread)?;
    let state = state.unlinked(alloc, on.thread, on.xid.number)?;
    state.linked(on.thread, on.xid.number, false)
}

/// Whether it is XA_OK.
fn is_ok(reply: Reply) -> bool
    ensures { result ≡ is_ok reply }
{
    matches!(reply, Reply::Ok)
}

/// Whether it is XAER_NOTA.
fn is_unknown(reply: Reply) -> bool
    ensures { result ≡ is_unknown reply }
{
    matches!(reply, Reply::NotA)
}

/// Whether a code tells something of a branch.
fn tells(reply: Reply) -> bool
    ensures { result ≡ tells reply }
{
    matches!(
        reply,
        Reply::Ok | Reply::RolledBack | Reply::RdOnly | Reply::NotA
    )
}

/// Whether it is a start.
fn is_start(verb: BranchVerb) -> bool
    ensures { result ≡ is_start verb }
{
    matches!(verb, BranchVerb::Start)
}

/// A branch is gone, and no thread is associated with it.
fn ended(alloc: Global, state: State, on: On) -> Result<State, AllocError>
    ensures { IfOk result (λ s. s ≡ ended on state) }
{
    let state = state.dissociated(alloc, on.xid.number)?;
    state.gone(alloc, on.xid.number)
}

/// What a code that says that it is there makes of a branch that is known.
fn told(
    alloc: Global,
    state: State,
    verb: BranchVerb,
    on: On,
    reply: Reply,
) -> Result<State, AllocError>
    ensures { IfOk result (λ s. s ≡ told verb reply on state) }
{
    let x = on.xid.number;
    match verb {
        BranchVerb::Start => Ok(state),
        BranchVerb::End => {
            let left = state.unlinked(alloc, on.thread, x)?;
            if is_ok(reply) {
                Ok(left)
            } else {
                left.marked(alloc, x)
            }
        }
        BranchVerb::Prepare => {
            if is_ok(reply) {
                state.dissociated(alloc, x)?.prepared(alloc, x)
            } else {
                ended(alloc, state, on)
            }
        }
        BranchVerb::Commit => {
            if is_ok(reply) {
                state.dissociated(alloc, x)?.committed(alloc, x)
            } else {
                ended(alloc, state, on)
            }
        }
        BranchVerb::Rollback | BranchVerb::Forget => ended(alloc, state, on),
    }
}

/// What a code makes of a branch, if it is known.
fn told_of(
    alloc: Global,
    state: State,
    verb: BranchVerb,
    on: On,
    reply: Reply,
) -> Result<State, AllocError>
    ensures { IfOk result (λ s. s ≡ told_of verb reply on (branch_at on.xid.number state) state) }
{
    match state.branch(on.xid.number) {
        None => Ok(state),
        Some(_) => {
            if is_unknown(reply) {
                ended(alloc, state, on)
            } else {
                told(alloc, state, verb, on, reply)
            }
        }
    }
}

/// The state by the word of a call on a branch.
fn branch_word(
    alloc: Global,
    state: &State,
    verb: BranchVerb,
    on: On,
    reply: Reply,
) -> Result<State, AllocError>
    ensures { IfOk result (λ s. s ≡ branch_word verb on reply state.now) }
{
    if !tells(reply) {
        state.copied(alloc)
    } else if is_start(verb) && is_ok(reply) {
        started(alloc, state, on)
    } else {
        told_of(alloc, state.copied(alloc)?, verb, on, reply)
    }
}

/// The state by the word of a call of the interface.
fn function_word(
    alloc: Global,
    state: &State,
    function: Function,
    reply: Reply,
) -> Result<State, AllocError>
    ensures { IfOk result (λ s. s ≡ function_word function reply state.now) }
{
    match function {
        Function::Branch(verb, on) => branch_word(alloc, state, verb, on, reply),
        Function::Open(_) => Ok(state.copied(alloc)?.opened(true)),
        Function::Close(_) => Ok(state.copied(alloc)?.opened(false)),
        Function::Recover { .. } => state.copied(alloc),
    }
}

/// The state by the word of a call and its answer.
fn at_word(alloc: Global, state: &State, event: &HistoryEvent) -> Result<State, AllocError>
    ensures { IfOk result (λ s. s ≡ at_word event.now.call event.now.answer state.now) }
{
    match (event.call, &event.answer) {
        (JudgedCall::Function(function), JudgedAnswer::Code(code)) => {
            function_word(alloc, state, function, reply_of(*code))
        }
        _ => state.copied(alloc),
    }
}

/// The states from which the judge goes on after a fault. They are not none, if these are not.
pub fn resumed(
    alloc: Global,
    states: &[State],
    event: &HistoryEvent,
) -> Result<Vec<State>, AllocError>
    ensures { IfOk result (λ v. v.items ≡ resumed event.now states.now) }
{
    let mut after = Vec::new(alloc);
    for state in states {
        after.push(at_word(alloc, state, event)?)?;
        after.push(state.copied(alloc)?)?;
    }
    Ok(after)
}
