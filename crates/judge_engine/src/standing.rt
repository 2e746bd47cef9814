//! How thread and branch are in a state, in the words of XA's tables.

use crate::admitted::push;
use judge_rules::{Function, JudgedCall, On};
use judge_state::{JudgedBranch, Stand, State};
use std::alloc::{AllocError, Global};

/// How a branch stands, by its number in XA's table.
fn branch_word(state: &State, x: u32, branch: Option<JudgedBranch>) -> &'static str {
    let Some(branch) = branch else {
        return "S0";
    };
    match branch.stand {
        Stand::Active => { if state.is_entered(x) { "S1" } else { "S2" } }
        Stand::Prepared => "S3",
        Stand::RollbackOnly => "S4",
        Stand::Heuristic(_) => "S5",
    }
}

/// How a thread is associated with a branch.
fn thread_word(state: &State, on: On) -> &'static str {
    if state.has_active(on.thread, on.xid.number) {
        "T1"
    } else if state.has_suspended(on.thread, on.xid.number) {
        "T2"
    } else {
        "T0"
    }
}

/// Of a call on a branch, a space before it.
fn standing_on(state: &State, on: On, out: &mut Vec<u8>) -> Result<(), AllocError> {
    push(out, " ")?;
    push(out, thread_word(state, on))?;
    push(out, " ")?;
    push(
        out,
        branch_word(state, on.xid.number, state.branch(on.xid.number)),
    )?;
    if state.is_active(on.thread) && !state.has_active(on.thread, on.xid.number) {
        push(out, ", the thread is in T1 of another branch")?;
    }
    if state.is_associated(on.xid.number) && !state.has_link(on.thread, on.xid.number) {
        push(out, ", another association with the branch is there")?;
    }
    Ok(())
}

/// Whether a manager is open, by its number in XA's table.
fn open_word(state: &State) -> &'static str {
    if state.is_open() { "R1" } else { "R0" }
}

/// Adds how thread and branch of a call stand, and ` or ` before it unless it is the first.
pub(crate) fn push_standing(
    alloc: Global,
    state: &State,
    call: JudgedCall,
    out: &mut Vec<u8>,
) -> Result<(), AllocError> {
    let mut text = Vec::new(alloc);
    push(&mut text, open_word(state))?;
    match call {
        JudgedCall::Function(Function::Branch(_, on)) => standing_on(state, on, &mut text)?,
        JudgedCall::Function(Function::Recover { thread, .. }) => {
            let word = if state.is_scanning(thread) {
                " a scan is open"
            } else {
                " no scan is open"
            };
            push(&mut text, word)?;
        }
        JudgedCall::Get { thread, .. } | JudgedCall::Put { thread, .. } => {
            let word = if state.is_active(thread) {
                " T1"
            } else {
                " T0"
            };
            push(&mut text, word)?;
        }
        JudgedCall::Decide { branch, .. } => {
            push(&mut text, " ")?;
            push(&mut text, branch_word(state, branch, state.branch(branch)))?;
        }
        _ => {}
    }
    if out.is_empty() {
        out.extend_from_slice(&text)
    } else if out.as_slice() == text.as_slice() {
        Ok(())
    } else {
        push(out, " or ")?;
        out.extend_from_slice(&text)
    }
}
