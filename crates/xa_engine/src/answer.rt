//! What a request is answered, and its line.

ghost use Rattle.std.specs.Prelude.{◌≡◌, ◌++◌, ◌∷◌, [], OnOk, decimal, codes};
ghost use Rattle.xa_xid.specs.Text.{xid_text};
ghost use Rattle.xa_engine.specs.Answers.{answer_text, branch_text, decide_number, given_text, refusal_text, restart_number, trim_number};

use protocol::{Bytes, Sequence};
use resource_manager::{DecideError, RestartError, TrimError};
use std::alloc::{AllocError, Global};
use trace_lines::{push, push_number};
use xa_assoc::WorkError;
use xa_codes::Code;
use xa_xid::Xid;

/// What a request is answered.
#[derive(Drop)]
pub enum RequestAnswer {
    Code(Code),
    /// The branches that a recover gives.
    Given(Sequence<Xid>),
    /// What a thread read at a key.
    Found(Option<Bytes>),
    /// A thread wrote a key, or an operator decided a branch.
    Done,
    /// A thread's work was refused.
    Refused(WorkError),
    /// The manager restarted, and this is its boot.
    Booted(u64),
    /// The manager did not restart.
    NotBooted(RestartError),
    /// The log was trimmed, and N records remain.
    Trimmed(u64),
    /// The log was not trimmed.
    NotTrimmed(TrimError),
    /// A branch was not decided.
    NotDecided(DecideError),
}

/// The number by which the output names why a manager did not restart; 0 for want of memory, which no output
/// names.
fn restart_number(error: RestartError) -> u64
    ensures { result ≡ restart_number error }
{
    match error {
        RestartError::Memory => 0,
        RestartError::Device => 2,
        RestartError::Exhausted => 4,
    }
}

/// The number by which the output names why a log was not trimmed; 0 for want of memory, which no output
/// names.
fn trim_number(error: TrimError) -> u64
    ensures { result ≡ trim_number error }
{
    match error {
        TrimError::Memory => 0,
        TrimError::Device => 2,
        TrimError::Failed => 5,
    }
}

/// The number by which the output names why a branch was not decided; 0 for want of memory, which no output
/// names.
fn decide_number(error: DecideError) -> u64
    ensures { result ≡ decide_number error }
{
    match error {
        DecideError::Memory => 0,
        DecideError::Exhausted => 4,
        DecideError::Device | DecideError::Failed => 5,
        DecideError::NotInDoubt => 7,
    }
}

/// Adds a line.
fn push_line(out: &mut Vec<u8>, line: &str) -> Result<(), AllocError>
    ensures { OnOk result (out.new.items ≡ out.old.items ++ (line.now ++ 10 ∷ [])) }
{
    push(out, line)?;
    push(out, "\n")
}

/// Adds a line of a word and a number.
fn push_numbered(out: &mut Vec<u8>, word: &str, number: u64) -> Result<(), AllocError>
    ensures { OnOk result (out.new.items ≡ out.old.items ++ (word.now ++ (decimal number ++ 10 ∷ []))) }
{
    push(out, word)?;
    push_number(out, number)?;
    push(out, "\n")
}

/// Adds a space and the name of a branch.
fn push_branch(alloc: Global, out: &mut Vec<u8>, xid: &Xid) -> Result<(), AllocError>
    ensures { OnOk result (out.new.items ≡ out.old.items ++ branch_text xid.now) }
{
    let text = format!(in alloc; " {xid}")?;
    push(out, &text)
}

/// Adds the line of the branches that a recover gives: how many they are, and their names.
fn push_given(alloc: Global, out: &mut Vec<u8>, xids: &[Xid]) -> Result<(), AllocError>
    ensures { OnOk result (out.new.items ≡ out.old.items ++ given_text xids.now) }
{
    push_number(out, xids.len() as u64)?;
    for xid in xids {
        push_branch(alloc, out, xid)?;
    }
    push(out, "\n")
}

/// Adds the line of what a thread read.
fn push_found(out: &mut Vec<u8>, value: &[u8]) -> Result<(), AllocError>
    ensures { OnOk result (out.new.items ≡ out.old.items ++ (codes "= " ++ (value.now ++ 10 ∷ []))) }
{
    push(out, "= ")?;
    out.extend_from_slice(value)?;
    push(out, "\n")
}

/// Adds the line of a refusal of work: its number, and of a lock the branch that holds it.
fn push_refusal(alloc: Global, out: &mut Vec<u8>, error: &WorkError) -> Result<(), AllocError>
    ensures { OnOk result (out.new.items ≡ out.old.items ++ refusal_text error.now) }
{
    push(out, "refused ")?;
    push_number(out, u64::from(error.number()))?;
    if let WorkError::Locked(xid) = error {
        push_branch(alloc, out, xid)?;
    }
    push(out, "\n")
}

/// Adds the line of an answer. Where memory is refused, a beginning of it may stand.
pub fn push_answer(
    alloc: Global,
    out: &mut Vec<u8>,
    answer: &RequestAnswer,
) -> Result<(), AllocError>
    ensures { OnOk result (out.new.items ≡ out.old.items ++ answer_text answer.now) }
{
    match answer {
        RequestAnswer::Code(code) => push_line(out, code.name()),
        RequestAnswer::Given(xids) => push_given(alloc, out, xids.as_slice()),
        RequestAnswer::Found(None) => push_line(out, "= none"),
        RequestAnswer::Found(Some(value)) => push_found(out, value.as_slice()),
        RequestAnswer::Done => push_line(out, "done"),
        RequestAnswer::Refused(error) => push_refusal(alloc, out, error),
        RequestAnswer::Booted(boot) => push_numbered(out, "boot ", *boot),
        RequestAnswer::NotBooted(error) => push_numbered(out, "refused ", restart_number(*error)),
        RequestAnswer::Trimmed(remain) => push_numbered(out, "trim ", *remain),
        RequestAnswer::NotTrimmed(error) => push_numbered(out, "refused ", trim_number(*error)),
        RequestAnswer::NotDecided(error) => push_numbered(out, "refused ", decide_number(*error)),
    }
}
