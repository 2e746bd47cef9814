//! What is admitted where an answer is not.

ghost use Rattle.std.specs.Prelude.{◌≡◌, ◌++◌, OnOk};

use crate::standing::push_standing;
use judge_rules::{
    ALL, Function, HistoryEvent, JudgeError, JudgedAnswer, JudgedCall, Reply, Rules, next,
};
use judge_script::Names;
use judge_state::State;
use std::alloc::{AllocError, Global};
use trace_lines::push_number;
use xa_codes::{Code, Flags};
use xa_xid::Xid;

/// No more states than these are told of.
const MOST_TOLD: usize = 4;

/// Adds a text.
pub(crate) fn push(out: &mut Vec<u8>, text: &str) -> Result<(), AllocError>
    ensures { OnOk result (out.new.items ≡ out.old.items ++ text.now) }
{
    out.extend_from_slice(text.as_bytes())
}

/// Adds a text, and `|` before it unless it is the first.
fn push_choice(out: &mut Vec<u8>, text: &str) -> Result<(), AllocError> {
    if !out.is_empty() {
        push(out, "|")?;
    }
    push(out, text)
}

/// A code that is this to the rules.
fn code_of(reply: Reply) -> Code {
    match reply {
        Reply::Ok => Code::Ok,
        Reply::RolledBack => Code::RbRollback,
        Reply::NoMigrate => Code::NoMigrate,
        Reply::HeurHaz => Code::HeurHaz,
        Reply::HeurCom => Code::HeurCom,
        Reply::HeurRb => Code::HeurRb,
        Reply::HeurMix => Code::HeurMix,
        Reply::Retry => Code::Retry,
        Reply::RdOnly => Code::RdOnly,
        Reply::Async => Code::Async,
        Reply::RmErr => Code::RmErr,
        Reply::NotA => Code::NotA,
        Reply::Inval => Code::Inval,
        Reply::Proto => Code::Proto,
        Reply::RmFail => Code::RmFail,
        Reply::DupId => Code::DupId,
        Reply::Outside => Code::Outside,
    }
}

/// The name of a code, XA_RB* for all eight.
fn name_of(reply: Reply) -> &'static str {
    match reply {
        Reply::RolledBack => "XA_RB*",
        _ => code_of(reply).name(),
    }
}

/// Whether a state admits an answer. It does if more states may follow than are gone through.
fn admits(
    alloc: Global,
    rules: Rules,
    state: &State,
    call: JudgedCall,
    answer: &JudgedAnswer,
) -> Result<bool, AllocError> {
    match next(alloc, rules, state, call, answer) {
        Ok(after) => Ok(!after.is_empty()),
        Err(JudgeError::TooMany) => Ok(true),
        Err(JudgeError::Memory) => Err(AllocError),
    }
}

/// Whether one of these states admits an answer.
fn is_admitted(
    alloc: Global,
    rules: Rules,
    states: &[State],
    call: JudgedCall,
    answer: &JudgedAnswer,
) -> Result<bool, AllocError> {
    for state in states {
        if admits(alloc, rules, state, call, answer)? {
            return Ok(true);
        }
    }
    Ok(false)
}

/// The codes that are admitted.
fn push_codes(
    alloc: Global,
    rules: Rules,
    states: &[State],
    call: JudgedCall,
    out: &mut Vec<u8>,
) -> Result<(), AllocError> {
    for reply in &ALL {
        if is_admitted(
            alloc,
            rules,
            states,
            call,
            &JudgedAnswer::Code(code_of(*reply)),
        )? {
            push_choice(out, name_of(*reply))?;
        }
    }
    Ok(())
}

/// The values that a read may give.
fn push_values(
    alloc: Global,
    rules: Rules,
    names: &Names,
    states: &[State],
    call: JudgedCall,
    out: &mut Vec<u8>,
) -> Result<(), AllocError> {
    for (number, word) in names.words.iter().enumerate() {
        if number < 1 << 32
            && is_admitted(
                alloc,
                rules,
                states,
                call,
                &JudgedAnswer::Found(number as u32),
            )?
        {
            push_choice(out, "= ")?;
            push(out, word)?;
        }
    }
    Ok(())
}

/// Adds a space and an XID.
fn push_xid(alloc: Global, out: &mut Vec<u8>, xid: &Xid) -> Result<(), AllocError> {
    let text = xid.text(alloc)?;
    push(out, " ")?;
    push(out, text.as_str())
}

/// The state in which the list of a recover is judged.
fn scanned(alloc: Global, state: &State, thread: u32, flags: Flags) -> Result<State, AllocError> {
    let copy = state.copied(alloc)?;
    if flags.has(Flags::TMSTARTRSCAN) {
        copy.scan_opened(alloc, thread)
    } else {
        Ok(copy)
    }
}

/// The branches that the scan of a thread may give, a space before each.
fn given_text(
    alloc: Global,
    names: &Names,
    scan: &State,
    thread: u32,
) -> Result<Vec<u8>, AllocError> {
    let mut text = Vec::new(alloc);
    for (number, xid) in names.xids.iter().enumerate() {
        if number < 1 << 32 && scan.may_give(thread, number as u32) {
            push_xid(alloc, &mut text, xid)?;
        }
    }
    Ok(text)
}

/// The branches that the scan of a thread owes, a space before each.
fn owed_text(
    alloc: Global,
    names: &Names,
    scan: &State,
    thread: u32,
) -> Result<Vec<u8>, AllocError> {
    let mut text = Vec::new(alloc);
    for (number, xid) in names.xids.iter().enumerate() {
        if number < 1 << 32 && scan.owes(thread, number as u32) {
            push_xid(alloc, &mut text, xid)?;
        }
    }
    Ok(text)
}

/// What a list of a recover may be: of which branches, how many of them, and without which it may not be
/// shorter.
fn push_list(
    rules: Rules,
    count: u32,
    given: &[u8],
    owed: &[u8],
    out: &mut Vec<u8>,
) -> Result<(), AllocError> {
    if given.is_empty() {
        return push_choice(out, "0");
    }
    push_choice(out, "a list of")?;
    if !rules.lacks.count {
        push(out, " at most ")?;
        push_number(out, u64::from(count))?;
        push(out, " of")?;
    }
    out.extend_from_slice(given)?;
    if owed.is_empty() {
        return Ok(());
    }
    let without = if rules.lacks.count {
        ", not without"
    } else {
        ", a shorter one not without"
    };
    push(out, without)?;
    out.extend_from_slice(owed)
}

/// What the states admit as answers of a call.
fn push_admitted(
    alloc: Global,
    rules: Rules,
    names: &Names,
    states: &[State],
    call: JudgedCall,
    out: &mut Vec<u8>,
) -> Result<(), AllocError> {
    push_codes_of(alloc, rules, states, call, out)?;
    if is_admitted(alloc, rules, states, call, &JudgedAnswer::Done)? {
        push_choice(out, "done")?;
    }
    if is_admitted(alloc, rules, states, call, &JudgedAnswer::Refused)? {
        push_choice(out, "refused")?;
    }
    match call {
        JudgedCall::Get { .. } => push_values(alloc, rules, names, states, call, out),
        JudgedCall::Function(
            Function::Recover {
                thread,
                count,
                flags,
            },
        ) => {
            for state in states {
                let scan = scanned(alloc, state, thread, flags)?;
                if scan.is_scanning(thread) {
                    let given = given_text(alloc, names, &scan, thread)?;
                    let owed = owed_text(alloc, names, &scan, thread)?;
                    push_list(rules, count, &given, &owed, out)?;
                }
            }
            Ok(())
        }
        _ => Ok(()),
    }
}

/// The codes that a function of the interface may be answered.
fn push_codes_of(
    alloc: Global,
    rules: Rules,
    states: &[State],
    call: JudgedCall,
    out: &mut Vec<u8>,
) -> Result<(), AllocError> {
    match call {
        JudgedCall::Function(_) => push_codes(alloc, rules, states, call, out),
        _ => Ok(()),
    }
}

/// How thread and branch are in these states, and what they admit.
pub(crate) fn explain(
    alloc: Global,
    rules: Rules,
    names: &Names,
    states: &[State],
    event: &HistoryEvent,
) -> Result<(Vec<u8>, Vec<u8>), AllocError> {
    let told = if states.len() > MOST_TOLD {
        &states[..MOST_TOLD]
    } else {
        states
    };
    let mut standing = Vec::new(alloc);
    for state in told {
        push_standing(alloc, state, event.call, &mut standing)?;
    }
    let mut admitted = Vec::new(alloc);
    push_admitted(alloc, rules, names, told, event.call, &mut admitted)?;
    Ok((standing, admitted))
}
