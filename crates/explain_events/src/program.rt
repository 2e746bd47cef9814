//! Why an input, or an event of it, was refused.

use crate::clean::cleaned;
use crate::event::EventFault;
use crate::history::{History, play};
use explain_inputs::{
    LogFault, damaged_log, event_place, push_bytes, push_fault, push_line, push_line_fault,
    push_reopened_fault,
};
use explain_lines::Script;
use log_script::{ProcessLogs, read_logs};
use protocol::{Event, Tree};
use reopen_script::{leading, read_reopen};
use report_io::Failure;
use std::alloc::{AllocError, Global};
use tree_engine::Run;
use tree_script::{ScriptError, read, read_front};
use xa_engine::script::{XaScriptError as RequestsError, requests_of};

/// Adds why an event was refused.
fn push_refused(
    alloc: Global,
    out: &mut String,
    input: &[u8],
    number: u64,
    fault: EventFault,
) -> Result<(), AllocError> {
    if let Ok(front) = read_front(alloc, input) {
        let made = number.saturating_sub(1) as usize;
        let ahead = leading(&front.lines);
        let (_, events) = front.lines.split_at(ahead);
        if let Some(place) = event_place(events, made) {
            let before = front.rule.saturating_add(ahead as u64);
            let line_number = before.saturating_add(place as u64).saturating_add(1);
            if let Some(line) = events.get(place) {
                push_line(out, line_number, line)?;
            }
        }
    }
    writeln!(out, "{fault}")
}

/// Adds why the event was refused at which a run of these events stands still, if one was.
fn push_reason(
    alloc: Global,
    out: &mut String,
    input: &[u8],
    run: &mut Run,
    events: &[Event],
) -> Result<(), Failure> {
    let mut steps = Vec::new(alloc);
    play(alloc, run, events, &mut steps)?;
    let Some((made, refusal)) = run.refusal() else {
        return Ok(());
    };
    let number = (made as u64).saturating_add(1);
    writeln!(out, "rstar: event {number} is refused: {refusal}")?;
    let Some(event) = events.get(made) else {
        return Ok(());
    };
    let history = History {
        world: run.world(),
        events,
        steps: steps.as_slice(),
    };
    let fault = history.reason(event, refusal);
    push_refused(alloc, out, input, number, fault)?;
    Ok(())
}

/// Adds why an event of a script is refused, if one is, or which of its logs is damaged.
fn push_events(
    alloc: Global,
    out: &mut String,
    input: &[u8],
    script: (Tree, Option<ProcessLogs>),
    events: &[Event],
) -> Result<(), Failure> {
    let (tree, logs) = script;
    if let Err(_) = tree.check() {
        return Ok(());
    }
    let opened = match logs {
        None => Ok(Run::open(alloc, tree)?),
        Some(logs) => Run::reopen(alloc, tree, logs.as_slice())?,
    };
    match opened {
        Ok(run) => {
            let mut run = run;
            let told = push_reason(alloc, out, input, &mut run, events);
            run.close();
            told
        }
        Err((process, place)) => {
            let process = process.0;
            let fault = LogFault::Damaged { process, place };
            Ok(writeln!(out, "rstar: {fault}")?)
        }
    }
}

/// Adds why a tree script, or an event of it, was refused, or which of its logs is damaged.
fn push_tree(alloc: Global, out: &mut String, input: &[u8]) -> Result<(), Failure> {
    match read_reopen(alloc, input) {
        Ok((tree, logs, events)) => push_events(alloc, out, input, (tree, logs), &events),
        Err(ScriptError::Fault(fault)) => Ok(push_reopened_fault(alloc, out, input, fault)?),
        Err(ScriptError::Memory) => Err(Failure::Memory),
    }
}

/// Adds why a tree script without logs, or an event of it, was refused.
fn push_plain(alloc: Global, out: &mut String, input: &[u8]) -> Result<(), Failure> {
    match read(alloc, input) {
        Ok((tree, events)) => push_events(alloc, out, input, (tree, None), &events),
        Err(ScriptError::Fault(fault)) => {
            Ok(push_fault(alloc, out, Script::Tree, input, fault)?)
        }
        Err(ScriptError::Memory) => Err(Failure::Memory),
    }
}

/// Adds why an XA script was refused.
fn push_xa(alloc: Global, out: &mut String, input: &[u8]) -> Result<(), AllocError> {
    let Err(fault) = requests_of(alloc, input)? else {
        return Ok(());
    };
    writeln!(out, "rstar: {fault}")?;
    match fault {
        RequestsError::Utf8 => push_bytes(out, input),
        RequestsError::Line(number) => {
            push_line_fault(alloc, out, Script::Xa, input, number as u64)
        }
        RequestsError::TooLong => writeln!(out, "wanted: at most 100,000 lines; split the script"),
    }
}

/// Adds why logs were refused, or which is damaged.
fn push_logs(alloc: Global, out: &mut String, input: &[u8]) -> Result<(), AllocError> {
    match read_logs(alloc, input) {
        Ok((tree, logs)) => match damaged_log(alloc, &tree, logs.as_slice())? {
            None => Ok(()),
            Some(fault) => writeln!(out, "rstar: {fault}"),
        },
        Err(ScriptError::Fault(fault)) => push_fault(alloc, out, Script::Logs, input, fault),
        Err(ScriptError::Memory) => Err(AllocError),
    }
}

/// Why the program that reads such a script refused this input, or an event of it, in some lines; none, where
/// it did not. An error says why the run could not be made again, or that memory was refused.
pub fn refusal_text(alloc: Global, script: Script, input: &[u8]) -> Result<String, Failure> {
    let mut out = String::new(alloc);
    match script {
        Script::Tree => push_tree(alloc, &mut out, input)?,
        Script::Xa => push_xa(alloc, &mut out, input)?,
        Script::Logs => push_logs(alloc, &mut out, input)?,
    }
    Ok(cleaned(alloc, &out)?)
}

/// Why a program that reads a tree script without logs refused this input, or an event of it, in some
/// lines; none, if it did not. An error says why the run could not be made again, or that memory was
/// refused.
pub fn plain_refusal_text(alloc: Global, input: &[u8]) -> Result<String, Failure> {
    let mut out = String::new(alloc);
    push_plain(alloc, &mut out, input)?;
    Ok(cleaned(alloc, &out)?)
}

/// Which of reading, writing, memory, devices and numbers failed, and what may be done.
pub fn failure_text(alloc: Global, failure: Failure) -> Result<String, AllocError> {
    let advice = match failure {
        Failure::Read => "standard input cannot be read; is it a directory?",
        Failure::Write => "standard output cannot be written; is the disk full?",
        Failure::Memory => "there is not enough memory for this input",
        Failure::Device => "nothing was kept of the run; run it again",
        Failure::Exhausted => "this input needs more numbers than there are; split it",
    };
    format!(in alloc; "rstar: {failure}\n{advice}\n")
}
