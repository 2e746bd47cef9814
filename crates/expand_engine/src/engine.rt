//! A script in, a script out.

ghost use Rattle.std.specs.Prelude.{IfOk};
ghost use Rattle.expand_engine.specs.Expansions.{IsExpansion};

use crate::expander::{Expander, Line};
use crate::words::{said, words_of};
use log_script::ProcessLogs;
use protocol::{ProcessId, Tree};
use reopen_script::{leading, open_reopen, read_reopen};
use report_io::Failure;
use script_words::says_nothing;
use std::alloc::Global;
use std::str;
use thiserror::Error;
use tree_engine::Run;
use tree_script::{ScriptError, ScriptFault, read_front};

/// Why a script cannot be expanded.
#[derive(Clone, Copy, Debug, Error)]
pub enum ExpandFault {
    /// Its text, its processes, or one of its lines is none.
    #[error("{0}")]
    Script(ScriptFault),
    /// The line of this number, from the input's first on, asks for a message that does not wait then.
    #[error("line {0} asks for a message that is not waiting")]
    NoMessage(u64),
    /// The log of this process, with which it begins, is damaged from this byte on.
    #[error("the log of process {0} is damaged from byte {1} on")]
    Damaged(u32, usize),
}

/// A script, or why there is none.
pub type Expanded = Result<Vec<u8>, ExpandFault>;

/// A run over these logs, or over empty ones; or the first log that is damaged.
fn opened(
    alloc: Global,
    tree: Tree,
    logs: Option<ProcessLogs>,
) -> Result<Result<Run, (ProcessId, usize)>, Failure> {
    if let Err(_) = tree.check() {
        return Err(Failure::Memory);
    }
    match logs {
        None => Ok(Ok(Run::open(alloc, tree)?)),
        Some(logs) => Run::reopen(alloc, tree, logs.as_slice()),
    }
}

/// Adds the first lines of a text.
fn push_first(expander: &mut Expander, text: &str, count: usize) -> Result<(), Failure> {
    for line in text.lines().take(count) {
        expander.push(line)?;
    }
    Ok(())
}

/// Makes the events of these lines, up to a refused one; the line before the first has this number.
fn take_lines(
    alloc: Global,
    expander: &mut Expander,
    before: u64,
    lines: &[&str],
) -> Result<Result<(), ExpandFault>, Failure> {
    let mut number = before;
    for line in lines {
        number = number.saturating_add(1);
        if expander.is_over() {
            return Ok(Ok(()));
        }
        if says_nothing(line) {
            expander.push(line)?;
            continue;
        }
        let said = said(line);
        if says_nothing(said) {
            continue;
        }
        let words = words_of(alloc, said)?;
        match expander.take(alloc, &words)? {
            Line::Made => {}
            Line::Nothing => return Ok(Err(ExpandFault::Script(ScriptFault::Line(number)))),
            Line::NoMessage => return Ok(Err(ExpandFault::NoMessage(number))),
        }
    }
    Ok(Ok(()))
}

/// The text of a script that has been made; the fault of a text that is none, as it has too many lines.
fn checked(alloc: Global, text: Vec<u8>) -> Result<Expanded, Failure>
    ensures { IfOk result (λ expanded. IfOk expanded (λ text. IsExpansion text.items)) }
{
    match read_reopen(alloc, &text) {
        Ok(_) => Ok(Ok(text)),
        Err(ScriptError::Fault(fault)) => Ok(Err(ExpandFault::Script(fault))),
        Err(ScriptError::Memory) => Err(Failure::Memory),
    }
}

/// The lines to which those of a script lead, in a tree that has just opened.
fn expanded(
    alloc: Global,
    run: Run,
    root: ProcessId,
    input: &[u8],
) -> Result<Result<Vec<u8>, ExpandFault>, Failure> {
    let front = match read_front(alloc, input) {
        Ok(front) => front,
        Err(ScriptError::Fault(fault)) => {
            run.close();
            return Ok(Err(ExpandFault::Script(fault)));
        }
        Err(ScriptError::Memory) => {
            run.close();
            return Err(Failure::Memory);
        }
    };
    let mut expander = Expander::new(alloc, run, root);
    let taken = lines_of(alloc, &mut expander, input, front.rule, &front.lines);
    let lines = expander.close();
    Ok(match taken? {
        Ok(()) => Ok(Vec::from_slice(alloc, lines.as_bytes())?),
        Err(fault) => Err(fault),
    })
}

/// Takes all lines of a script, whose line of three dashes has this number.
fn lines_of(
    alloc: Global,
    expander: &mut Expander,
    input: &[u8],
    rule: u64,
    lines: &[&str],
) -> Result<Result<(), ExpandFault>, Failure> {
    let ahead = leading(lines);
    let before = rule.saturating_add(ahead as u64);
    if let Ok(text) = str::from_utf8(input) {
        push_first(expander, text, before as usize)?;
    }
    let (_, events) = lines.split_at(ahead);
    take_lines(alloc, expander, before, events)
}

/// The script of specified events to which a script with other words comes, by running it:
/// `deliver PREPARE 2` and `deliver 1->2` deliver the oldest such message that waits, `drop` has a message
/// never delivered by a settle, `settle until` delivers those that wait before such a message, `repeat`
/// delivers the last one again; blanks at the ends of a line and comments after ` #` are left out. After an
/// event that is refused nothing more is written. An error says that memory was refused, or why an event
/// could not be made.
pub fn expand(alloc: Global, input: &[u8]) -> Result<Expanded, Failure>
    ensures { IfOk result (λ expanded. IfOk expanded (λ text. IsExpansion text.items)) }
{
    let (tree, logs) = match open_reopen(alloc, input) {
        Ok((tree, logs, _lines)) => (tree, logs),
        Err(ScriptError::Fault(fault)) => return Ok(Err(ExpandFault::Script(fault))),
        Err(ScriptError::Memory) => return Err(Failure::Memory),
    };
    let root = tree.root();
    let run = match opened(alloc, tree, logs)? {
        Ok(run) => run,
        Err((process, place)) => return Ok(Err(ExpandFault::Damaged(process.0, place))),
    };
    match expanded(alloc, run, root, input)? {
        Ok(text) => checked(alloc, text),
        Err(fault) => Ok(Err(fault)),
    }
}
