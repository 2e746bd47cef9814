//! A whole script.

ghost use Rattle.std.specs.Prelude.{IfOk, IfErr};
ghost use Rattle.reopen_script.specs.Inputs.{IsOpenReopen, IsReopenError, IsReopenScript};

use crate::ahead::{leading, logs_said};
use log_script::ProcessLogs;
use protocol::{Event, Tree};
use script_words::count_asked;
use std::alloc::Global;
use tree_script::{Lines, MOST_EVENTS, ScriptError, ScriptFault, read_front};

/// The tree of a script, the logs of its processes where its events begin with such lines, and the lines
/// after them, which are read one after another. Empty lines and lines that begin with `#` are skipped. The
/// faults are Utf8, TreeText, Tree, TooLong and Line, each judged over the whole input before the next; the
/// lines ahead of the events do not count for TooLong. Line is that of the first line whose first word is
/// `log`, before any event, and which is not the line of a log; where each is one and they are not those of
/// all processes, each once, that of the first line after them, or of the last of them, if none is.
pub fn open_reopen<'a>(
    alloc: Global,
    bytes: &'a [u8],
) -> Result<(Tree, Option<ProcessLogs>, Lines<'a>), ScriptError>
    ensures ok { IfOk result (λ (tree, logs, lines). IsOpenReopen bytes.now tree logs lines) }
    ensures err { IfErr result (λ error. IsReopenError bytes.now error) }
{
    let front = match read_front(alloc, bytes) {
        Ok(front) => front,
        Err(error) => return Err(error),
    };
    let count = leading(&front.lines);
    let (ahead, behind) = front.lines.split_at(count);
    if count_asked(behind) > MOST_EVENTS {
        return Err(ScriptError::Fault(ScriptFault::TooLong));
    }
    let logs = match logs_said(alloc, &front.tree, front.rule, ahead, behind) {
        Ok(logs) => logs,
        Err(error) => return Err(error),
    };
    let rest = Vec::from_slice(alloc, behind)?;
    let root = front.tree.root();
    let lines = Lines::new(root, front.rule + count as u64, rest);
    Ok((front.tree, logs, lines))
}

/// The tree, the logs and the events of such a script, all of its lines read. The faults are those of
/// `open_reopen`, and Line of the first line after the logs that is not an event.
pub fn read_reopen(
    alloc: Global,
    bytes: &[u8],
) -> Result<(Tree, Option<ProcessLogs>, Vec<Event>), ScriptError>
    ensures ok { IfOk result (λ (tree, logs, events). IsReopenScript bytes.now tree logs events.items) }
    ensures err { IfErr result (λ error. IsReopenError bytes.now error) }
{
    let (tree, logs, lines) = match open_reopen(alloc, bytes) {
        Ok(opened) => opened,
        Err(error) => return Err(error),
    };
    match lines.events(alloc) {
        Ok(events) => Ok((tree, logs, events)),
        Err(error) => Err(error),
    }
}
