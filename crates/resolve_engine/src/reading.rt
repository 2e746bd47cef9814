//! Reads a tree and the logs of some of its processes.

ghost use Rattle.std.specs.Prelude.{◌≡◌, ◌+◌, ◌<◌, ◌^◌, Ok, IfOk, IfErr, length, map};
ghost use Rattle.log_script.specs.Logs.{IsNumberedFault, may_follow};
ghost use Rattle.resolve_engine.specs.Inputs.{IsSomeLogsError, IsSomeLogsText, some_logs_of};

use crate::finding::has_log;
use log_script::{ProcessLog, ProcessLogs, log_of};
use protocol::{Sequence, Tree};
use script_words::says_nothing;
use std::alloc::Global;
use tree_script::{ScriptError, ScriptFault, read_front};

/// Whether a log is the first of a process of the tree.
fn may_follow(tree: &Tree, logs: &[ProcessLog], log: &ProcessLog) -> bool
    ensures { result ≡ may_follow tree.now logs.now log.now }
{
    tree.is_listed(log.process) && !has_log(logs, log.process)
}

/// The logs of the lines after the line of three dashes, whose number is given.
fn logs_after(
    alloc: Global,
    tree: &Tree,
    rule: u64,
    lines: &[&str],
) -> Result<ProcessLogs, ScriptError>
    requires { rule + length lines.now < 2 ^ 64 }
    ensures ok { IfOk result (λ logs. some_logs_of tree.now rule (map (λ s. s.now) lines.now) ≡ Ok logs) }
    ensures err { IfErr result (λ error. IsNumberedFault error
        (some_logs_of tree.now rule (map (λ s. s.now) lines.now))) }
{
    let mut logs = Sequence::new(alloc);
    for (i, line) in lines.iter().enumerate() {
        if says_nothing(line) {
            continue;
        }
        let number = rule + i as u64 + 1;
        let Some(log) = log_of(alloc, line)? else {
            return Err(ScriptError::Fault(ScriptFault::Line(number)));
        };
        if !may_follow(tree, logs.as_slice(), &log) {
            return Err(ScriptError::Fault(ScriptFault::Line(number)));
        }
        logs.push(log)?;
    }
    Ok(logs)
}

/// Reads the text of a tree, a line of three dashes, and a line for the log of some of its processes, each at
/// most once, in any order. The faults are those of a text with a log of each process, but that none need be
/// there.
pub fn read_some_logs(alloc: Global, bytes: &[u8]) -> Result<(Tree, ProcessLogs), ScriptError>
    ensures ok { IfOk result (λ (tree, logs). IsSomeLogsText bytes.now tree logs) }
    ensures err { IfErr result (λ error. IsSomeLogsError bytes.now error) }
{
    let front = match read_front(alloc, bytes) {
        Ok(front) => front,
        Err(error) => return Err(error),
    };
    match logs_after(alloc, &front.tree, front.rule, &front.lines) {
        Ok(logs) => Ok((front.tree, logs)),
        Err(error) => Err(error),
    }
}
