//! Reads a tree and its logs.

ghost use Rattle.std.specs.Prelude.{◌≡◌, ◌+◌, ◌<◌, ◌^◌, Ok, IfOk, IfErr, length, map};
ghost use Rattle.log_script.specs.Logs.{IsLogsError, IsLogsText, IsNumberedFault, each_has_log, has_log, logs_of, may_follow};
ghost use Rattle.log_script.specs.Logs.{bytes_of};

use crate::line::{ProcessLog, ProcessLogs, log_of};
use protocol::{ProcessId, Sequence, Tree, TreeProcess};
use script_words::says_nothing;
use std::alloc::Global;
use tree_script::{ScriptError, ScriptFault, read_front};

/// The bytes of a process's log; none where it has no line.
#[tactic(auto, unfolding(crate::specs::Logs::bytes_of, protocol::specs::Names::same_process))]
pub fn bytes_of(logs: &[ProcessLog], process: ProcessId) -> &[u8]
    ensures { result.now ≡ bytes_of logs.now process }
{
    let mut rest = logs;
    while let [log, later @ ..] = rest {
        if log.process == process {
            return log.bytes.as_slice();
        }
        rest = later;
    }
    &[]
}

/// Whether a process has a log among these.
#[tactic(auto, unfolding(crate::specs::Logs::has_log, protocol::specs::Names::same_process))]
fn has_log(logs: &[ProcessLog], process: ProcessId) -> bool
    ensures { result ≡ has_log logs.now process }
{
    logs.iter().any(|log| log.process == process)
}

/// Whether a log is the first of a process of the tree.
fn may_follow(tree: &Tree, logs: &[ProcessLog], log: &ProcessLog) -> bool
    ensures { result ≡ may_follow tree.now logs.now log.now }
{
    tree.is_listed(log.process) && !has_log(logs, log.process)
}

/// Whether each process has a log among these.
#[tactic(auto, unfolding(crate::specs::Logs::each_has_log))]
pub fn each_has_log(entries: &[TreeProcess], logs: &[ProcessLog]) -> bool
    ensures { result ≡ each_has_log entries.now logs.now }
{
    entries.iter().all(|entry| has_log(logs, entry.id))
}

/// The logs of the lines after the line of three dashes, whose number is given.
fn logs_behind(
    alloc: Global,
    tree: &Tree,
    rule: u64,
    lines: &[&str],
) -> Result<ProcessLogs, ScriptError>
    requires { rule + length lines.now < 2 ^ 64 }
    ensures ok { IfOk result (λ logs. logs_of tree.now rule (map (λ s. s.now) lines.now) ≡ Ok logs) }
    ensures err { IfErr result (λ error. IsNumberedFault error
        (logs_of tree.now rule (map (λ s. s.now) lines.now))) }
{
    let mut logs = Sequence::new(alloc);
    for (i, line) in lines.iter().enumerate() {
        if says_nothing(line) {
            continue;
        }
        let number = rule + i as u64 + 1;
        let Some(log) = log_of(alloc, line)? else {
            return Err(ScriptError::Fault(ScriptFault::Line(number)));
        };
        if !may_follow(tree, logs.as_slice(), &log) {
            return Err(ScriptError::Fault(ScriptFault::Line(number)));
        }
        logs.push(log)?;
    }
    if !each_has_log(tree.entries(), logs.as_slice()) {
        let last = rule + lines.len() as u64;
        return Err(ScriptError::Fault(ScriptFault::Line(last)));
    }
    Ok(logs)
}

/// Reads the text of a tree, a line of three dashes, and a line for the log of each process, each once, in
/// any order. Empty lines and lines that begin with `#` are skipped. The faults are Utf8, TreeText, Tree and
/// Line, each judged over the whole input before the next. Line has the number of the first line that is
/// not a log, or is of no process of the tree, or of a process that has one already; where each is sound and
/// a process has none, that of the input's last.
pub fn read_logs(alloc: Global, bytes: &[u8]) -> Result<(Tree, ProcessLogs), ScriptError>
    ensures ok { IfOk result (λ (tree, logs). IsLogsText bytes.now tree logs) }
    ensures err { IfErr result (λ error. IsLogsError bytes.now error) }
{
    let front = match read_front(alloc, bytes) {
        Ok(front) => front,
        Err(error) => return Err(error),
    };
    match logs_behind(alloc, &front.tree, front.rule, &front.lines) {
        Ok(logs) => Ok((front.tree, logs)),
        Err(error) => Err(error),
    }
}
