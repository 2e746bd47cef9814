//! The lines ahead of the events: those that say logs, and those that are skipped among them.

ghost use Rattle.std.specs.Prelude.{◌≡◌, ◌+◌, ◌<◌, ◌≤◌, ◌^◌, [], Ok, IfOk, IfErr, length, map};
ghost use Rattle.reopen_script.specs.Ahead.{IsNumbered, are_of_all, is_ahead, is_log, last_said, leading, logs_in, logs_said, set_line};

use log_script::{ProcessLogs, each_has_log, log_of};
use protocol::{Sequence, Tree};
use script_words::says_nothing;
use spellings::word::cut;
use std::alloc::Global;
use tree_script::{ScriptError, ScriptFault};

/// Whether the first word of a line is `log`.
#[tactic(auto, unfolding(crate::specs::Ahead::is_log))]
fn is_log(line: &str) -> bool
    ensures { result ≡ is_log line.now }
{
    match cut(line, ' ') {
        None => line == "log",
        Some((word, _)) => word == "log",
    }
}

/// Whether a line may stand ahead of the events: it is skipped, or its first word is `log`.
#[tactic(auto, unfolding(crate::specs::Ahead::is_ahead))]
fn is_ahead(line: &str) -> bool
    ensures { result ≡ is_ahead line.now }
{
    says_nothing(line) || is_log(line)
}

/// How many of these lines, the first ones, stand ahead of the events.
pub fn leading(lines: &[&str]) -> usize
    ensures count { result ≡ leading (map (λ s. s.now) lines.now) }
    ensures within { result ≤ length lines.now }
{
    for (i, line) in lines.iter().enumerate() {
        if !is_ahead(line) {
            return i;
        }
    }
    lines.len()
}

/// The number of the last of these lines that is not skipped, where this is the number of the line before the
/// first; that number, where all are.
fn last_said(before: u64, lines: &[&str]) -> u64
    requires { before + length lines.now < 2 ^ 64 }
    ensures { result ≡ last_said before before (map (λ s. s.now) lines.now) }
{
    let mut last = before;
    for (i, line) in lines.iter().enumerate() {
        if says_nothing(line) {
            continue;
        }
        last = before + i as u64 + 1;
    }
    last
}

/// The number of the line at which it is told that the logs ahead are not those of all processes.
fn set_line(before: u64, ahead: &[&str], behind: &[&str]) -> u64
    requires { before + length ahead.now + length behind.now < 2 ^ 64 }
    ensures { result ≡ set_line before (map (λ s. s.now) ahead.now) (map (λ s. s.now) behind.now) }
{
    if behind.is_empty() {
        last_said(before, ahead)
    } else {
        before + ahead.len() as u64 + 1
    }
}

/// The logs of these lines, where this is the number of the line before the first.
fn logs_in(alloc: Global, before: u64, lines: &[&str]) -> Result<ProcessLogs, ScriptError>
    requires { before + length lines.now < 2 ^ 64 }
    ensures ok { IfOk result (λ logs. logs_in [] (before + 1) (map (λ s. s.now) lines.now) ≡ Ok logs) }
    ensures err { IfErr result (λ error. IsNumbered error
        (logs_in [] (before + 1) (map (λ s. s.now) lines.now))) }
{
    let mut logs = Sequence::new(alloc);
    for (i, line) in lines.iter().enumerate() {
        if says_nothing(line) {
            continue;
        }
        let Some(log) = log_of(alloc, line)? else {
            return Err(ScriptError::Fault(ScriptFault::Line(before + i as u64 + 1)));
        };
        logs.push(log)?;
    }
    Ok(logs)
}

/// Whether each process of the tree has one of these logs, and no other has.
fn are_of_all(tree: &Tree, logs: &ProcessLogs) -> bool
    ensures { result ≡ are_of_all tree.now logs.now }
{
    logs.len() == tree.entries().len() && each_has_log(tree.entries(), logs.as_slice())
}

/// The logs that the lines ahead of these others say, where this is the number of the line before the first;
/// none where they say none. Line: the first that is not the line of a log; where each is one and they are
/// not those of all processes, each once, the first line after them, or the last of them, if none is.
pub fn logs_said(
    alloc: Global,
    tree: &Tree,
    before: u64,
    ahead: &[&str],
    behind: &[&str],
) -> Result<Option<ProcessLogs>, ScriptError>
    requires { before + length ahead.now + length behind.now < 2 ^ 64 }
    ensures ok { IfOk result (λ logs. logs_said tree.now before (map (λ s. s.now) ahead.now)
        (map (λ s. s.now) behind.now) ≡ Ok logs) }
    ensures err { IfErr result (λ error. IsNumbered error (logs_said tree.now before
        (map (λ s. s.now) ahead.now) (map (λ s. s.now) behind.now))) }
{
    let logs = match logs_in(alloc, before, ahead) {
        Ok(logs) => logs,
        Err(error) => return Err(error),
    };
    if logs.len() == 0 {
        return Ok(None);
    }
    if !are_of_all(tree, &logs) {
        let number = set_line(before, ahead, behind);
        return Err(ScriptError::Fault(ScriptFault::Line(number)));
    }
    Ok(Some(logs))
}
