//! What a node refuses, in sentences.

use crate::tell;
use explain_lines::{Script, finding_of};
use input_lines::LONGEST;
use node_engine::Witness;
use spellings::word::cut;
use std::alloc::{AllocError, Global};
use std::str;

/// The lines that a node takes.
const LINES: &str =
    "begin, join, work, commit, abort, ask, heur and forget as `rstar tree` has them, \
                     N F->T MESSAGE as another node wrote it, trim, doubt, outcome TXN, again CASE, resolve NAME, status, log, data, help or end";

/// Tells on standard error of each line that a node refuses, if it is to.
#[derive(Drop)]
pub struct Explainer {
    rt: HostRuntime,
    tells: bool,
    line: u64,
}

impl Explainer {
    pub fn new(rt: &HostRuntime, tells: bool) -> Self {
        Explainer {
            rt: *rt,
            tells,
            line: 0,
        }
    }
}

/// Why a line is refused by this number (docs/ERRORS.md).
fn reason(line: &str, number: &str) -> &'static str {
    match number {
        "9" if line.starts_with("again ") => {
            "the case does not belong to this process, or waits for no acknowledgement: there is no such message"
        }
        "3" => "no such case is live here: it was decided, or forgotten, or never begun",
        "4" => "it is not a child that can take this",
        "5" => "the case is closed: it was already asked to commit or abort, or PREPARE came",
        "6" => "the process has failed: start it again",
        "7" => "the case is not in doubt here",
        "8" => "no operator decided it: there is nothing to forget",
        "9" => "it is for another process, or from one that may not send it",
        _ => "it is refused",
    }
}

/// A text that a terminal can show, at most 80 characters of it.
fn shown(alloc: Global, text: &str) -> Result<String, AllocError> {
    let mut out = String::new(alloc);
    for c in text.chars().take(80) {
        out.push(if c.is_control() { '?' } else { c })?;
    }
    Ok(out)
}

/// Whether a line begins with a word of scripts that nodes do not take.
fn is_of_scripts(line: &str) -> bool {
    ["deliver", "settle", "restart", "trim"]
        .iter()
        .any(|word: &&str| -> bool { line.starts_with(*word) })
}

/// What is wrong with the line of nothing.
fn fault(alloc: Global, line: &str) -> Result<String, AllocError> {
    if is_of_scripts(line) || line.starts_with(|c: char| -> bool { c.is_ascii_digit() }) {
        return format!(in alloc; "this is not a line that a node takes\nwanted: {LINES}\n");
    }
    match finding_of(alloc, Script::Tree, line)? {
        None => format!(in alloc; "this is not a line that a node takes\nwanted: {LINES}\n"),
        Some(finding) => {
            let fault = finding.fault;
            format!(in alloc; "{fault}\nwanted: {LINES}\n")
        }
    }
}

/// What is told of a line with its answer; nothing of one that was not refused.
fn told(
    alloc: Global,
    number: u64,
    line: &[u8],
    answer: &[u8],
) -> Result<Option<String>, AllocError> {
    let Ok(answer) = str::from_utf8(answer) else {
        return Ok(None);
    };
    let text = match str::from_utf8(line) {
        Ok(text) => text,
        Err(_) => "",
    };
    let shown = shown(alloc, text)?;
    if answer.starts_with("error") {
        let fault = fault(alloc, text)?;
        return Ok(Some(format!(in alloc; "line {number}: {shown}\n{fault}")?));
    }
    match answer.strip_prefix("refused ") {
        None => Ok(None),
        Some(rest) => {
            let rest = rest.trim_end();
            let error = match cut(rest, ' ') {
                None => rest,
                Some((number, _)) => number,
            };
            let why = reason(text, error);
            Ok(Some(format!(in alloc; "line {number}: {shown}\nrefused {error}: {why}\n")?))
        }
    }
}

/// What is told of a line that is too long.
fn too_long(alloc: Global, number: u64) -> Result<Option<String>, AllocError> {
    Ok(Some(format!(in alloc; "line {number}: it has more than {LONGEST} bytes\n")?))
}

/// What is told of a line, if anything is wrong with it.
fn sentence(
    alloc: Global,
    number: u64,
    line: &[u8],
    answer: &[u8],
) -> Result<Option<String>, AllocError> {
    if line.len() > LONGEST {
        too_long(alloc, number)
    } else {
        told(alloc, number, line, answer)
    }
}

impl Witness for Explainer {
    fn see(&mut self, line: &[u8], answer: &[u8]) {
        self.line = self.line.saturating_add(1);
        if !self.tells {
            return;
        }
        if let Ok(Some(text)) = sentence(self.rt.alloc(), self.line, line, answer) {
            tell(&self.rt, Some(text));
        }
    }
}
