//! Logs of which one byte is set to each value, and a script that is cut at each byte: what is answered to
//! each, as a table in which equal answers stand together.

use log_records::{LogOpenError, RecLog};
use log_script::read_logs;
use log_store::MemoryStore;
use protocol::{Kind, ProcessId};
use std::alloc::{AllocError, Global};
use tree_engine::{Status, TreeOutput, run_tree};

/// Whose log it is.
#[derive(Clone, Copy)]
struct Owner {
    process: ProcessId,
    kind: Kind,
}

/// What opening a log answers: how many records it has, the place of its damage, or that it is of the first
/// format.
#[derive(Clone, Copy, PartialEq, Eq)]
enum Answer {
    Records(usize),
    Damaged(usize),
    OldFormat,
}

/// What opening a log of these bytes answers.
fn answer_to(alloc: Global, owner: Owner, text: &[u8]) -> Option<Answer> {
    let bytes = Vec::from_slice(alloc, text).ok()?;
    match RecLog::open(
        alloc,
        MemoryStore::from_bytes(bytes),
        owner.process,
        owner.kind,
    ) {
        Ok(log) => Some(Answer::Records(log.records(alloc).ok()?.len())),
        Err((LogOpenError::Damaged(place), _store)) => Some(Answer::Damaged(place)),
        Err((LogOpenError::OldFormat, _store)) => Some(Answer::OldFormat),
        Err(_) => None,
    }
}

/// Adds the line of the values from one to another that are answered alike at a place.
fn push_alike(
    alloc: Global,
    out: &mut Vec<u8>,
    place: usize,
    from: u8,
    to: u8,
    answer: Answer,
) -> Result<(), AllocError> {
    let line = match answer {
        Answer::Records(count) => format!(in alloc; "{place}: {from} to {to}: records {count}\n")?,
        Answer::Damaged(at) => format!(in alloc; "{place}: {from} to {to}: damaged {at}\n")?,
        Answer::OldFormat => format!(in alloc; "{place}: {from} to {to}: old format\n")?,
    };
    out.extend_from_slice(line.as_bytes())
}

/// The answers to each value of the byte at a place.
fn push_values(
    alloc: Global,
    out: &mut Vec<u8>,
    owner: Owner,
    text: &mut Vec<u8>,
    place: usize,
) -> Option<()> {
    let (mut first, mut before) = (0u8, None);
    for value in 0..=255u8 {
        *text.get_mut(place)? = value;
        let answer = answer_to(alloc, owner, text)?;
        if let Some(before) = before {
            if before != answer {
                push_alike(alloc, out, place, first, value.saturating_sub(1), before).ok()?;
                first = value;
            }
        }
        before = Some(answer);
    }
    push_alike(alloc, out, place, first, 255, before?).ok()
}

/// The answers to each value of each byte of a log.
fn push_log(alloc: Global, out: &mut Vec<u8>, owner: Owner, log: &[u8]) -> Option<()> {
    for place in 0..log.len() {
        let mut text = Vec::from_slice(alloc, log).ok()?;
        push_values(alloc, out, owner, &mut text, place)?;
    }
    Some(())
}

/// Writes what is answered to the log of the first process of a tree, with each byte set to each value.
pub(crate) fn run_damages(alloc: Global, input: &[u8], out: &mut Vec<u8>) -> Option<()> {
    let (tree, logs) = read_logs(alloc, input).ok()?;
    let first = tree.entries().first()?;
    let owner = Owner {
        process: first.id,
        kind: first.kind,
    };
    push_log(alloc, out, owner, logs.as_slice().first()?.bytes.as_slice())
}

/// What the engine writes of a script.
#[derive(Drop)]
struct Report {
    status: Status,
    text: Vec<u8>,
}

impl Report {
    fn of(alloc: Global, mut script: &[u8]) -> Option<Report> {
        let mut text = Vec::new(alloc);
        let status = run_tree(alloc, TreeOutput::Trace, &mut script, &mut text).ok()?;
        Some(Report { status, text })
    }

    fn is_like(&self, other: &Report) -> bool {
        self.status == other.status && self.text == other.text
    }

    /// Adds it, after the cuts from one to another.
    fn push(
        &self,
        alloc: Global,
        out: &mut Vec<u8>,
        from: usize,
        to: usize,
    ) -> Result<(), AllocError> {
        let status = self.status.number();
        let line = format!(in alloc; "cut at {from} to {to}: status {status}\n")?;
        out.extend_from_slice(line.as_bytes())?;
        out.extend_from_slice(&self.text)
    }
}

/// Writes the reports of a script that is cut at each byte.
pub(crate) fn run_cuts(alloc: Global, input: &[u8], out: &mut Vec<u8>) -> Option<()> {
    let mut first = 0usize;
    let mut before = Report::of(alloc, &[])?;
    for cut in 1..=input.len() {
        let report = Report::of(alloc, input.get(..cut)?)?;
        if !report.is_like(&before) {
            before.push(alloc, out, first, cut.saturating_sub(1)).ok()?;
            first = cut;
        }
        before = report;
    }
    before.push(alloc, out, first, input.len()).ok()
}
