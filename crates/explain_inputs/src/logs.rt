//! Which log is at fault.

use log_records::{LogOpenError, find};
use log_script::{ProcessLog, bytes_of};
use log_text::LogForm;
use protocol::{ProcessId, Tree, TreeProcess};
use script_words::says_nothing;
use std::alloc::{AllocError, Global};
use thiserror::Error;
use tree_script::process_of;

/// Which log is at fault.
#[derive(Clone, Copy, Debug, PartialEq, Eq, Error)]
pub enum LogFault {
    #[error("process {process} is not listed")]
    Strange { process: u32 },
    #[error("an earlier line is already the log of process {process}")]
    Twice { process: u32 },
    #[error("process {process} has no line `log {process}`")]
    Missing { process: u32 },
    #[error("the log of process {process} is damaged from byte {place} on")]
    Damaged { process: u32, place: usize },
}

/// The process of the line of a log, if it is one.
fn process_in(line: &str) -> Option<ProcessId> {
    let (word, rest) = line.split_once(' ')?;
    if word != "log" {
        return None;
    }
    match rest.split_once(' ') {
        None => process_of(rest),
        Some((process, _)) => process_of(process),
    }
}

/// The first process without a log among those of these.
fn missing(entries: &[TreeProcess], seen: &[ProcessId]) -> Option<LogFault> {
    let entry = entries.iter().find(|entry| !seen.contains(&entry.id))?;
    Some(LogFault::Missing {
        process: entry.id.0,
    })
}

/// Which log is at fault among lines that are all spelled as the lines of logs.
pub(crate) fn lines_fault(
    alloc: Global,
    tree: &Tree,
    lines: &[&str],
) -> Result<Option<LogFault>, AllocError> {
    let mut seen = Vec::new(alloc);
    for line in lines {
        if says_nothing(line) {
            continue;
        }
        let Some(process) = process_in(line) else {
            return Ok(None);
        };
        if !tree.is_listed(process) {
            return Ok(Some(LogFault::Strange { process: process.0 }));
        }
        if seen.contains(&process) {
            return Ok(Some(LogFault::Twice { process: process.0 }));
        }
        seen.push(process)?;
    }
    Ok(missing(tree.entries(), &seen))
}

/// The first log that is damaged, in the order of the tree.
pub fn damaged_log(
    alloc: Global,
    tree: &Tree,
    logs: &[ProcessLog],
) -> Result<Option<LogFault>, AllocError> {
    for entry in tree.entries() {
        let bytes = bytes_of(logs, entry.id);
        let form = LogForm::of_bytes(bytes, entry.id, entry.kind);
        match find(alloc, form, bytes) {
            Ok(_) => continue,
            Err(LogOpenError::Damaged(place)) => {
                return Ok(Some(LogFault::Damaged {
                    process: entry.id.0,
                    place,
                }));
            }
            Err(LogOpenError::Memory) => return Err(AllocError),
            Err(LogOpenError::Device | LogOpenError::OldFormat) => unreachable!(),
        }
    }
    Ok(None)
}
