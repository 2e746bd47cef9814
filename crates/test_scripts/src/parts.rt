//! Rows of pictures of parts of runs. A row's input is a line `whole`, `case TXN` or `events A-B`, and the
//! script.

use picture_parts::{PartFault, PicturePart, picture_of, range_of, whole_fault};
use protocol::ProcessId;
use std::alloc::Global;
use std::str;
use tree_engine::{TreeOutput, run_tree};
use tree_script::txn_of;

/// The part that a line names.
fn part_of(line: &str) -> Option<PicturePart> {
    let (word, rest) = line.split_once(' ')?;
    match word {
        "case" => Some(PicturePart::Case(txn_of(ProcessId(0), rest)?)),
        "events" => Some(PicturePart::Events(range_of(rest)?)),
        _ => None,
    }
}

/// Writes why there is no picture: the exit status.
fn refused(alloc: Global, fault: PartFault, out: &mut Vec<u8>) -> Option<u8> {
    let line = format!(in alloc; "{fault}\n").ok()?;
    out.extend_from_slice(line.as_bytes()).ok()?;
    Some(1)
}

/// Draws the whole run of a script, if it is small enough.
fn drawn_whole(alloc: Global, mut script: &[u8], out: &mut Vec<u8>) -> Option<u8> {
    match whole_fault(alloc, script).ok()? {
        Some(fault) => refused(alloc, fault, out),
        None => {
            let status = run_tree(alloc, TreeOutput::Picture, &mut script, out).ok()?;
            Some(status.number())
        }
    }
}

/// Draws a part of the run of a script: the exit status, and the picture, or the sentence that says why there
/// is none. No status where it fails.
pub fn drawn(alloc: Global, input: &[u8], out: &mut Vec<u8>) -> Option<u8> {
    let text = str::from_utf8(input).ok()?;
    let (first, script) = text.split_once('\n')?;
    if first == "whole" {
        return drawn_whole(alloc, script.as_bytes(), out);
    }
    match picture_of(alloc, script.as_bytes(), &part_of(first)?).ok()?? {
        Ok((picture, status)) => {
            out.extend_from_slice(&picture).ok()?;
            Some(status.number())
        }
        Err(fault) => refused(alloc, fault, out),
    }
}
