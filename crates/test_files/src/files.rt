//! Files of the system.

use log_file::{FileOpenError, FileStore, HostFile, create, open};
use log_store::LogStore;
use std::fs;

const LOG: &str = "file_rows.log";

/// Makes a log, fills it, and lets it go.
fn fill(rt: &HostRuntime) -> Result<bool, FileOpenError> {
    let mut store: FileStore<HostFile> = create(rt, rt.alloc(), LOG)?;
    let filled = store.append(b"one, ").is_ok()
        && store.force().is_ok()
        && store.append(b"two").is_ok()
        && store.force().is_ok();
    let busy = matches!(open(rt, rt.alloc(), LOG), Err(FileOpenError::Busy));
    Ok(filled && busy)
}

/// Fills the log once more, and ends in order: an empty block is after the others.
fn fill_and_close(rt: &HostRuntime) -> Result<bool, FileOpenError> {
    let mut store = open(rt, rt.alloc(), LOG)?;
    Ok(store.append(b", three").is_ok() && store.close().is_ok())
}

/// Whether the log opens with these bytes.
fn holds(rt: &HostRuntime, text: &[u8]) -> bool {
    match open(rt, rt.alloc(), LOG) {
        Ok(store) => store.bytes() == text,
        Err(_) => false,
    }
}

/// Whether the log, with its byte at this place turned and these bytes after it, opens as damaged.
fn damages(rt: &HostRuntime, place: usize) -> bool {
    let Ok(mut text) = fs::read(rt, LOG) else {
        return false;
    };
    if place >= text.len() {
        return false;
    }
    text[place] ^= 1;
    fs::write(rt, LOG, text.as_slice()).is_ok()
        && matches!(open(rt, rt.alloc(), LOG), Err(FileOpenError::Damaged))
}

/// Whether the log, cut off after N bytes, opens as damaged: its first block is not whole then.
fn cut_damages(rt: &HostRuntime, size: usize) -> bool {
    let Ok(mut text) = fs::read(rt, LOG) else {
        return false;
    };
    if size >= text.len() {
        return false;
    }
    text.truncate(size);
    fs::write(rt, LOG, text.as_slice()).is_ok()
        && matches!(open(rt, rt.alloc(), LOG), Err(FileOpenError::Damaged))
}

/// Whether a log of one block opens as damaged: with any part of that block turned, and cut off anywhere.
fn first_blocks_are_told(rt: &HostRuntime) -> bool {
    for place in [48, 60, 100, 120, 127] {
        if !damages(rt, place) || !damages_no_more(rt, place) {
            return false;
        }
    }
    true
}

/// Turns the byte at this place back.
fn damages_no_more(rt: &HostRuntime, place: usize) -> bool {
    let Ok(mut text) = fs::read(rt, LOG) else {
        return false;
    };
    if place >= text.len() {
        return false;
    }
    text[place] ^= 1;
    fs::write(rt, LOG, text.as_slice()).is_ok()
}

/// Whether the log with these bytes after its blocks opens as before.
fn passes_over(rt: &HostRuntime, more: &[u8], text: &[u8]) -> bool {
    let Ok(mut held) = fs::read(rt, LOG) else {
        return false;
    };
    held.extend_from_slice(more).is_ok()
        && fs::write(rt, LOG, held.as_slice()).is_ok()
        && holds(rt, text)
}

/// Says what does not hold of files, or that all does.
pub fn run(rt: &HostRuntime) -> &'static str {
    let _ = fs::remove_file(rt, LOG);
    if !matches!(open(rt, rt.alloc(), LOG), Err(FileOpenError::Missing)) {
        return "a log that is not there opens";
    }
    if !matches!(fill(rt), Ok(true)) {
        return "a log is not filled, or two have it";
    }
    if !matches!(create(rt, rt.alloc(), LOG), Err(FileOpenError::Exists)) {
        return "a log is made twice";
    }
    if !holds(rt, b"one, two") {
        return "it is not read";
    }
    if !passes_over(rt, &[0; 100], b"one, two") || !passes_over(rt, b"RSTARLOG", b"one, two") {
        return "a torn tail is not passed over";
    }
    if !matches!(fill_and_close(rt), Ok(true)) {
        return "a log is not closed";
    }
    if !damages(rt, 48 + 72 + 8 + 72 + 1) || !damages_no_more(rt, 48 + 72 + 8 + 72 + 1) {
        return "a last block that is broken is read, after an end in order";
    }
    if !holds(rt, b"one, two, three") {
        return "a closed log is not read";
    }
    if !first_blocks_are_told(rt) {
        return "a first block that is broken is read";
    }
    if !holds(rt, b"one, two, three") || !cut_damages(rt, 48) {
        return "a file without its first block is read";
    }
    if !damages(rt, 0) {
        return "a head that is none is read";
    }
    "as they must"
}
