//! What each failure, and each cut of power after it, leaves of a file.

use crate::fake::FakeFile;
use file_blocks::read_file;
use log_file::FileStore;
use log_store::LogStore;
use std::alloc::{AllocError, Global};

/// A call of a store.
#[derive(Clone, Copy)]
enum Call {
    Append(&'static [u8]),
    Force,
    Replace(&'static [u8]),
    Close,
}

const CALLS: [Call; 10] = [
    Call::Append(b"the first"),
    Call::Force,
    Call::Append(b"the second, "),
    Call::Append(b"and the third"),
    Call::Force,
    Call::Replace(b"all of these"),
    Call::Append(b"the last"),
    Call::Force,
    Call::Force,
    Call::Close,
];

/// What a store held when it was last safe, and what it was to hold next.
#[derive(Drop)]
struct Safe {
    last: Vec<u8>,
    next: Vec<u8>,
}

/// Makes the calls up to one that fails, and notes what was safe.
fn make(
    alloc: Global,
    store: &mut FileStore<FakeFile>,
    safe: &mut Safe,
) -> Result<bool, AllocError> {
    for call in CALLS {
        let made = match call {
            Call::Append(more) => store.append(more),
            Call::Force => {
                safe.next = Vec::from_slice(alloc, store.bytes())?;
                store.force()
            }
            Call::Replace(new) => {
                safe.next = Vec::from_slice(alloc, new)?;
                store.replace(new)
            }
            Call::Close => {
                safe.next = Vec::from_slice(alloc, store.bytes())?;
                store.close()
            }
        };
        if made.is_err() {
            return Ok(false);
        }
        if !matches!(call, Call::Append(_)) {
            safe.last = Vec::from_slice(alloc, store.bytes())?;
        }
    }
    Ok(true)
}

/// Whether a file of these bytes reads as what was safe, or as what was to be.
fn reads(alloc: Global, text: &[u8], safe: &Safe) -> bool {
    match read_file(alloc, text) {
        Ok(found) => {
            found.bytes.as_slice() == safe.last.as_slice()
                || found.bytes.as_slice() == safe.next.as_slice()
        }
        Err(_) => false,
    }
}

/// What is after a front that is left, where anything does.
const BEHIND: [u8; 2] = [0, 165];

/// Whether a front of the file reads so, with nothing after it, with zeros, and with other bytes.
fn front_reads(alloc: Global, held: &[u8], keep: usize, safe: &Safe) -> Result<bool, AllocError> {
    let keep = keep.min(held.len());
    let mut text = Vec::from_slice(alloc, &held[..keep])?;
    if !reads(alloc, &text, safe) {
        return Ok(false);
    }
    for byte in BEHIND {
        text.truncate(keep);
        for _ in keep..held.len() {
            text.push(byte)?;
        }
        if !reads(alloc, &text, safe) {
            return Ok(false);
        }
    }
    Ok(true)
}

/// How many ends read so: of what is not safe each front is left, byte by byte.
fn ends(alloc: Global, file: &FakeFile, safe: &Safe) -> Result<Option<u64>, AllocError> {
    let mut count = 0u64;
    let held = file.held.as_slice();
    for keep in file.safe..held.len().saturating_add(1) {
        if !front_reads(alloc, held, keep, safe)? {
            return Ok(None);
        }
        count = count.saturating_add(3);
    }
    Ok(Some(count))
}

/// A store over a file: after `calls` calls the next `failing` fail. None: the first one failed.
fn opened(alloc: Global, calls: u64, failing: u64, part: usize) -> Option<FileStore<FakeFile>> {
    let file = FakeFile {
        held: Vec::new(alloc),
        safe: 0,
        calls,
        failing,
        part,
    };
    FileStore::settle(file, 0, Vec::new(alloc)).ok()
}

/// A store over a file whose calls fail after N, and what is then left. None: it does not read so.
fn fault(alloc: Global, calls: u64, part: usize) -> Result<Option<u64>, AllocError> {
    let Some(mut store) = opened(alloc, calls, u64::MAX, part) else {
        return Ok(if calls == 0 { Some(1) } else { None });
    };
    let mut safe = Safe {
        last: Vec::new(alloc),
        next: Vec::new(alloc),
    };
    let all = make(alloc, &mut store, &mut safe)?;
    if store.failures() != if all { 0 } else { 1 } {
        return Ok(None);
    }
    let file = store.into_file();
    ends(alloc, &file, &safe)
}

/// Whether a store of which one call of the device fails goes on: what stands and what is appended is in the
/// file after the next force, all of it safe.
fn goes_on(alloc: Global, calls: u64, part: usize) -> Result<bool, AllocError> {
    let Some(mut store) = opened(alloc, calls, 1, part) else {
        return Ok(calls == 0);
    };
    let mut safe = Safe {
        last: Vec::new(alloc),
        next: Vec::new(alloc),
    };
    if make(alloc, &mut store, &mut safe)? {
        return Ok(true);
    }
    let taken = store.append(b"more").is_ok() && store.force().is_ok();
    let held = Vec::from_slice(alloc, store.bytes())?;
    let file = store.into_file();
    let reads = match read_file(alloc, &file.held) {
        Ok(found) => found.bytes.as_slice() == held.as_slice(),
        Err(_) => false,
    };
    Ok(taken && reads && file.safe == file.held.len())
}

/// How many ends of files read as they must; None, if one does not.
pub fn run(alloc: Global) -> Option<u64> {
    let mut count = 0u64;
    for calls in 0..11 {
        for part in [0, 1, 71, 72, 73, 80] {
            match fault(alloc, calls, part) {
                Ok(Some(found)) => count = count.saturating_add(found),
                _ => return None,
            }
            if !matches!(goes_on(alloc, calls, part), Ok(true)) {
                return None;
            }
        }
    }
    Some(count)
}
