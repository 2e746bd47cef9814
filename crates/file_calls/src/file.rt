//! A log's file whose calls somebody else makes, before anybody is told of what rests on them.

use crate::call::FileCall;
use crate::calls::Calls;
use log_file::LogFile;
use std::alloc::{AllocError, Global};
use std::io::{self, ErrorKind};

/// A log's file whose calls are left to somebody else. Each method answers Ok if it has asked for its call,
/// and Err only if there is no memory to ask for it.
pub struct CalledFile {
    alloc: Global,
    calls: Calls,
}

// For the proof: what is let go by hand is proved here alone, and not again by each crate above.
impl Drop for CalledFile {
    fn drop(self) {
        let CalledFile { alloc: _, calls: _ } = self;
    }
}

/// What is said if there is no memory.
fn no_memory() -> io::Error {
    io::Error::from(ErrorKind::OutOfMemory)
}

/// These bytes, one after the other.
fn joined(alloc: Global, head: &[u8], more: &[u8]) -> Result<Vec<u8>, AllocError> {
    let mut bytes = Vec::with_capacity(alloc, head.len().saturating_add(more.len()))?;
    bytes.extend_from_slice(head)?;
    bytes.extend_from_slice(more)?;
    Ok(bytes)
}

impl CalledFile {
    /// A file whose calls these are.
    pub fn new(alloc: Global, calls: Calls) -> CalledFile {
        CalledFile { alloc, calls }
    }

    /// Asks for a call.
    fn ask(&self, call: FileCall) -> io::Result<()> {
        match self.calls.ask(call) {
            Ok(()) => Ok(()),
            Err(_) => Err(no_memory()),
        }
    }
}

impl LogFile for CalledFile {
    fn write(&mut self, place: u64, head: &[u8], more: &[u8]) -> io::Result<()> {
        match joined(self.alloc, head, more) {
            Ok(bytes) => self.ask(FileCall::Write(place, bytes)),
            Err(_) => Err(no_memory()),
        }
    }

    fn sync(&mut self) -> io::Result<()> {
        self.ask(FileCall::Sync)
    }

    fn replace(&mut self, head: &[u8], more: &[u8]) -> io::Result<()> {
        match joined(self.alloc, head, more) {
            Ok(bytes) => self.ask(FileCall::Replace(bytes)),
            Err(_) => Err(no_memory()),
        }
    }
}
