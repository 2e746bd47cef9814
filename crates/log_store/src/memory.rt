//! A store in memory, whose device never fails.

ghost use Rattle.std.specs.Prelude.{◌≡◌, ◌≤◌, ◌+◌, length, min, []};
ghost use Rattle.std.specs.Vec.{vec_capacity};

use crate::store::{LogStore, StoreError};
use std::alloc::{AllocError, Global};

/// A store in memory: its device never fails.
#[derive(Drop)]
pub struct MemoryStore {
    bytes: Vec<u8>,
    forced: usize,
    ghost within: { forced ≤ length bytes.items },
}

impl MemoryStore {
    ghost use Rattle.log_store.specs.Memory.{memory_bytes, memory_forced};

    /// A store without bytes. It takes no memory.
    pub fn new(alloc: Global) -> Self
        ensures empty { memory_bytes result ≡ [] }
        ensures unforced { memory_forced result ≡ 0 }
    {
        MemoryStore {
            bytes: Vec::new(alloc),
            forced: 0,
        }
    }

    /// A store in which these bytes stand, all of them forced. It takes no memory.
    pub fn from_bytes(bytes: Vec<u8>) -> Self
        ensures text { memory_bytes result ≡ bytes.items }
        ensures forced { memory_forced result ≡ length bytes.items }
    {
        let forced = bytes.len();
        MemoryStore { bytes, forced }
    }

    /// Forces N bytes more, at most all that stand. It takes no memory.
    pub(crate) fn force_more(&mut self, more: usize)
        ensures text { memory_bytes self.new ≡ memory_bytes self.old }
        ensures front { memory_forced self.new ≡ min (memory_forced self.old + more)
            (length (memory_bytes self.old)) }
        ensures room { vec_capacity self.new.bytes ≡ vec_capacity self.old.bytes }
    {
        self.forced = self.forced.saturating_add(more).min(self.bytes.len());
    }
}

impl LogStore for MemoryStore {
    ghost bytes = { λ s. s.bytes.items };

    ghost forced = { λ s. s.forced };

    ghost failures = { λ s. 0 };

    ghost room = { λ s. vec_capacity s.bytes };

    ghost front = { λ s. s.within };

    fn bytes(&self) -> &[u8] {
        &self.bytes
    }

    fn forced(&self) -> usize {
        self.forced
    }

    fn failures(&self) -> u64 {
        0
    }

    fn reserve(&mut self, more: usize) -> Result<(), AllocError> {
        self.bytes.reserve(more)
    }

    fn append(&mut self, more: &[u8]) -> Result<(), StoreError> {
        match self.bytes.extend_from_slice(more) {
            Ok(()) => Ok(()),
            Err(_) => Err(StoreError::Memory),
        }
    }

    fn force(&mut self) -> Result<(), StoreError> {
        self.forced = self.bytes.len();
        Ok(())
    }

    fn replace(&mut self, new: &[u8]) -> Result<(), StoreError> {
        let more = new.len().saturating_sub(self.bytes.len());
        if let Err(_) = self.bytes.reserve(more) {
            return Err(StoreError::Memory);
        }
        self.forced = 0;
        self.bytes.clear();
        match self.bytes.extend_from_slice(new) {
            Ok(()) => {
                self.forced = self.bytes.len();
                Ok(())
            }
            Err(_) => Err(StoreError::Memory),
        }
    }

    fn crash(&mut self, keep: usize) {
        self.bytes.truncate(self.forced.saturating_add(keep));
    }
}
