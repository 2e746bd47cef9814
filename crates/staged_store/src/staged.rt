//! The store in memory.

ghost use Rattle.std.specs.Prelude.{◌≡◌, ◌≤◌, ◌+◌, length, take, IfErr, OnOk};
ghost use Rattle.std.specs.Vec.{vec_capacity};
ghost use Rattle.log_store.specs.Stores.{
  AppendBreaks,
  Appends,
  Crashes,
  ForceBreaks,
  Forces,
  MemoryRefuses,
  ReplaceBreaks,
  Replaces,
  SameStore,
};

use log_store::{LogStore, StoreError};
use std::alloc::AllocError;

/// A store in memory. What is forced in it is a promise: nobody may be told of a step that rests on it, until
/// another store was brought up to it.
pub struct StagedStore {
    bytes: Vec<u8>,
    forced: usize,
    /// How often other bytes took the place of all that stood.
    rewrites: u64,
    failures: u64,
    ghost within: { forced ≤ length bytes.items },
}

// For the proof: what is let go by hand is proved here alone, and not again by each crate above.
impl Drop for StagedStore {
    fn drop(self) {
        let StagedStore {
            bytes: _,
            forced: _,
            rewrites: _,
            failures: _,
        } = self;
    }
}

impl StagedStore {
    ghost use Rattle.staged_store.specs.Staged.{
      promised as promised_in,
      staged_bytes,
      staged_failures,
      staged_forced,
      staged_rewrites,
    };

    /// A store in which these bytes stand, all of them promised. It takes no memory.
    pub fn from_bytes(bytes: Vec<u8>) -> Self
        ensures text { staged_bytes result ≡ bytes.items }
        ensures forced { staged_forced result ≡ length bytes.items }
        ensures rewrites { staged_rewrites result ≡ 0 }
        ensures failures { staged_failures result ≡ 0 }
    {
        let forced = bytes.len();
        StagedStore {
            bytes,
            forced,
            rewrites: 0,
            failures: 0,
        }
    }

    /// What it promised: the forced front of its bytes.
    pub fn promised(&self) -> &[u8]
        ensures { result.now ≡ promised_in self.now }
    {
        let (promised, _) = self.bytes.split_at(self.forced);
        promised
    }

    /// How often other bytes took the place of all that stood.
    pub fn rewrites(&self) -> u64
        ensures { result ≡ staged_rewrites self.now }
    {
        self.rewrites
    }
}

impl LogStore for StagedStore {
    ghost use Rattle.staged_store.specs.Staged.{
      Continues,
      staged_bytes as text_of,
      staged_failures as failures_of,
      staged_forced as forced_of,
    };

    ghost bytes = { λ s. s.bytes.items };

    ghost forced = { λ s. s.forced };

    ghost failures = { λ s. s.failures };

    ghost room = { λ s. vec_capacity s.bytes };

    ghost front = { λ s. s.within };

    fn bytes(&self) -> &[u8] {
        &self.bytes
    }

    fn forced(&self) -> usize {
        self.forced
    }

    fn failures(&self) -> u64 {
        self.failures
    }

    fn reserve(&mut self, more: usize) -> Result<(), AllocError>
        ensures stays { SameStore text_of forced_of failures_of self.old self.new }
        ensures grows { vec_capacity self.old.bytes ≤ vec_capacity self.new.bytes }
        ensures room { OnOk result (length (text_of self.old) + more ≤ vec_capacity self.new.bytes) }
        ensures continues { Continues self.old self.new }
    {
        self.bytes.reserve(more)
    }

    fn append(&mut self, more: &[u8]) -> Result<(), StoreError>
        ensures ok { OnOk result (Appends text_of forced_of failures_of self.old self.new more.now) }
        ensures room { vec_capacity self.old.bytes ≤ vec_capacity self.new.bytes }
        ensures memory { IfErr result (λ e. e ≡ StoreError.Memory
            → MemoryRefuses text_of forced_of failures_of self.old self.new (vec_capacity self.old.bytes)
            (length (text_of self.old) + length more.now)) }
        ensures device { IfErr result (λ e. e ≡ StoreError.Device
            → AppendBreaks text_of forced_of failures_of self.old self.new more.now) }
        ensures continues { Continues self.old self.new }
    {
        match self.bytes.extend_from_slice(more) {
            Ok(()) => Ok(()),
            Err(_) => Err(StoreError::Memory),
        }
    }

    /// All that stands is promised.
    fn force(&mut self) -> Result<(), StoreError>
        ensures ok { OnOk result (Forces text_of forced_of failures_of self.old self.new) }
        ensures room { vec_capacity self.old.bytes ≤ vec_capacity self.new.bytes }
        ensures err { IfErr result (λ e. (e ≡ StoreError.Device)
            × ForceBreaks text_of forced_of failures_of self.old self.new) }
        ensures continues { Continues self.old self.new }
    {
        self.forced = self.bytes.len();
        Ok(())
    }

    /// Device: it was replaced 2^64 - 1 times.
    fn replace(&mut self, new: &[u8]) -> Result<(), StoreError>
        ensures ok { OnOk result (Replaces text_of forced_of failures_of self.old self.new new.now) }
        ensures memory { IfErr result (λ e. e ≡ StoreError.Memory
            → MemoryRefuses text_of forced_of failures_of self.old self.new (vec_capacity self.old.bytes)
            (length new.now)) }
        ensures device { IfErr result (λ e. e ≡ StoreError.Device
            → ReplaceBreaks text_of forced_of failures_of self.old self.new new.now) }
        ensures continues { Continues self.old self.new }
    {
        let Some(rewrites) = self.rewrites.checked_add(1) else {
            self.failures = self.failures.saturating_add(1);
            return Err(StoreError::Device);
        };
        let more = new.len().saturating_sub(self.bytes.len());
        if let Err(_) = self.bytes.reserve(more) {
            return Err(StoreError::Memory);
        }
        self.forced = 0;
        self.bytes.clear();
        match self.bytes.extend_from_slice(new) {
            Ok(()) => {
                self.forced = self.bytes.len();
                self.rewrites = rewrites;
                Ok(())
            }
            Err(_) => Err(StoreError::Memory),
        }
    }

    fn crash(&mut self, keep: usize)
        ensures left { Crashes text_of forced_of failures_of self.old self.new keep }
        ensures room { vec_capacity self.old.bytes ≤ vec_capacity self.new.bytes }
        ensures continues { Continues self.old self.new }
    {
        self.bytes.truncate(self.forced.saturating_add(keep));
    }
}
