//! What a log asks of the store that its bytes are in.

ghost use Rattle.std.specs.Prelude.{◌≡◌, ◌≤◌, ◌<◌, ◌+◌, List, ℕ, length, IfErr, OnOk};
ghost use Rattle.log_store.specs.Errors.{store_error_number};
ghost use Rattle.log_store.specs.Stores.{
  Appends,
  AppendBreaks,
  Crashes,
  ForceBreaks,
  Forces,
  MemoryRefuses,
  ReplaceBreaks,
  Replaces,
  SameStore,
};

use std::alloc::AllocError;
use thiserror::Error;

/// Why a store did not take what it was given.
#[derive(Clone, Copy, Debug, PartialEq, Eq, Error)]
pub enum StoreError {
    /// There was no memory for it; nothing changed.
    #[error("no memory")]
    Memory,
    /// The device failed, and `failures` rose, if it was not at its top; each call says what may stand then.
    #[error("the device failed")]
    Device,
}

impl StoreError {
    /// The number of the error, 1 or 2.
    pub fn number(self) -> u8
        ensures { result ≡ store_error_number self }
    {
        match self {
            StoreError::Memory => 1,
            StoreError::Device => 2,
        }
    }
}

/// Bytes in order, a front of which is forced: a crash cannot take it.
pub trait LogStore {
    /// What is in it.
    ghost bytes: { Self → List ℕ };

    /// How many of these bytes a crash cannot take.
    ghost forced: { Self → ℕ };

    /// How often the device has failed, counted up to 2^64 - 1.
    ghost failures: { Self → ℕ };

    /// No append and no replace that leaves at most N bytes is refused for memory.
    ghost room: { Self → ℕ };

    /// All that is in it.
    fn bytes(&self) -> &[u8]
        ensures { result.now ≡ bytes self.now };

    /// The length of the forced front.
    fn forced(&self) -> usize
        ensures { result ≡ forced self.now };

    /// How often the device has failed, counted up to 2^64 - 1.
    fn failures(&self) -> u64
        ensures { result ≡ failures self.now };

    /// Makes room for N bytes more than are in it. A refusal changes nothing.
    fn reserve(&mut self, more: usize) -> Result<(), AllocError>
        ensures stays { SameStore bytes forced failures self.old self.new }
        ensures grows { room self.old ≤ room self.new }
        ensures room { OnOk result (length (bytes self.old) + more ≤ room self.new) };

    /// Adds these bytes at the end. Where the device fails, any front of them is there.
    fn append(&mut self, more: &[u8]) -> Result<(), StoreError>
        ensures ok { OnOk result (Appends bytes forced failures self.old self.new more.now) }
        ensures room { room self.old ≤ room self.new }
        ensures memory { IfErr result (λ e. e ≡ StoreError.Memory
            → MemoryRefuses bytes forced failures self.old self.new (room self.old)
            (length (bytes self.old) + length more.now)) }
        ensures device { IfErr result (λ e. e ≡ StoreError.Device
            → AppendBreaks bytes forced failures self.old self.new more.now) };

    /// Forces all that stands. Where the device fails, the forced front ends anywhere between its old end
    /// and the end of the bytes. It takes no memory.
    fn force(&mut self) -> Result<(), StoreError>
        ensures ok { OnOk result (Forces bytes forced failures self.old self.new) }
        ensures room { room self.old ≤ room self.new }
        ensures err { IfErr result (λ e. (e ≡ StoreError.Device)
            × ForceBreaks bytes forced failures self.old self.new) };

    /// Puts these bytes, forced, in place of all that stands. Where the device fails, the old bytes stand
    /// with their forced front, or the new ones.
    fn replace(&mut self, new: &[u8]) -> Result<(), StoreError>
        ensures ok { OnOk result (Replaces bytes forced failures self.old self.new new.now) }
        ensures memory { IfErr result (λ e. e ≡ StoreError.Memory
            → MemoryRefuses bytes forced failures self.old self.new (room self.old) (length new.now)) }
        ensures device { IfErr result (λ e. e ≡ StoreError.Device
            → ReplaceBreaks bytes forced failures self.old self.new new.now) };

    /// What a crash leaves: the forced bytes and the first `keep` others (all, where there are fewer). It
    /// cannot fail, and the forced front stays where it was.
    fn crash(&mut self, keep: usize)
        ensures left { Crashes bytes forced failures self.old self.new keep }
        ensures room { room self.old ≤ room self.new };

    /// What is forced stands.
    ghost front: { (s : Self) → forced s ≤ length (bytes s) };
}
