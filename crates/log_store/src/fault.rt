//! A store whose device fails once, at a chosen call.

ghost use Rattle.std.specs.Prelude.{◌≡◌, ◌≤◌, ◌+◌, length, true, if◌then◌else◌, IfErr, OnOk};
ghost use Rattle.std.specs.Vec.{vec_capacity};
ghost use Rattle.log_store.specs.Stores.{Appends, AppendBreaks, ForceBreaks, Forces, MemoryRefuses, ReplaceBreaks, Replaces};

use crate::memory::MemoryStore;
use crate::store::{LogStore, StoreError};
use std::alloc::AllocError;

/// The calls at which the device of a store can fail.
#[derive(Clone, Copy, PartialEq, Eq)]
pub enum StoreCall {
    Append,
    Force,
    Replace,
}

/// A store in memory whose device fails once: at the nth call of one kind. Of what that call was to do the
/// first `keep` bytes are done: a failed append leaves these of its bytes, a failed force moves the forced
/// front by `keep`, and a failed replace leaves the old bytes where `keep` is 0, and else the new ones.
#[derive(Drop)]
pub struct FaultStore {
    store: MemoryStore,
    call: StoreCall,
    /// How many calls of the kind there are up to the one that fails; 0 if none is to fail any more.
    left: u64,
    keep: usize,
    failed: bool,
    ghost once: { failed ≡ true → left ≡ 0 },
}

impl FaultStore {
    ghost use Rattle.log_store.specs.Faults.{Fails, Passes, fault_bytes, fault_forced, fault_plan, is_next, no_failures, plans, same_call};
    ghost use Rattle.log_store.specs.Memory.{memory_bytes, memory_forced};

    /// The store, whose device fails at the `nth` call of this kind, counted from 1, and leaves the first
    /// `keep` bytes of it; where `nth` is 0 it does not fail. It takes no memory.
    pub fn new(store: MemoryStore, call: StoreCall, nth: u64, keep: usize) -> Self
        ensures text { fault_bytes result ≡ memory_bytes store }
        ensures forced { fault_forced result ≡ memory_forced store }
        ensures works { no_failures result ≡ true }
        ensures plan { fault_plan result ≡ plans call nth keep }
    {
        FaultStore {
            store,
            call,
            left: nth,
            keep,
            failed: false,
        }
    }

    /// Whether the next call of this kind fails.
    fn is_next(&self, call: StoreCall) -> bool
        ensures { result ≡ is_next self.now call }
    {
        self.left == 1 && self.is_counted(call)
    }

    /// Whether calls of this kind are counted.
    fn is_counted(&self, call: StoreCall) -> bool
        ensures { result ≡ same_call self.now.call call }
    {
        matches!(
            (self.call, call),
            (StoreCall::Append, StoreCall::Append)
                | (StoreCall::Force, StoreCall::Force)
                | (StoreCall::Replace, StoreCall::Replace)
        )
    }

    /// A call of this kind was made, and did not fail.
    fn pass(&mut self, call: StoreCall)
        ensures { Passes call self.old self.new }
    {
        if self.is_counted(call) {
            self.left = self.left.saturating_sub(1);
        }
    }

    /// The device failed.
    fn fail(&mut self)
        ensures { Fails self.old self.new }
    {
        self.left = 0;
        self.failed = true;
    }
}

impl LogStore for FaultStore {
    ghost use Rattle.log_store.specs.Faults.{AppendIsBroken, ForceIsBroken, IsPassed, IsUncounted, ReplaceIsBroken, fault_bytes, fault_failures, fault_forced};

    ghost bytes = { λ s. s.store.bytes.items };

    ghost forced = { λ s. s.store.forced };

    ghost failures = { λ s. if s.failed then 1 else 0 };

    ghost room = { λ s. vec_capacity s.store.bytes };

    ghost front = { λ s. s.store.within };

    fn bytes(&self) -> &[u8] {
        self.store.bytes()
    }

    fn forced(&self) -> usize {
        self.store.forced()
    }

    fn failures(&self) -> u64 {
        if self.failed { 1 } else { 0 }
    }

    fn reserve(&mut self, more: usize) -> Result<(), AllocError> {
        self.store.reserve(more)
    }

    fn append(&mut self, more: &[u8]) -> Result<(), StoreError>
        ensures ok { OnOk result (Appends fault_bytes fault_forced fault_failures self.old
            self.new more.now) }
        ensures room { vec_capacity self.old.store.bytes ≤ vec_capacity self.new.store.bytes }
        ensures memory { IfErr result (λ e. e ≡ StoreError.Memory
            → MemoryRefuses fault_bytes fault_forced fault_failures self.old self.new
            (vec_capacity self.old.store.bytes) (length (fault_bytes self.old) + length more.now)) }
        ensures device { IfErr result (λ e. e ≡ StoreError.Device
            → AppendBreaks fault_bytes fault_forced fault_failures self.old self.new more.now) }
        ensures passed { OnOk result (IsPassed StoreCall.Append self.old self.new) }
        ensures uncounted { IfErr result (λ e. e ≡ StoreError.Memory → IsUncounted self.old self.new) }
        ensures broken { IfErr result (λ e. e ≡ StoreError.Device
            → AppendIsBroken self.old self.new more.now) }
    {
        if self.is_next(StoreCall::Append) {
            let came = more.len().min(self.keep);
            self.store.append(&more[..came])?;
            self.fail();
            return Err(StoreError::Device);
        }
        self.store.append(more)?;
        self.pass(StoreCall::Append);
        Ok(())
    }

    fn force(&mut self) -> Result<(), StoreError>
        ensures ok { OnOk result (Forces fault_bytes fault_forced fault_failures self.old self.new) }
        ensures room { vec_capacity self.old.store.bytes ≤ vec_capacity self.new.store.bytes }
        ensures err { IfErr result (λ e. (e ≡ StoreError.Device)
            × ForceBreaks fault_bytes fault_forced fault_failures self.old self.new) }
        ensures passed { OnOk result (IsPassed StoreCall.Force self.old self.new) }
        ensures broken { IfErr result (λ e. ForceIsBroken self.old self.new) }
    {
        if self.is_next(StoreCall::Force) {
            self.store.force_more(self.keep);
            self.fail();
            return Err(StoreError::Device);
        }
        self.store.force()?;
        self.pass(StoreCall::Force);
        Ok(())
    }

    fn replace(&mut self, new: &[u8]) -> Result<(), StoreError>
        ensures ok { OnOk result (Replaces fault_bytes fault_forced fault_failures self.old
            self.new new.now) }
        ensures memory { IfErr result (λ e. e ≡ StoreError.Memory
            → MemoryRefuses fault_bytes fault_forced fault_failures self.old self.new
            (vec_capacity self.old.store.bytes) (length new.now)) }
        ensures device { IfErr result (λ e. e ≡ StoreError.Device
            → ReplaceBreaks fault_bytes fault_forced fault_failures self.old self.new new.now) }
        ensures passed { OnOk result (IsPassed StoreCall.Replace self.old self.new) }
        ensures uncounted { IfErr result (λ e. e ≡ StoreError.Memory → IsUncounted self.old self.new) }
        ensures broken { IfErr result (λ e. e ≡ StoreError.Device
            → ReplaceIsBroken self.old self.new new.now) }
    {
        if self.is_next(StoreCall::Replace) {
            if self.keep > 0 {
                self.store.replace(new)?;
            }
            self.fail();
            return Err(StoreError::Device);
        }
        self.store.replace(new)?;
        self.pass(StoreCall::Replace);
        Ok(())
    }

    fn crash(&mut self, keep: usize) {
        self.store.crash(keep);
    }
}
