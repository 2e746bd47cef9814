//! A key store with a log, as a resource manager that a process drives.

use crate::manager::KvManager;
use log_store::LogStore;
use protocol::{LogRecord, Op, Outcome};
use resource_manager::{DecideError, ResourceManager, RestartError, TrimError};
use std::alloc::AllocError;
use xa_assoc::WorkError;
use xa_branch::Decision;
use xa_codes::{Code, Flags};
use xa_tables::BranchState;
use xa_xid::Xid;

impl<L: LogStore> ResourceManager for KvManager<L> {
    ghost use Rattle.kv_manager.specs.Resources.{sight_of};

    ghost sight = { λ m. sight_of m };

    fn boot(&self) -> u64 {
        KvManager::boot(self)
    }

    fn failed(&self) -> bool {
        KvManager::failed(self)
    }

    fn state(&self, xid: &Xid) -> BranchState {
        KvManager::state(self, xid)
    }

    fn decision(&self, xid: &Xid) -> Option<Decision> {
        KvManager::decision(self, xid)
    }

    fn open(&mut self, flags: Flags, migrates: bool) -> Code {
        KvManager::open(self, flags, migrates)
    }

    fn close(&mut self, flags: Flags) -> Code {
        KvManager::close(self, flags)
    }

    fn start(&mut self, thread: u32, xid: &Xid, flags: Flags) -> Result<Code, AllocError> {
        KvManager::start(self, thread, xid, flags)
    }

    fn end(&mut self, thread: u32, xid: &Xid, flags: Flags) -> Result<Code, AllocError> {
        KvManager::end(self, thread, xid, flags)
    }

    fn begin_idle(&mut self, xid: &Xid) -> Result<bool, AllocError> {
        KvManager::begin_idle(self, xid)
    }

    fn work_idle(&mut self, xid: &Xid, op: &Op) -> Result<bool, AllocError> {
        KvManager::work_idle(self, xid, op)
    }

    fn prepare(&mut self, thread: u32, xid: &Xid, flags: Flags) -> Result<Code, AllocError> {
        KvManager::prepare(self, thread, xid, flags)
    }

    fn commit(&mut self, thread: u32, xid: &Xid, flags: Flags) -> Result<Code, AllocError> {
        KvManager::commit(self, thread, xid, flags)
    }

    fn rollback(&mut self, thread: u32, xid: &Xid, flags: Flags) -> Result<Code, AllocError> {
        KvManager::rollback(self, thread, xid, flags)
    }

    fn forget(&mut self, thread: u32, xid: &Xid, flags: Flags) -> Result<Code, AllocError> {
        KvManager::forget(self, thread, xid, flags)
    }

    fn decide(&mut self, xid: &Xid, outcome: Outcome) -> Result<(), DecideError> {
        KvManager::decide(self, xid, outcome)
    }

    fn recover(
        &mut self,
        thread: u32,
        count: u32,
        flags: Flags,
    ) -> Result<Result<Vec<Xid>, Code>, AllocError> {
        KvManager::recover(self, thread, count, flags)
    }

    fn work(&mut self, thread: u32, op: &Op) -> Result<(), WorkError> {
        match op {
            Op::Put(key, value) => self.put(thread, key.as_slice(), value.as_slice()),
            Op::Delete(key) => self.delete(thread, key.as_slice()),
            Op::Get(key) => {
                let _value = self.get(thread, key.as_slice())?;
                Ok(())
            }
        }
    }

    fn left(&self, keep: usize) -> Result<Vec<LogRecord>, AllocError> {
        KvManager::left(self, keep)
    }

    fn log_size(&self) -> usize {
        self.log.log().size()
    }

    fn kept_after(&self, size: usize, keep: usize) -> Result<Vec<LogRecord>, AllocError> {
        KvManager::kept_after(self, size, keep)
    }

    fn records_are_sound(&self) {
        KvManager::records_are_sound(self);
    }

    fn records_are_in_order(&self) {
        KvManager::records_are_in_order(self);
    }

    fn branches_are_listed_once(&self) {
        KvManager::branches_are_listed_once(self);
    }

    fn restart(&mut self, keep: usize) -> Result<(), RestartError> {
        let _in_doubt = KvManager::restart(self, keep)?;
        Ok(())
    }

    fn trim(&mut self) -> Result<usize, TrimError> {
        KvManager::trim(self)
    }
}
