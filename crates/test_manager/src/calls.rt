//! The calls of a manager that refuses some branches.

use crate::manager::RefusingManager;
use protocol::{LogRecord, Op, Outcome};
use resource_manager::{
    DecideError, Decision, ResourceManager, RestartError, TrimError, WorkError,
};
use std::alloc::AllocError;
use xa_codes::{Code, Flags};
use xa_tables::BranchState;
use xa_xid::Xid;

impl<M: ResourceManager> ResourceManager for RefusingManager<M> {
    ghost use Rattle.test_manager.specs.Sights.{limited};

    ghost sight = { λ m. limited (M.sight m.manager) };

    fn boot(&self) -> u64 {
        self.manager.boot()
    }

    fn failed(&self) -> bool {
        self.manager.failed()
    }

    fn state(&self, xid: &Xid) -> BranchState {
        self.manager.state(xid)
    }

    fn decision(&self, xid: &Xid) -> Option<Decision> {
        self.manager.decision(xid)
    }

    fn open(&mut self, flags: Flags, migrates: bool) -> Code {
        self.manager.open(flags, migrates)
    }

    fn close(&mut self, flags: Flags) -> Code {
        self.manager.close(flags)
    }

    fn start(&mut self, thread: u32, xid: &Xid, flags: Flags) -> Result<Code, AllocError> {
        self.manager.start(thread, xid, flags)
    }

    fn end(&mut self, thread: u32, xid: &Xid, flags: Flags) -> Result<Code, AllocError> {
        self.manager.end(thread, xid, flags)
    }

    fn begin_idle(&mut self, xid: &Xid) -> Result<bool, AllocError> {
        self.manager.begin_idle(xid)
    }

    fn work_idle(&mut self, xid: &Xid, op: &Op) -> Result<bool, AllocError> {
        self.manager.work_idle(xid, op)
    }

    fn prepare(&mut self, thread: u32, xid: &Xid, flags: Flags) -> Result<Code, AllocError> {
        self.prepare_told(thread, xid, flags)
    }

    fn commit(&mut self, thread: u32, xid: &Xid, flags: Flags) -> Result<Code, AllocError> {
        self.manager.commit(thread, xid, flags)
    }

    fn rollback(&mut self, thread: u32, xid: &Xid, flags: Flags) -> Result<Code, AllocError> {
        self.manager.rollback(thread, xid, flags)
    }

    fn forget(&mut self, thread: u32, xid: &Xid, flags: Flags) -> Result<Code, AllocError> {
        self.manager.forget(thread, xid, flags)
    }

    fn decide(&mut self, xid: &Xid, outcome: Outcome) -> Result<(), DecideError> {
        self.manager.decide(xid, outcome)
    }

    fn recover(
        &mut self,
        thread: u32,
        count: u32,
        flags: Flags,
    ) -> Result<Result<Vec<Xid>, Code>, AllocError> {
        self.manager.recover(thread, count, flags)
    }

    fn work(&mut self, thread: u32, op: &Op) -> Result<(), WorkError> {
        self.manager.work(thread, op)
    }

    fn left(&self, keep: usize) -> Result<Vec<LogRecord>, AllocError> {
        self.manager.left(keep)
    }

    fn log_size(&self) -> usize {
        self.manager.log_size()
    }

    fn kept_after(&self, size: usize, keep: usize) -> Result<Vec<LogRecord>, AllocError> {
        self.manager.kept_after(size, keep)
    }

    fn records_are_sound(&self) {
        self.manager.records_are_sound();
    }

    fn records_are_in_order(&self) {
        self.manager.records_are_in_order();
    }

    fn branches_are_listed_once(&self) {
        self.manager.branches_are_listed_once();
    }

    fn restart(&mut self, keep: usize) -> Result<(), RestartError> {
        self.manager.restart(keep)
    }

    fn trim(&mut self) -> Result<usize, TrimError> {
        self.manager.trim()
    }
}
