//! Each thread's associations, and those that belong to nobody.

ghost use Rattle.std.specs.Prelude.{◌≡◌, ◌≢◌, ◌≤◌, ◌<◌, ◌+◌, ◌^◌, ◌↔◌, IsTrue, [], IfOk, OnOk, OnErr, IsOk, Some, None, is_some, true, false, option_map, ◌||◌};
ghost use Rattle.xa_assoc.specs.Associations.{AssocList, active_of, has_seat, own_state, moved_of, AssocMoves, Turns, Settles, Recounts, has_some, is_holder, is_active, has_room, AssocSteps, start_plan, resume_plan, moved_plan, suspend_plan, end_plan, has_active, has_suspended, IsBare, IsAssocList};

use crate::held::{OfBranch, Suspended};
use crate::seats::{Seats, count, recount};
use indexmap::IndexMap;
use std::alloc::{AllocError, Global};
use std::marker::Model;
use xa_codes::Code;
use xa_tables::AssocState;
use xa_xid::Xid;

/// The most threads that hold associations at a time.
const THREADS: usize = 256;

/// The associations of all threads.
#[derive(Drop)]
pub struct Associations {
    active: IndexMap<u32, Option<Xid>>,
    suspended: Seats,
    migrated: IndexMap<Xid, u64>,
    migrates: bool,
}

impl Model for Associations {
    ghost use Rattle.xa_assoc.specs.Associations.{AssocList, IsSound};

    ghost Value = { AssocList };

    ghost view = { λ a. record {
      holders = a.active.entries;
      seats = a.suspended;
      moved = a.migrated.entries;
      migrates = a.migrates;
    } };

    ghost invariant = { λ a. IsSound (record {
      holders = a.active.entries;
      seats = a.suspended;
      moved = a.migrated.entries;
      migrates = a.migrates;
    }) };
}

impl Associations {
    /// No associations, of a manager that migrates them or not.
    pub fn new(alloc: Global, migrates: bool) -> Self
        ensures holders { result.holders ≡ [] }
        ensures seats { result.seats ≡ [] }
        ensures moved { result.moved ≡ [] }
        ensures migrates { result.migrates ≡ migrates }
    {
        Associations {
            active: IndexMap::new(alloc),
            suspended: Seats::new(alloc),
            migrated: IndexMap::new(alloc),
            migrates,
        }
    }

    /// Each thread that holds associations is listed once, and a branch as suspended for migration only if it
    /// is.
    pub fn are_listed_once(&self)
        ensures { IsAssocList self.now }
    {
        let _ = self.active.len();
    }

    /// The branch that a thread is active in.
    pub fn active(&self, thread: u32) -> Option<Xid>
        ensures { result ≡ active_of self.now thread }
    {
        self.active.get(&thread).copied().flatten()
    }

    /// The state of a thread's own association with a branch: T0, T1 or T2.
    pub fn state(&self, thread: u32, xid: &Xid) -> AssocState
        ensures { result ≡ own_state self.now thread xid.now }
    {
        if self.is_active(thread, xid) {
            AssocState::T1
        } else if self.has_seat(thread, xid) {
            AssocState::T2
        } else {
            AssocState::T0
        }
    }

    /// How often a branch is suspended for migration.
    fn migrations(&self, xid: &Xid) -> u64
        ensures { result ≡ moved_of self.now xid.now }
    {
        if self.migrated.is_empty() {
            return 0;
        }
        count(&self.migrated, xid)
    }

    /// Whether a thread holds any association.
    pub fn holds(&self, thread: u32) -> bool
        ensures { result ≡ is_holder self.now thread }
    {
        self.active.contains_key(&thread)
    }

    /// Whether a thread is active in any branch.
    fn is_at_work(&self, thread: u32) -> bool
        ensures { result ≡ is_some (active_of self.now thread) }
    {
        matches!(self.active.get(&thread), Some(Some(_)))
    }

    /// Whether a thread has suspended any branch.
    fn has_suspended(&self, thread: u32) -> bool
        ensures { result ≡ has_some self.now.seats thread }
    {
        self.suspended.has_thread(thread)
    }

    /// Whether a thread may hold one association more.
    fn has_room(&self, thread: u32) -> bool
        ensures { result ≡ has_room self.now thread }
    {
        self.active.len() < THREADS || self.holds(thread)
    }

    /// Whether a thread may not start in a branch: it is active in one, or has suspended this one.
    pub fn is_busy(&self, thread: u32, xid: &Xid) -> bool
        ensures { result ≡ (is_some (active_of self.now thread) || has_seat self.now thread xid.now) }
    {
        self.is_at_work(thread) || self.has_seat(thread, xid)
    }

    /// A start without TMRESUME. Proto: the thread is active in a branch, or has suspended this one. RmErr:
    /// it holds nothing and 256 threads hold associations. Either changes nothing.
    pub fn start(&mut self, thread: u32, xid: &Xid) -> Result<Code, AllocError>
        ensures answer { IfOk result (AssocSteps self.old self.new thread xid.now
            (start_plan self.old thread xid.now)) }
        ensures err { OnErr result (self.new ≡ self.old) }
    {
        if self.is_busy(thread, xid) {
            return Ok(Code::Proto);
        }
        if !self.has_room(thread) {
            return Ok(Code::RmErr);
        }
        self.enter(thread, xid)?;
        Ok(Code::Ok)
    }

    /// A start TMRESUME of a branch that is lost (in S4) or not: the thread's own suspended association,
    /// else the oldest migrated one of the branch. A lost one goes, and the answer is RbRollback. Proto: the
    /// thread is active in a branch, or there is none to resume. RmErr: it holds nothing and 256 threads
    /// hold associations. The last two change nothing.
    pub fn resume(&mut self, thread: u32, xid: &Xid, lost: bool) -> Result<Code, AllocError>
        ensures answer { IfOk result (AssocSteps self.old self.new thread xid.now
            (resume_plan self.old thread xid.now lost)) }
        ensures err { OnErr result (self.new ≡ self.old) }
    {
        if self.is_at_work(thread) {
            return Ok(Code::Proto);
        }
        if !self.has_seat(thread, xid) {
            return self.resume_migrated(thread, xid, lost);
        }
        if lost {
            self.give_up(thread, xid);
            return Ok(Code::RbRollback);
        }
        self.take_up(thread, xid);
        Ok(Code::Ok)
    }

    fn resume_migrated(&mut self, thread: u32, xid: &Xid, lost: bool) -> Result<Code, AllocError>
        requires free { active_of self.old thread ≡ None }
        requires own { has_seat self.old thread xid.now ≡ false }
        ensures answer { IfOk result (AssocSteps self.old self.new thread xid.now
            (moved_plan self.old thread xid.now lost)) }
        ensures err { OnErr result (self.new ≡ self.old) }
    {
        if self.migrations(xid) == 0 {
            return Ok(Code::Proto);
        }
        if lost {
            self.discard(thread, xid);
            return Ok(Code::RbRollback);
        }
        if !self.has_room(thread) {
            return Ok(Code::RmErr);
        }
        self.pick_up(thread, xid)?;
        Ok(Code::Ok)
    }

    /// An end TMSUSPEND, with TMMIGRATE or not, of a branch that is lost (in S4) or not. A lost association
    /// goes, and the answer is RbRollback. NoMigrate: the manager does not migrate, and the thread alone may
    /// resume. Proto: the thread is not active in the branch. RmErr: it is suspended for migration 2^64 - 1
    /// times. The last two change nothing.
    pub fn suspend(
        &mut self,
        thread: u32,
        xid: &Xid,
        lost: bool,
        migrate: bool,
    ) -> Result<Code, AllocError>
        ensures answer { IfOk result (AssocSteps self.old self.new thread xid.now
            (suspend_plan self.old thread xid.now lost migrate)) }
        ensures err { OnErr result (self.new ≡ self.old) }
    {
        if !self.is_active(thread, xid) {
            return Ok(Code::Proto);
        }
        if lost {
            self.leave(thread, xid);
            return Ok(Code::RbRollback);
        }
        if !migrate {
            self.set_aside(thread, xid)?;
            return Ok(Code::Ok);
        }
        if !self.migrates {
            self.set_aside(thread, xid)?;
            return Ok(Code::NoMigrate);
        }
        if self.migrations(xid) == u64::MAX {
            return Ok(Code::RmErr);
        }
        self.set_out(thread, xid)?;
        Ok(Code::Ok)
    }

    /// An end TMSUCCESS, or else TMFAIL, of a branch that is lost (in S4) or not. RbRollback: it is lost, or
    /// the work failed. Proto: the thread holds no association with the branch, and nothing changes.
    pub fn end(&mut self, thread: u32, xid: &Xid, lost: bool, succeeds: bool) -> Code
        ensures { AssocSteps self.old self.new thread xid.now
            (end_plan self.old thread xid.now lost succeeds) result }
    {
        if self.is_active(thread, xid) {
            self.leave(thread, xid);
        } else if self.has_seat(thread, xid) {
            self.give_up(thread, xid);
        } else {
            return Code::Proto;
        }
        if succeeds && !lost {
            Code::Ok
        } else {
            Code::RbRollback
        }
    }

    /// Whether a thread is active in a branch.
    fn is_active(&self, thread: u32, xid: &Xid) -> bool
        ensures { result ≡ is_active self.now thread xid.now }
    {
        match self.active.get(&thread) {
            Some(Some(own)) => own == xid,
            _ => false,
        }
    }

    /// Whether a thread has suspended a branch.
    fn has_seat(&self, thread: u32, xid: &Xid) -> bool
        ensures { result ≡ has_seat self.now thread xid.now }
    {
        self.suspended.contains(thread, xid)
    }

    /// How a branch is held by any thread, or by none.
    pub fn of_branch(&self, xid: &Xid) -> OfBranch
        ensures active { result.active ≡ has_active self.now xid.now }
        ensures suspended { result.suspended ≡ has_suspended self.now xid.now }
        ensures migrated { IsTrue result.migrated ↔ (0 < moved_of self.now xid.now) }
    {
        OfBranch {
            active: self.is_active_in(xid),
            suspended: self.is_suspended(xid),
            migrated: self.migrations(xid) > 0,
        }
    }

    fn is_active_in(&self, xid: &Xid) -> bool
        ensures { result ≡ has_active self.now xid.now }
    {
        self.active.iter().any(|(_, active)| *active == Some(*xid))
    }

    fn is_suspended(&self, xid: &Xid) -> bool
        ensures { result ≡ has_suspended self.now xid.now }
    {
        self.suspended.has_branch(xid)
    }

    /// Whether there are no associations at all.
    pub fn is_empty(&self) -> bool
        ensures { IsTrue result ↔ IsBare self.now }
    {
        self.active.is_empty() && self.migrated.is_empty()
    }

    /// Ends all associations, as a restart does, and says whether migration is allowed from now on.
    pub fn reset(&mut self, migrates: bool)
        ensures bare { IsBare self.new }
        ensures seats { self.new.seats ≡ [] }
        ensures migrates { self.new.migrates ≡ migrates }
    {
        self.active.clear();
        self.suspended.clear();
        self.migrated.clear();
        self.migrates = migrates;
    }

    /// Lists a thread no longer where it holds nothing.
    fn settle(&mut self, thread: u32)
        requires listed { is_holder self.old thread ≡ true }
        ensures { Settles self.old self.new thread }
    {
        if !self.is_at_work(thread) && !self.has_suspended(thread) {
            let _ = self.active.swap_remove(&thread);
        }
    }

    /// T0 to T1.
    fn enter(&mut self, thread: u32, xid: &Xid) -> Result<(), AllocError>
        requires from { own_state self.old thread xid.now ≡ AssocState.T0 }
        requires free { active_of self.old thread ≡ None }
        ensures ok { OnOk result (AssocMoves self.old self.new thread xid.now AssocState.T0 AssocState.T1) }
        ensures err { OnErr result (self.new ≡ self.old) }
    {
        self.active.insert(thread, Some(*xid))?;
        Ok(())
    }

    /// T1 to T0.
    fn leave(&mut self, thread: u32, xid: &Xid)
        requires from { own_state self.old thread xid.now ≡ AssocState.T1 }
        ensures { AssocMoves self.old self.new thread xid.now AssocState.T1 AssocState.T0 }
    {
        if self.has_suspended(thread) {
            self.clear_active(thread, xid);
        } else {
            self.remove_active(thread, xid);
        }
    }

    /// T1 to T0, where the thread has suspended a branch and stays listed.
    fn clear_active(&mut self, thread: u32, xid: &Xid)
        requires from { own_state self.old thread xid.now ≡ AssocState.T1 }
        requires suspends { has_some self.old.seats thread ≡ true }
        ensures { AssocMoves self.old self.new thread xid.now AssocState.T1 AssocState.T0 }
    {
        let _ = self.active.insert(thread, None).unwrap();
    }

    /// T1 to T0, where the thread has suspended nothing and is listed no longer.
    fn remove_active(&mut self, thread: u32, xid: &Xid)
        requires from { own_state self.old thread xid.now ≡ AssocState.T1 }
        requires alone { has_some self.old.seats thread ≡ false }
        ensures { AssocMoves self.old self.new thread xid.now AssocState.T1 AssocState.T0 }
    {
        let _ = self.active.swap_remove(&thread);
    }

    /// T1 to T2.
    fn set_aside(&mut self, thread: u32, xid: &Xid) -> Result<(), AllocError>
        requires from { own_state self.old thread xid.now ≡ AssocState.T1 }
        ensures ok { OnOk result (AssocMoves self.old self.new thread xid.now AssocState.T1 AssocState.T2) }
        ensures err { OnErr result (self.new ≡ self.old) }
    {
        self.suspended.insert(Suspended { thread, xid: *xid })?;
        let _ = self.active.insert(thread, None).unwrap();
        Ok(())
    }

    /// T2 to T1.
    fn take_up(&mut self, thread: u32, xid: &Xid)
        requires from { own_state self.old thread xid.now ≡ AssocState.T2 }
        requires free { active_of self.old thread ≡ None }
        ensures { AssocMoves self.old self.new thread xid.now AssocState.T2 AssocState.T1 }
    {
        self.suspended.remove(&Suspended { thread, xid: *xid });
        let _ = self.active.insert(thread, Some(*xid)).unwrap();
    }

    /// T2 to T0.
    fn give_up(&mut self, thread: u32, xid: &Xid)
        requires from { own_state self.old thread xid.now ≡ AssocState.T2 }
        ensures { AssocMoves self.old self.new thread xid.now AssocState.T2 AssocState.T0 }
    {
        self.remove_seat(thread, xid);
        self.settle(thread);
    }

    /// T2 to T0, where the thread stays listed.
    fn remove_seat(&mut self, thread: u32, xid: &Xid)
        requires from { own_state self.old thread xid.now ≡ AssocState.T2 }
        ensures turns { Turns self.old self.new thread xid.now AssocState.T2 AssocState.T0 }
        ensures holder { is_holder self.new thread ≡ true }
    {
        self.suspended.remove(&Suspended { thread, xid: *xid });
    }

    /// Counts how often a branch is suspended for migration.
    fn recount(&mut self, xid: &Xid, count: u64) -> Result<(), AllocError>
        ensures ok { OnOk result (Recounts self.old self.new xid.now count) }
        ensures err { OnErr result (self.new ≡ self.old) }
        ensures succeeds { count ≤ moved_of self.old xid.now → IsOk result }
    {
        recount(&mut self.migrated, *xid, count)?;
        Ok(())
    }

    /// T1 to M.
    fn set_out(&mut self, thread: u32, xid: &Xid) -> Result<(), AllocError>
        requires from { own_state self.old thread xid.now ≡ AssocState.T1 }
        requires fits { moved_of self.old xid.now + 1 < 2 ^ 64 }
        ensures ok { OnOk result (AssocMoves self.old self.new thread xid.now AssocState.T1 AssocState.M) }
        ensures err { OnErr result (self.new ≡ self.old) }
    {
        let count = self.migrations(xid) + 1;
        self.recount(xid, count)?;
        self.leave(thread, xid);
        Ok(())
    }

    /// M to T1.
    fn pick_up(&mut self, thread: u32, xid: &Xid) -> Result<(), AllocError>
        requires from { own_state self.old thread xid.now ≡ AssocState.T0 }
        requires free { active_of self.old thread ≡ None }
        requires migrated { 0 < moved_of self.old xid.now }
        ensures ok { OnOk result (AssocMoves self.old self.new thread xid.now AssocState.M AssocState.T1) }
        ensures err { OnErr result (self.new ≡ self.old) }
    {
        let count = self.migrations(xid) - 1;
        self.enter(thread, xid)?;
        self.recount(xid, count).unwrap();
        Ok(())
    }

    /// M to T0.
    fn discard(&mut self, thread: u32, xid: &Xid)
        requires from { own_state self.old thread xid.now ≡ AssocState.T0 }
        requires migrated { 0 < moved_of self.old xid.now }
        ensures { AssocMoves self.old self.new thread xid.now AssocState.M AssocState.T0 }
    {
        let count = self.migrations(xid) - 1;
        self.recount(xid, count).unwrap();
    }
}
