//! The tables of a resource manager, and the calls that walk their rows.

use crate::associations::Associations;
use crate::reacting::{has_rows, is_failed, is_refusal, resumed, state_left};
use std::alloc::{AllocError, Global};
use xa_branch::BranchStates;
use xa_codes::{Code, Flags};
use xa_tables::{BranchState, Call, InitState, Verb, legal_call};
use xa_xid::Xid;

/// The most branches that are known at a time.
const BRANCHES: usize = 1024;

/// The state of a manager, its branches and the associations of its threads. The data are the manager's own:
/// it says which row a call takes that finishes a branch.
#[derive(Drop)]
pub struct States {
    init: InitState,
    branches: BranchStates,
    associations: Associations,
}

impl States {
    ghost use Rattle.std.specs.Prelude.{◌≡◌, ◌≢◌, ◌≤◌, ◌||◌, not, length, IfOk, IfErr, OnErr, MatchResult, Err, Some, None, true, false};
    ghost use Rattle.xa_words.specs.call;
    ghost use Rattle.xa_assoc.specs.Associations.{IsAssocList, active_of, start_plan, resume_plan, suspend_plan, end_plan};
    ghost use Rattle.xa_branch.specs.Branches.{AreBranchesListedOnce, FindsBranchAt, BranchStandsAt, in_doubt};
    ghost use Rattle.xa_xid.specs.declared.xid.Xid.{Xid as AnyXid};
    ghost use Rattle.xa_assoc.specs.Reacting.{IsAtWork, resumed, suspend_call, end_call};
    ghost use Rattle.xa_assoc.specs.Answers.{BeginsIdle, SameStates, AreNewStates, OpensManager, Closes, Wanted, AnswersCall, Recovers, TakesTableRow, map_ok, ReactsByRows, Resumes, Suspends, EndsWork, left_state, is_held, start_reaction, join_reaction, state_at};
    ghost use Rattle.xa_assoc.specs.Ready.{IsReadyCall, is_work_verb, is_closed, leaves, ready};
    ghost use Rattle.xa_tables.specs.Calls.{legal};
    ghost use Rattle.xa_assoc.specs.Restored.{Restored, restore_refusal};

    /// A manager that is not open.
    pub fn new(alloc: Global) -> Self
        ensures { AreNewStates result }
    {
        States {
            init: InitState::R0,
            branches: BranchStates::new(alloc),
            associations: Associations::new(alloc, true),
        }
    }

    /// The tables after a restart: a manager that is not open, without associations and scans, and these
    /// branches in doubt, in this order: prepared (in S3), or where the second is true decided by an operator
    /// (in S5). RmErr: they are more than 1,024. DupId: one of them is there twice.
    pub fn restored(alloc: Global, left: &[(Xid, bool)]) -> Result<Result<Self, Code>, AllocError>
        ensures { IfOk result (λ made. MatchResult made
            (λ states. (restore_refusal left.now ≡ None) × Restored left.now states)
            (λ refusal. restore_refusal left.now ≡ Some refusal)) }
    {
        if left.len() > BRANCHES {
            return Ok(Err(Code::RmErr));
        }
        let mut branches = BranchStates::new(alloc);
        for (xid, decided) in left {
            let code = branches.restore(xid, state_left(*decided))?;
            if code != Code::Ok {
                return Ok(Err(code));
            }
        }
        Ok(Ok(States {
            init: InitState::R0,
            branches,
            associations: Associations::new(alloc, true),
        }))
    }

    /// Whether the manager is open.
    pub fn is_open(&self) -> bool
        ensures { result ≡ not (is_closed self.now.init) }
    {
        self.init == InitState::R1
    }

    /// A new branch begins that no thread is in. False: it is known, or 1,024 are; nothing changed, nor does
    /// want of memory.
    pub fn begin_idle(&mut self, xid: &Xid) -> Result<bool, AllocError>
        ensures begun { IfOk result (BeginsIdle self.old self.new xid.now) }
        ensures err { OnErr result (SameStates self.old self.new) }
    {
        match self.branches.begin_idle(xid)? {
            Code::Ok => Ok(true),
            _ => Ok(false),
        }
    }

    /// The state of a branch: S0 where it is not known.
    pub fn state(&self, xid: &Xid) -> BranchState
        ensures { result ≡ state_at self.now xid.now }
    {
        self.branches.state(xid)
    }

    /// The branch that a thread works for: the one that it is active in.
    pub fn active(&self, thread: u32) -> Option<Xid>
        ensures { result ≡ active_of self.now.associations thread }
    {
        self.associations.active(thread)
    }

    /// At most 1,024 branches are known.
    pub fn branches_are_few(&self)
        ensures { length self.now.branches.branches ≤ 1024 }
    {
        self.branches.are_few();
    }

    /// Each known branch is listed once, and none that is in S0.
    pub fn branches_are_listed_once(&self)
        ensures { AreBranchesListedOnce self.now.branches.branches }
    {
        self.branches.are_listed_once();
    }

    /// Each thread that holds associations is listed once, and a branch as suspended for migration only if it
    /// is.
    pub fn associations_are_listed_once(&self)
        ensures { IsAssocList self.now.associations }
    {
        self.associations.are_listed_once();
    }

    /// The branches in doubt (in S3 and S5), in order of beginning.
    pub fn in_doubt(&self) -> Result<Vec<Xid>, AllocError>
        ensures { IfOk result (λ v. v.items ≡ in_doubt self.now.branches.branches) }
    {
        self.branches.in_doubt()
    }

    /// Opens the manager, which migrates associations or not. Where it is open nothing changes. Inval,
    /// Async: the flags; nothing changes.
    pub fn open(&mut self, flags: Flags, migrates: bool) -> Code
        ensures { OpensManager self.old self.new flags.0 migrates result }
    {
        if let Err(refusal) = legal_call(Verb::Open, flags) {
            return refusal;
        }
        if self.init == InitState::R0 {
            self.associations.reset(migrates);
            self.init = InitState::R1;
        }
        Code::Ok
    }

    /// Closes the manager; one that is not open stays so. Inval, Async: the flags. Proto: there is an
    /// association. A refusal changes nothing.
    pub fn close(&mut self, flags: Flags) -> Code
        ensures { Closes self.old self.new flags.0 result }
    {
        if let Err(refusal) = legal_call(Verb::Close, flags) {
            return refusal;
        }
        if !self.associations.is_empty() {
            return Code::Proto;
        }
        self.init = InitState::R0;
        Code::Ok
    }

    /// A start or an end of a thread's work in a branch, whole. Inval, Async: the flags. Proto: the manager
    /// is not open, or no row applies. Inval: the null XID. DupId, NotA: the branch is known, or is not.
    /// RmErr: 1,024 branches, 256 threads with associations or 2^64 - 1 migrations of the branch. A refusal
    /// changes nothing, nor does want of memory, which an end with TMSUCCESS or TMFAIL never meets.
    pub fn work_call(
        &mut self,
        verb: Verb,
        thread: u32,
        xid: &Xid,
        flags: Flags,
    ) -> Result<Code, AllocError>
        requires { is_work_verb verb ≡ true }
        ensures answer { IfOk result (λ answer. (wanted : Wanted)
            → AnswersCall wanted self.old self.new verb thread xid.now flags.0 answer) }
        ensures err { OnErr result ((leaves (legal verb flags.0) ≡ false) × SameStates self.old self.new) }
    {
        let call = match legal_call(verb, flags) {
            Ok(call) => call,
            Err(refusal) => return Ok(refusal),
        };
        if self.init == InitState::R0 {
            return Ok(Code::Proto);
        }
        if xid.is_null() {
            return Ok(Code::Inval);
        }
        match call {
            Call::Start => self.start(thread, xid),
            Call::StartJoin => self.join(thread, xid),
            Call::StartResume => self.resume(thread, xid),
            Call::EndSuspend => self.suspend(thread, xid, false),
            Call::EndMigrate => self.suspend(thread, xid, true),
            Call::EndSuccess => Ok(self.end(thread, xid, true)),
            _ => Ok(self.end(thread, xid, false)),
        }
    }

    /// The call that a prepare, commit, rollback or forget makes where it comes to a row of the table, with
    /// the place and the state of its branch. Inval, Async: the flags. Proto: the manager is not open. Inval:
    /// the null XID. NotA: the branch is not known. Proto: it is held, or the table has no row for its state.
    pub fn ready(
        &self,
        verb: Verb,
        xid: &Xid,
        flags: Flags,
    ) -> Result<(Call, usize, BranchState), Code>
        ensures ok { IfOk result (λ given. IsReadyCall self.now verb xid.now flags.0 given.0
            given.1 given.2) }
        ensures err { IfErr result (λ refusal. ready self.now verb xid.now flags.0 ≡ Err refusal) }
    {
        let call = legal_call(verb, flags)?;
        if self.init == InitState::R0 {
            return Err(Code::Proto);
        }
        if xid.is_null() {
            return Err(Code::Inval);
        }
        let Some((place, state)) = self.branches.find(xid) else {
            return Err(Code::NotA);
        };
        if self.is_held(xid) || !has_rows(state, call) {
            return Err(Code::Proto);
        }
        Ok((call, place, state))
    }

    /// Where a branch is among the known ones, and its state.
    pub fn find(&self, xid: &Xid) -> Option<(usize, BranchState)>
        ensures { FindsBranchAt self.now.branches.branches xid.now result }
    {
        self.branches.find(xid)
    }

    /// The known branch that is at a place comes to the state after the row that it takes. Where no
    /// branch stands nothing changes. It takes no memory.
    pub fn finish(&mut self, place: usize, to: BranchState)
        ensures taken { (x : AnyXid) → BranchStandsAt self.old.branches.branches x place
            → TakesTableRow self.old self.new x to }
        ensures nowhere { length self.old.branches.branches ≤ place → SameStates self.old self.new }
    {
        self.branches.place(place, to);
    }

    /// An operator's decision about a prepared branch, which leads it from S3 to S5; the manager need not be
    /// open. False: it is not in S3, and nothing changes.
    pub fn decided(&mut self, xid: &Xid) -> bool
        ensures decided { result ≡ true → (state_at self.old xid.now ≡ BranchState.S3)
            × TakesTableRow self.old self.new xid.now BranchState.S5 }
        ensures refused { result ≡ false
            → (state_at self.old xid.now ≢ BranchState.S3) × (self.new ≡ self.old) }
    {
        self.branches.decided(xid)
    }

    /// A scan of the branches in doubt: the next of them, at most N. Inval: the flags. Proto: the
    /// manager is not open. Inval: no scan is open and none begins. RmErr: one begins, and 256 threads have
    /// one. A refusal changes nothing, nor does want of memory.
    pub fn recover(
        &mut self,
        thread: u32,
        count: u32,
        flags: Flags,
    ) -> Result<Result<Vec<Xid>, Code>, AllocError>
        ensures answer { IfOk result
            (λ answer. Recovers self.old self.new thread count flags.0 (map_ok answer)) }
        ensures err { OnErr result (SameStates self.old self.new) }
    {
        let call = match legal_call(Verb::Recover, flags) {
            Ok(call) => call,
            Err(refusal) => return Ok(Err(refusal)),
        };
        if self.init == InitState::R0 {
            return Ok(Err(Code::Proto));
        }
        self.branches.scan(thread, count, call)
    }

    /// A start of a new branch.
    fn start(&mut self, thread: u32, xid: &Xid) -> Result<Code, AllocError>
        ensures answer { IfOk result
            (ReactsByRows self.old self.new thread xid.now call.Start
            (start_reaction self.old thread xid.now) BranchState.S1) }
        ensures err { OnErr result (SameStates self.old self.new) }
    {
        if self.branches.is_known(xid) {
            return Ok(Code::DupId);
        }
        if self.branches.is_full() {
            let busy = self.associations.is_busy(thread, xid);
            return Ok(if busy { Code::Proto } else { Code::RmErr });
        }
        self.branches.reserve(1)?;
        let code = self.associations.start(thread, xid)?;
        if code == Code::Ok {
            return self.branches.begin(xid);
        }
        Ok(code)
    }

    /// A start TMJOIN.
    fn join(&mut self, thread: u32, xid: &Xid) -> Result<Code, AllocError>
        ensures answer { IfOk result
            (ReactsByRows self.old self.new thread xid.now call.StartJoin
            (join_reaction self.old thread xid.now) BranchState.S1) }
        ensures err { OnErr result (SameStates self.old self.new) }
    {
        let Some((place, state)) = self.branches.find(xid) else {
            return Ok(Code::NotA);
        };
        match state {
            BranchState::S0 => Ok(Code::NotA),
            BranchState::S1 | BranchState::S2 => self.join_work(place, thread, xid),
            BranchState::S3 | BranchState::S4 | BranchState::S5 => Ok(Code::Proto),
        }
    }

    fn join_work(&mut self, place: usize, thread: u32, xid: &Xid) -> Result<Code, AllocError>
        requires at { IsAtWork false (state_at self.old xid.now) }
        requires place { BranchStandsAt self.old.branches.branches xid.now place }
        ensures answer { IfOk result
            (ReactsByRows self.old self.new thread xid.now call.StartJoin
            (start_plan self.old.associations thread xid.now) BranchState.S1) }
        ensures err { OnErr result (SameStates self.old self.new) }
    {
        let code = self.associations.start(thread, xid)?;
        if is_refusal(code) {
            return Ok(code);
        }
        self.branches.place(place, BranchState::S1);
        Ok(code)
    }

    /// A start TMRESUME.
    fn resume(&mut self, thread: u32, xid: &Xid) -> Result<Code, AllocError>
        ensures answer { IfOk result (Resumes self.old self.new thread xid.now) }
        ensures err { OnErr result (SameStates self.old self.new) }
    {
        let Some((place, state)) = self.branches.find(xid) else {
            return Ok(Code::NotA);
        };
        match state {
            BranchState::S0 => Ok(Code::NotA),
            BranchState::S1 | BranchState::S2 => self.resume_work(place, thread, xid, false),
            BranchState::S4 => self.resume_work(place, thread, xid, true),
            BranchState::S3 | BranchState::S5 => Ok(Code::Proto),
        }
    }

    fn resume_work(
        &mut self,
        place: usize,
        thread: u32,
        xid: &Xid,
        lost: bool,
    ) -> Result<Code, AllocError>
        requires at { IsAtWork lost (state_at self.old xid.now) }
        requires place { BranchStandsAt self.old.branches.branches xid.now place }
        ensures answer { IfOk result (ReactsByRows self.old self.new thread xid.now call.StartResume
            (resume_plan self.old.associations thread xid.now lost) (resumed lost)) }
        ensures err { OnErr result (SameStates self.old self.new) }
    {
        let code = self.associations.resume(thread, xid, lost)?;
        if is_refusal(code) {
            return Ok(code);
        }
        self.branches.place(place, resumed(lost));
        Ok(code)
    }

    /// An end TMSUSPEND, with TMMIGRATE or not.
    fn suspend(&mut self, thread: u32, xid: &Xid, migrate: bool) -> Result<Code, AllocError>
        ensures answer { IfOk result (Suspends self.old self.new thread xid.now migrate) }
        ensures err { OnErr result (SameStates self.old self.new) }
    {
        let Some((place, state)) = self.branches.find(xid) else {
            return Ok(Code::NotA);
        };
        match state {
            BranchState::S0 => Ok(Code::NotA),
            BranchState::S1 | BranchState::S2 => {
                self.suspend_work(place, thread, xid, false, migrate)
            }
            BranchState::S4 => self.suspend_work(place, thread, xid, true, migrate),
            BranchState::S3 | BranchState::S5 => Ok(Code::Proto),
        }
    }

    fn suspend_work(
        &mut self,
        place: usize,
        thread: u32,
        xid: &Xid,
        lost: bool,
        migrate: bool,
    ) -> Result<Code, AllocError>
        requires at { IsAtWork lost (state_at self.old xid.now) }
        requires place { BranchStandsAt self.old.branches.branches xid.now place }
        ensures answer { IfOk result (ReactsByRows self.old self.new thread xid.now (suspend_call migrate)
            (suspend_plan self.old.associations thread xid.now lost migrate)
            (left_state self.new xid.now lost)) }
        ensures err { OnErr result (SameStates self.old self.new) }
    {
        let code = self.associations.suspend(thread, xid, lost, migrate)?;
        if is_refusal(code) {
            return Ok(code);
        }
        let to = self.left(xid, lost);
        self.branches.place(place, to);
        Ok(code)
    }

    /// An end TMSUCCESS, or else TMFAIL.
    fn end(&mut self, thread: u32, xid: &Xid, succeeds: bool) -> Code
        ensures { EndsWork self.old self.new thread xid.now succeeds result }
    {
        let Some((place, state)) = self.branches.find(xid) else {
            return Code::NotA;
        };
        match state {
            BranchState::S0 => Code::NotA,
            BranchState::S1 | BranchState::S2 => self.end_work(place, thread, xid, false, succeeds),
            BranchState::S4 => self.end_work(place, thread, xid, true, succeeds),
            BranchState::S3 | BranchState::S5 => Code::Proto,
        }
    }

    fn end_work(&mut self, place: usize, thread: u32, xid: &Xid, lost: bool, succeeds: bool) -> Code
        requires at { IsAtWork lost (state_at self.old xid.now) }
        requires place { BranchStandsAt self.old.branches.branches xid.now place }
        ensures { ReactsByRows self.old self.new thread xid.now (end_call succeeds)
            (end_plan self.old.associations thread xid.now lost succeeds)
            (left_state self.new xid.now (lost || not succeeds)) result }
    {
        let code = self.associations.end(thread, xid, lost, succeeds);
        if is_refusal(code) {
            return code;
        }
        let to = self.left(xid, is_failed(lost, succeeds));
        self.branches.place(place, to);
        code
    }

    /// Whether a branch is held by any thread, or suspended for migration.
    fn is_held(&self, xid: &Xid) -> bool
        ensures { result ≡ is_held self.now.associations xid.now }
    {
        let held = self.associations.of_branch(xid);
        held.active || held.suspended || held.migrated
    }

    /// The state of a branch after an end: active while another thread is active in it.
    fn left(&self, xid: &Xid, lost: bool) -> BranchState
        ensures { result ≡ left_state self.now xid.now lost }
    {
        if lost {
            BranchState::S4
        } else if self.associations.of_branch(xid).active {
            BranchState::S1
        } else {
            BranchState::S2
        }
    }
}
