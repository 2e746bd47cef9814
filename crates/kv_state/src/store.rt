//! A key store that is called by XA, without its log.

ghost use Rattle.std.specs.Prelude.{◌≡◌, ◌≤◌, ◌<◌, ◌+◌, ◌^◌, ℕ, List, Option, length, not, MatchResult, IfOk, IfErr, OnOk, OnErr, Some, None, option_map, true, false};
ghost use Rattle.key_lists.specs.declared.holders.Mode.{Mode as WorkMode};
ghost use Rattle.key_lists.specs.declared.holders.Mode.TheVariants as mode;
ghost use Rattle.key_lists.specs.Holders.{blocked_by};
ghost use Rattle.kv_locks.specs.Locks.{holders_of};
ghost use Rattle.kv_store.specs.Pairs.{ArePairsOf};
ghost use Rattle.kv_store.specs.writes.Writes.{AreWrites, ListedAt, writes_of};
ghost use Rattle.xa_assoc.specs.Answers.{AnswersCall, BeginsIdle, Closes, OpensManager, Recovers, TakesTableRow, Wanted, map_ok};
ghost use Rattle.xa_assoc.specs.Associations.{IsAssocList};
ghost use Rattle.xa_assoc.specs.Ready.{is_closed, is_work_verb, leaves};
ghost use Rattle.xa_tables.specs.Calls.{legal};
ghost use Rattle.xa_tables.specs.Tables.{is_spoiled};
ghost use Rattle.xa_branch.specs.Branches.{AreBranchesListedOnce, FindsBranchAt, BranchStandsAt, in_doubt};
ghost use Rattle.xa_tables.specs.declared.call.Call.{Call as AnyCall};
ghost use Rattle.xa_assoc.specs.declared.states.States.{States as AnyStates};
ghost use Rattle.xa_assoc.specs.Restored.{Restored, restore_refusal};
ghost use Rattle.kv_state.specs.Stores.{IsTidy, MovesTables, RebasesStore, Rebuilt, SameKeyStore, has_numbers, is_let_go, state_of};
ghost use Rattle.xa_branch.specs.Cases.{NotesDecision, decision_in};
ghost use Rattle.xa_branch.specs.Decisions.{decision_at};
ghost use Rattle.kv_state.specs.Works.{DoesOperation, IsRefusedWork, IsRefusedIfFree, ReadsKey, ReadsFor, Spoils, WritesKey, WritesFor, KeyStoreWorksIdle, at_work, branch_refusal, is_too_long, op_refusal, unless_locked, value_for, work_refusal};
ghost use Rattle.kv_state.specs.Ends.{CanNote, IsDue, IsOff, IsTurn, PublishesWrites, Reserves, SameButData, StagesWrites, TakesTurn, known_behind, known_of, turn_for, wrote_some};

use key_lists::Mode;
use kv_calls::{BranchRecord, CallRow, branch_of};
use kv_locks::Locks;
use kv_store::Versions;
use kv_store::writes::BranchWrites;
use protocol::{Bytes, LAST_NUMBER, Op, Outcome, Write};
use std::alloc::{AllocError, Global};
use std::marker::Model;
use xa_assoc::{States, WorkError};
use xa_branch::{Decision, Heuristics};
use xa_codes::{Code, Flags};
use xa_tables::{BranchState, Call, Verb};
use xa_xid::Xid;

/// The longest key and the longest value, in bytes.
const KEY: usize = 64;

const VALUE: usize = 256;

/// The tables of calls, what each branch at work has written, the locks, the data, and what operators
/// decided.
#[derive(Drop)]
pub struct KeyStore {
    alloc: Global,
    states: States,
    writes: BranchWrites,
    locks: Locks,
    versions: Versions,
    heuristics: Heuristics,
}

impl Model for KeyStore {
    ghost use Rattle.kv_state.specs.Stores.{IsTidy, KeySight};

    ghost Value = { KeySight };

    ghost view = { λ s. record {
      tables = s.states;
      writes = s.writes;
      locks = s.locks;
      versions = s.versions;
      decisions = s.heuristics;
    } };

    ghost invariant = { λ s. IsTidy (record {
      tables = s.states;
      writes = s.writes;
      locks = s.locks;
      versions = s.versions;
      decisions = s.heuristics;
    }) };
}

/// Whether a key has no bytes or more than 64, or a value more than 256.
fn is_too_long(key: &[u8], value: Option<&[u8]>) -> bool
    ensures { result ≡ is_too_long key.now (option_map (λ v. v.now) value.entry) }
{
    key.is_empty()
        || key.len() > KEY
        || match value {
            None => false,
            Some(value) => value.len() > VALUE,
        }
}

/// Whether a branch has written something.
fn wrote_some(writes: &[Write]) -> bool
    ensures { result ≡ wrote_some writes.now }
{
    !writes.is_empty()
}

/// Whether a branch has let its writes and its locks go in this state: it is ended, or an operator decided
/// it.
fn is_let_go(state: BranchState) -> bool
    ensures { result ≡ is_let_go state }
{
    matches!(state, BranchState::S0 | BranchState::S5)
}

/// Notes what a record of a branch says of an operator's decision.
fn note(heuristics: &mut Heuristics, xid: &Xid, entry: Option<BranchRecord>)
    requires { CanNote entry heuristics.old xid.now }
    ensures { NotesDecision heuristics.old heuristics.new xid.now
        (known_behind entry (decision_in heuristics.old xid.now)) }
{
    match entry {
        Some(BranchRecord::HeurCommit) => heuristics.decide(xid, Outcome::Committed),
        Some(BranchRecord::HeurRollback) => heuristics.decide(xid, Outcome::Aborted),
        Some(BranchRecord::Told(outcome)) => heuristics.told(xid, outcome),
        Some(BranchRecord::Forgot) => heuristics.forget(xid),
        _ => {}
    }
}

/// A copy of these bytes, if there are any.
fn copied(alloc: Global, bytes: Option<&[u8]>) -> Result<Option<Bytes>, AllocError>
    ensures { IfOk result (λ copy. copy ≡ option_map (λ v. v.now) bytes.entry) }
{
    match bytes {
        None => Ok(None),
        Some(bytes) => Ok(Some(Bytes::from_slice(alloc, bytes)?)),
    }
}

impl KeyStore {
    /// The store after a restart: a manager that is not open, with these branches in doubt, in this order:
    /// prepared (in S3), or where the second is true decided by an operator (in S5). RmErr: they are more
    /// than 1,024. DupId: one of them is there twice.
    pub fn restored(
        alloc: Global,
        left: &[(Xid, bool)],
        writes: BranchWrites,
        locks: Locks,
        versions: Versions,
        heuristics: Heuristics,
    ) -> Result<Result<Self, Code>, AllocError>
        requires { (t : AnyStates) → Restored left.now t → IsTidy (record {
          tables = t;
          writes = writes;
          locks = locks;
          versions = versions;
          decisions = heuristics;
        }) }
        ensures { IfOk result (λ made. MatchResult made
            (λ store. Rebuilt store left.now writes locks versions heuristics)
            (λ refusal. restore_refusal left.now ≡ Some refusal)) }
    {
        match States::restored(alloc, left)? {
            Ok(states) => Ok(Ok(KeyStore {
                alloc,
                states,
                writes,
                locks,
                versions,
                heuristics,
            })),
            Err(refusal) => Ok(Err(refusal)),
        }
    }

    /// Each branch holds the keys exclusively that it has written, and has written what a branch can; one
    /// that is let go holds nothing. At most 1,024 branches are known.
    pub fn is_tidy(&self, xid: &Xid)
        ensures tidy { IsTidy self.now }
        ensures limits { AreWrites (writes_of self.now.writes xid.now) }
        ensures few { length self.now.tables.branches.branches ≤ 1024 }
    {
        let _ = &self.alloc;
        self.writes.are_kept();
        self.states.branches_are_few();
    }

    /// Each known branch is listed once, and none that is in S0.
    pub fn branches_are_listed_once(&self)
        ensures { AreBranchesListedOnce self.now.tables.branches.branches }
    {
        self.states.branches_are_listed_once();
    }

    /// Each thread that holds associations is listed once, and a branch as suspended for migration only if it
    /// is.
    pub fn associations_are_listed_once(&self)
        ensures { IsAssocList self.now.tables.associations }
    {
        self.states.associations_are_listed_once();
    }

    /// Whether one commit more can be counted: fewer than 2^63 - 1 were made.
    pub fn has_numbers(&self) -> bool
        ensures { result ≡ has_numbers self.now }
    {
        self.versions.count() < LAST_NUMBER
    }

    /// How many commits were made.
    pub fn count(&self) -> u64
        ensures { result ≡ self.now.versions.count }
    {
        self.versions.count()
    }

    /// The data, keys rising.
    pub fn pairs(&self) -> Result<Vec<(Bytes, Bytes)>, AllocError>
        ensures { IfOk result (λ pairs. ArePairsOf self.now.versions pairs.items) }
    {
        self.versions.pairs()
    }

    /// The branches in doubt (in S3 and S5), in order of beginning.
    pub fn in_doubt(&self) -> Result<Vec<Xid>, AllocError>
        ensures { IfOk result (λ v. v.items ≡ in_doubt self.now.tables.branches.branches) }
    {
        self.states.in_doubt()
    }

    /// Whether the manager is open.
    pub fn is_open(&self) -> bool
        ensures { result ≡ not (is_closed self.now.tables.init) }
    {
        self.states.is_open()
    }

    /// Where a branch is among the known ones, and its state.
    pub fn find(&self, xid: &Xid) -> Option<(usize, BranchState)>
        ensures { FindsBranchAt self.now.tables.branches.branches xid.now result }
    {
        self.states.find(xid)
    }

    /// The state of a branch.
    pub fn state(&self, xid: &Xid) -> BranchState
        ensures { result ≡ state_of self.now xid.now }
    {
        self.states.state(xid)
    }

    /// What an operator decided of a branch in S5, and what it was told since.
    pub fn decision(&self, xid: &Xid) -> Option<Decision>
        ensures { result ≡ decision_at (state_of self.now xid.now) (known_of self.now xid.now) }
    {
        match self.states.state(xid) {
            BranchState::S5 => Some(self.heuristics.known(xid)),
            _ => None,
        }
    }

    /// Where the list of what a branch has written stands, if it has one.
    pub fn writes_place(&self, xid: &Xid) -> Option<usize>
        ensures { ListedAt self.now.writes xid.now result }
    {
        self.writes.place(xid)
    }

    /// What the branch has written whose list stands here.
    pub fn writes_at(&self, place: Option<usize>) -> &[Write]
        requires { (x : Xid) × ListedAt self.now.writes x place }
        ensures writes { (x : Xid) → ListedAt self.now.writes x place
            → result.now ≡ writes_of self.now.writes x }
        ensures limits { AreWrites result.now }
    {
        self.writes.at(place)
    }

    /// The branch that a thread is active in, which is at work. NotAssociated, RollbackOnly.
    fn at_work(&self, thread: u32) -> Result<Xid, WorkError>
        ensures ok { IfOk result (λ xid. (at_work self.now thread ≡ Some xid)
            × (is_spoiled (state_of self.now xid) ≡ false)) }
        ensures err { IfErr result (λ e. (key : List ℕ) (value : Option (List ℕ)) (m : WorkMode)
            → work_refusal self.now thread key value m ≡ Some e) }
    {
        let Some(xid) = self.states.active(thread) else {
            return Err(WorkError::NotAssociated);
        };
        match self.states.state(&xid) {
            BranchState::S1 => Ok(xid),
            BranchState::S4 => Err(WorkError::RollbackOnly),
            BranchState::S0 | BranchState::S2 | BranchState::S3 | BranchState::S5 => {
                Err(WorkError::NotAssociated)
            }
        }
    }

    /// Why a branch's work at a key is refused that would be for this: Locked comes first.
    fn unless_locked(&self, xid: &Xid, key: &[u8], mode: Mode, other: WorkError) -> WorkError
        ensures { Some result ≡ unless_locked (blocked_by (holders_of self.now.locks key.now) xid.now mode)
            (Some other) }
    {
        match self.locks.blocker(xid, key, mode) {
            Some(holder) => WorkError::Locked(holder),
            None => other,
        }
    }

    /// What a branch finds at a key: its own write, or else the data.
    fn value(&self, xid: &Xid, key: &[u8]) -> Option<&[u8]>
        ensures { option_map (λ v. v.now) result ≡ value_for self.now xid.now key.now }
    {
        match self.writes.find(xid, key) {
            None => self.versions.read(key),
            Some(write) => match &write.value {
                None => None,
                Some(value) => Some(value.as_slice()),
            },
        }
    }

    /// Reads a key for a branch at work, where no other branch's lock is in the way. Memory: nothing changed;
    /// it comes if one is in the way too.
    fn try_read(&mut self, xid: &Xid, key: &[u8]) -> Result<Option<Bytes>, WorkError>
        requires works { (is_let_go (state_of self.old xid.now) ≡ false)
            × (is_spoiled (state_of self.old xid.now) ≡ false) }
        requires short { is_too_long key.now None ≡ false }
        ensures ok { IfOk result (ReadsFor self.old self.new xid.now key.now) }
        ensures err { IfErr result (λ e. IsRefusedIfFree self.old self.new xid.now key.now mode.Shared e) }
    {
        let found = copied(self.alloc, self.value(xid, key))?;
        match self.locks.shared(xid, key) {
            Ok(()) => Ok(found),
            Err(_) => Err(WorkError::Memory),
        }
    }

    /// Reads a key for a branch at work, which holds it from then on, at least shared. TooLong, Locked, in
    /// this order. A refusal changes nothing.
    fn read_for(&mut self, xid: &Xid, key: &[u8]) -> Result<Option<Bytes>, WorkError>
        requires works { (is_let_go (state_of self.old xid.now) ≡ false)
            × (is_spoiled (state_of self.old xid.now) ≡ false) }
        ensures ok { IfOk result (ReadsFor self.old self.new xid.now key.now) }
        ensures err { IfErr result (λ e. IsRefusedWork self.old self.new
            (branch_refusal self.old key.now None mode.Shared xid.now) e) }
    {
        if is_too_long(key, None) {
            return Err(WorkError::TooLong);
        }
        match self.try_read(xid, key) {
            Ok(found) => Ok(found),
            Err(refusal) => Err(self.unless_locked(xid, key, Mode::Shared, refusal)),
        }
    }

    /// Reads a key for a thread's branch, which holds it from then on, at least shared. NotAssociated,
    /// RollbackOnly, TooLong, Locked, in this order. A refusal changes nothing.
    pub fn get(&mut self, thread: u32, key: &[u8]) -> Result<Option<Bytes>, WorkError>
        ensures ok { IfOk result (λ found. ReadsKey self.old self.new thread key.now found) }
        ensures err { IfErr result (λ e. IsRefusedWork self.old self.new
            (work_refusal self.old thread key.now None mode.Shared) e) }
    {
        let xid = self.at_work(thread)?;
        self.read_for(&xid, key)
    }

    /// Writes a key for a branch at work, or deletes it, where no other branch's lock is in the way.
    /// TooManyWrites, Memory: nothing changed; they come if one is in the way too.
    fn try_write(&mut self, xid: &Xid, key: &[u8], value: Option<&[u8]>) -> Result<(), WorkError>
        requires works { (is_let_go (state_of self.old xid.now) ≡ false)
            × (is_spoiled (state_of self.old xid.now) ≡ false) }
        requires short { is_too_long key.now (option_map (λ v. v.now) value) ≡ false }
        ensures ok { OnOk result (WritesFor self.old self.new xid.now key.now
            (option_map (λ v. v.now) value.entry)) }
        ensures err { IfErr result (λ e. IsRefusedIfFree self.old self.new xid.now key.now mode.Exclusive e) }
    {
        let Some(place) = self.writes.room_for(xid, key)? else {
            return Err(WorkError::TooManyWrites);
        };
        let write = Write {
            key: Bytes::from_slice(self.alloc, key)?,
            value: copied(self.alloc, value)?,
        };
        match self.locks.exclusive(xid, key) {
            Ok(()) => {
                self.writes.put_at(place, write);
                Ok(())
            }
            Err(_) => Err(WorkError::Memory),
        }
    }

    /// Writes a key for a branch at work, or deletes it, which holds it exclusively from then on. TooLong,
    /// Locked, TooManyWrites, in this order. A refusal changes nothing.
    fn write_for(&mut self, xid: &Xid, key: &[u8], value: Option<&[u8]>) -> Result<(), WorkError>
        requires works { (is_let_go (state_of self.old xid.now) ≡ false)
            × (is_spoiled (state_of self.old xid.now) ≡ false) }
        ensures ok { OnOk result (WritesFor self.old self.new xid.now key.now
            (option_map (λ v. v.now) value.entry)) }
        ensures err { IfErr result (λ e. IsRefusedWork self.old self.new (branch_refusal self.old key.now
            (option_map (λ v. v.now) value.entry) mode.Exclusive xid.now) e) }
    {
        if is_too_long(key, value) {
            return Err(WorkError::TooLong);
        }
        match self.try_write(xid, key, value) {
            Ok(()) => Ok(()),
            Err(refusal) => Err(self.unless_locked(xid, key, Mode::Exclusive, refusal)),
        }
    }

    /// Writes a key for a thread's branch, or deletes it, which holds it exclusively from then on.
    fn write(&mut self, thread: u32, key: &[u8], value: Option<&[u8]>) -> Result<(), WorkError>
        ensures ok { OnOk result (WritesKey self.old self.new thread key.now
            (option_map (λ v. v.now) value.entry)) }
        ensures err { IfErr result (λ e. IsRefusedWork self.old self.new
            (work_refusal self.old thread key.now (option_map (λ v. v.now) value.entry) mode.Exclusive) e) }
    {
        let xid = self.at_work(thread)?;
        self.write_for(&xid, key, value)
    }

    /// Writes a value at a key for a thread's branch. NotAssociated, RollbackOnly, TooLong, Locked,
    /// TooManyWrites, in this order. A refusal changes nothing.
    pub fn put(&mut self, thread: u32, key: &[u8], value: &[u8]) -> Result<(), WorkError>
        ensures ok { OnOk result (WritesKey self.old self.new thread key.now (Some value.now)) }
        ensures err { IfErr result (λ e. IsRefusedWork self.old self.new
            (work_refusal self.old thread key.now (Some value.now) mode.Exclusive) e) }
    {
        self.write(thread, key, Some(value))
    }

    /// Deletes a key for a thread's branch, with the refusals of `put`.
    pub fn delete(&mut self, thread: u32, key: &[u8]) -> Result<(), WorkError>
        ensures ok { OnOk result (WritesKey self.old self.new thread key.now None) }
        ensures err { IfErr result (λ e. IsRefusedWork self.old self.new
            (work_refusal self.old thread key.now None mode.Exclusive) e) }
    {
        self.write(thread, key, None)
    }

    /// What a prepare, commit, rollback or forget makes of a branch in this state.
    fn turn(&self, from: BranchState, call: Call, xid: &Xid, written: Option<usize>) -> CallRow
        requires from { from ≡ state_of self.now xid.now }
        requires written { ListedAt self.now.writes xid.now written }
        ensures { result ≡ turn_for self.now xid.now call }
    {
        match call {
            Call::Prepare => CallRow::prepare(wrote_some(self.writes.at(written))),
            Call::Commit => CallRow::commit(from, branch_of(xid), self.heuristics.known(xid)),
            Call::CommitOnePhase => CallRow::direct(wrote_some(self.writes.at(written))),
            Call::Rollback => CallRow::rollback(from, branch_of(xid), self.heuristics.known(xid)),
            _ => CallRow::forget(),
        }
    }

    /// The place of a branch, where what it has written stands, and its turn, if no check refuses a prepare,
    /// commit, rollback or forget; or the refusal.
    pub fn due(
        &self,
        verb: Verb,
        xid: &Xid,
        flags: Flags,
    ) -> Result<(usize, Option<usize>, CallRow), Code>
        requires { is_work_verb verb ≡ false }
        ensures ok { IfOk result (λ due. (c : AnyCall) × IsDue self.now verb xid.now flags.0 (c, due.2)
            × BranchStandsAt self.now.tables.branches.branches xid.now due.0
            × ListedAt self.now.writes xid.now due.1) }
        ensures err { IfErr result (λ code. IsOff self.now verb xid.now flags.0 code) }
    {
        let (call, place, from) = self.states.ready(verb, xid, flags)?;
        let written = self.writes.place(xid);
        Ok((place, written, self.turn(from, call, xid, written)))
    }

    /// Stages what a branch has written, which nobody sees before it is published. Memory: nothing changed.
    pub fn stage(&mut self, xid: &Xid, written: Option<usize>) -> Result<(), AllocError>
        requires written { ListedAt self.old.writes xid.now written }
        requires unstaged { self.old.versions.is_staged ≡ false }
        requires fits { self.old.versions.count + 1 < 2 ^ 63 }
        ensures ok { OnOk result (StagesWrites self.old self.new xid.now) }
        ensures err { OnErr result (SameButData self.old self.new) }
    {
        self.versions.stage(self.writes.at(written))
    }

    /// Makes the staged writes data. It takes no memory.
    pub fn publish(&mut self)
        requires staged { self.old.versions.is_staged ≡ true }
        requires fits { self.old.versions.count + 1 < 2 ^ 63 }
        ensures { PublishesWrites self.old self.new }
    {
        self.versions.publish();
    }

    /// Forgets what each key was before the last commit, which is the base of the data from then on. It takes
    /// no memory, and goes through all keys, unless no commit was made since the base.
    pub fn rebase(&mut self)
        requires { self.old.versions.is_staged ≡ false }
        ensures { RebasesStore self.old self.new }
    {
        if self.versions.base() != self.versions.count() {
            self.versions.rebase();
        }
    }

    /// Makes room for an operator's decision. Memory: nothing changed.
    pub fn reserve_decision(&mut self) -> Result<(), AllocError>
        ensures stays { Reserves self.old self.new }
        ensures room { OnOk result (1 ≤ self.new.decisions.room) }
    {
        self.heuristics.reserve()
    }

    /// The branch that is at this place takes its turn: that of a call, or of an operator's decision, which
    /// leads from S3 to S5. In S0 and S5 it lets its writes, whose place is given, and its locks go. It takes
    /// no memory.
    pub fn finish(&mut self, xid: &Xid, place: usize, written: Option<usize>, turn: CallRow)
        requires written { ListedAt self.old.writes xid.now written }
        requires stands { BranchStandsAt self.old.tables.branches.branches xid.now place }
        requires turn { (c : AnyCall) × IsTurn self.old xid.now c turn }
        ensures { TakesTurn self.old self.new xid.now turn }
    {
        self.states.finish(place, turn.to);
        note(&mut self.heuristics, xid, turn.entry);
        if is_let_go(turn.to) {
            self.writes.remove_at(written);
            self.locks.release(xid);
        }
    }

    /// A start or an end of a thread's work in a branch. An end with TMSUCCESS or TMFAIL takes no memory.
    pub fn work_call(
        &mut self,
        verb: Verb,
        thread: u32,
        xid: &Xid,
        flags: Flags,
    ) -> Result<Code, AllocError>
        requires { is_work_verb verb ≡ true }
        ensures answer { IfOk result (λ answer. (wanted : Wanted) → MovesTables self.old self.new
            (λ old new. AnswersCall wanted old new verb thread xid.now flags.0 answer)) }
        ensures err { OnErr result ((leaves (legal verb flags.0) ≡ false) × SameKeyStore self.old self.new) }
    {
        self.states.work_call(verb, thread, xid, flags)
    }

    /// A new branch begins that no thread is in. False: it is known, or 1,024 are; nothing changed, nor does
    /// want of memory.
    pub fn begin_idle(&mut self, xid: &Xid) -> Result<bool, AllocError>
        ensures begun { IfOk result (λ begun. MovesTables self.old self.new
            (λ old new. BeginsIdle old new xid.now begun)) }
        ensures err { OnErr result (SameKeyStore self.old self.new) }
    {
        self.states.begin_idle(xid)
    }

    /// Does an operation for a branch at work; a value that was read is let go. TooLong, Locked,
    /// TooManyWrites, in this order. A refusal changes nothing.
    fn work_for(&mut self, xid: &Xid, op: &Op) -> Result<(), WorkError>
        requires works { (is_let_go (state_of self.old xid.now) ≡ false)
            × (is_spoiled (state_of self.old xid.now) ≡ false) }
        ensures ok { OnOk result (DoesOperation self.old self.new xid.now op.now) }
        ensures err { IfErr result (λ e. IsRefusedWork self.old self.new
            (op_refusal self.old xid.now op.now) e) }
    {
        match op {
            Op::Put(key, value) => self.write_for(xid, key.as_slice(), Some(value.as_slice())),
            Op::Delete(key) => self.write_for(xid, key.as_slice(), None),
            Op::Get(key) => {
                let _value = self.read_for(xid, key.as_slice())?;
                Ok(())
            }
        }
    }

    /// An idle branch can only be rolled back from now on.
    fn spoil(&mut self, xid: &Xid)
        requires { state_of self.old xid.now ≡ BranchState.S2 }
        ensures { MovesTables self.old self.new (λ old new. TakesTableRow old new xid.now BranchState.S4) }
    {
        if let Some((place, _)) = self.states.find(xid) {
            self.states.finish(place, BranchState::S4);
        }
    }

    /// An idle branch does an operation, and no thread is in it. False: it was refused, and the branch can
    /// only be rolled back. Memory: nothing changed.
    pub fn work_idle(&mut self, xid: &Xid, op: &Op) -> Result<bool, AllocError>
        requires { state_of self.old xid.now ≡ BranchState.S2 }
        ensures ok { IfOk result (KeyStoreWorksIdle self.old self.new xid.now op.now) }
        ensures err { OnErr result (SameKeyStore self.old self.new) }
    {
        match self.work_for(xid, op) {
            Ok(()) => Ok(true),
            Err(WorkError::Memory) => Err(AllocError),
            Err(_) => {
                self.spoil(xid);
                Ok(false)
            }
        }
    }

    /// Opens the manager, which migrates associations or not.
    pub fn open(&mut self, flags: Flags, migrates: bool) -> Code
        ensures { MovesTables self.old self.new (λ old new. OpensManager old new flags.0 migrates result) }
    {
        self.states.open(flags, migrates)
    }

    /// Closes the manager.
    pub fn close(&mut self, flags: Flags) -> Code
        ensures { MovesTables self.old self.new (λ old new. Closes old new flags.0 result) }
    {
        self.states.close(flags)
    }

    /// A scan of the branches in doubt.
    pub fn recover(
        &mut self,
        thread: u32,
        count: u32,
        flags: Flags,
    ) -> Result<Result<Vec<Xid>, Code>, AllocError>
        ensures answer { IfOk result (λ answer. MovesTables self.old self.new
            (λ old new. Recovers old new thread count flags.0 (map_ok answer))) }
        ensures err { OnErr result (SameKeyStore self.old self.new) }
    {
        self.states.recover(thread, count, flags)
    }
}
