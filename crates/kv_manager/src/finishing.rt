//! What finishes a branch: the turns of its calls, and of an operator's decision.

ghost use Rattle.std.specs.Prelude.{◌≡◌, ◌<◌, ◌≤◌, ◌+◌, ◌^◌, length, false, true, IfOk, IfErr, OnOk, OnErr, Err, Some, None};
ghost use Rattle.resource_manager.specs.Deciding.{ManagerDecides, ManagerNotDecided};
ghost use Rattle.xa_assoc.specs.Ready.{is_work_verb, leaves};
ghost use Rattle.xa_codes.specs.Codes.{is_own};
ghost use Rattle.kv_manager.specs.Resources.{IsRefusal, sight_of};
ghost use Rattle.kv_manager.specs.Sights.{SameKv};
ghost use Rattle.log_text.specs.Made.{frame_record};
ghost use Rattle.log_text.specs.Payloads.{record_size};
ghost use Rattle.log_records.specs.Sights.{IsRecord};
ghost use Rattle.protocol_words.specs.kind;
ghost use Rattle.kv_store.specs.writes.Writes.{ListedAt, writes_of};
ghost use Rattle.kv_calls.specs.Turns.{IsEntry, applies, decide_turn, entry_record};
ghost use Rattle.xa_branch.specs.Branches.{BranchStandsAt};
ghost use Rattle.xa_tables.specs.declared.call.Call.{Call as AnyCall};
ghost use Rattle.kv_manager.specs.Turns.{KvFinishes, HasWrites, IsDueTurn, KvMakes, DecisionNotTaken, OnlyRoom, KvTakes};

use crate::manager::KvManager;
use kv_calls::{BranchRecord, CallRow};
use log_store::LogStore;
use log_text::Frame;
use protocol::{Outcome, Write};
use resource_manager::DecideError;
use std::alloc::AllocError;
use xa_codes::{Code, Flags};
use xa_tables::{BranchState, Verb};
use xa_xid::Xid;

/// Whether a branch took the turn of a decision, by what the turn answered.
fn decided(answer: Code) -> Result<(), DecideError>
    ensures ok { OnOk result (is_own answer ≡ false) }
    ensures err { IfErr result (IsRefusal answer) }
{
    match answer {
        Code::RmFail => Err(DecideError::Device),
        Code::RmErr => Err(DecideError::Exhausted),
        _ => Ok(()),
    }
}

impl<L: LogStore> KvManager<L> {
    /// What a record has of what its branch has written.
    fn writes_in(&self, xid: &Xid, written: Option<usize>, entry: BranchRecord) -> &[Write]
        requires written { ListedAt self.now.store.writes xid.now written }
        requires some { HasWrites entry (writes_of self.now.store.writes xid.now) }
        ensures record { entry_record entry xid.now result.now
            ≡ entry_record entry xid.now (writes_of self.now.store.writes xid.now) }
        ensures fits { IsEntry entry result.now }
    {
        if entry.has_writes() {
            self.store.writes_at(written)
        } else {
            &[]
        }
    }

    /// The record of a branch, with room for it in the log: all the memory that the log needs.
    fn frame(
        &mut self,
        xid: &Xid,
        written: Option<usize>,
        entry: BranchRecord,
    ) -> Result<Frame, AllocError>
        requires written { ListedAt self.old.store.writes xid.now written }
        requires some { HasWrites entry (writes_of self.old.store.writes xid.now) }
        ensures record { IfOk result (λ frame. frame_record frame ≡ entry_record entry xid.now
            (writes_of self.old.store.writes xid.now)) }
        ensures room { IfOk result (λ frame. record_size (frame_record frame) ≤ self.new.log.room) }
        ensures sound { IfOk result (λ frame. IsRecord kind.Manager (frame_record frame)) }
        ensures stays { OnlyRoom self.old self.new }
    {
        let frame = entry.frame(self.alloc, xid, self.writes_in(xid, written, entry))?;
        self.log.reserve(frame.size())?;
        Ok(frame)
    }

    /// A branch takes a turn whose record leaves the data as they are.
    fn take_noted(
        &mut self,
        xid: &Xid,
        place: usize,
        written: Option<usize>,
        turn: CallRow,
        entry: BranchRecord,
    ) -> Result<Code, AllocError>
        requires due { (c : AnyCall) × IsDueTurn self.old xid.now c turn }
        requires stands { BranchStandsAt self.old.store.tables.branches.branches xid.now place }
        requires written { ListedAt self.old.store.writes xid.now written }
        requires entry { turn.entry ≡ Some entry }
        requires data { applies entry ≡ false }
        ensures answer { IfOk result (KvTakes self.old self.new xid.now turn) }
        ensures err { OnErr result (SameKv self.old self.new) }
    {
        let frame = self.frame(xid, written, entry)?;
        self.store.is_tidy(xid);
        match self.log.write(&frame, turn.is_forced) {
            Ok(()) => {
                self.store.finish(xid, place, written, turn);
                Ok(turn.code)
            }
            Err(_) => Ok(Code::RmFail),
        }
    }

    /// A branch takes a turn that makes its writes data. They are staged before the record is written, and
    /// published after it.
    fn take_committed(
        &mut self,
        xid: &Xid,
        place: usize,
        written: Option<usize>,
        turn: CallRow,
        entry: BranchRecord,
    ) -> Result<Code, AllocError>
        requires due { (c : AnyCall) × IsDueTurn self.old xid.now c turn }
        requires stands { BranchStandsAt self.old.store.tables.branches.branches xid.now place }
        requires written { ListedAt self.old.store.writes xid.now written }
        requires entry { turn.entry ≡ Some entry }
        requires data { applies entry ≡ true }
        requires fits { self.old.store.versions.count + 1 < 2 ^ 63 }
        ensures answer { IfOk result (KvTakes self.old self.new xid.now turn) }
        ensures err { OnErr result (SameKv self.old self.new) }
    {
        let frame = self.frame(xid, written, entry)?;
        self.store.is_tidy(xid);
        self.store.stage(xid, written)?;
        match self.log.write(&frame, turn.is_forced) {
            Ok(()) => {
                self.store.publish();
                self.store.finish(xid, place, written, turn);
                Ok(turn.code)
            }
            Err(_) => Ok(Code::RmFail),
        }
    }

    /// A branch takes the turn of a call that no check refuses, or of an operator's decision.
    fn take(
        &mut self,
        xid: &Xid,
        place: usize,
        written: Option<usize>,
        turn: CallRow,
    ) -> Result<Code, AllocError>
        requires due { (c : AnyCall) × IsDueTurn self.old xid.now c turn }
        requires stands { BranchStandsAt self.old.store.tables.branches.branches xid.now place }
        requires written { ListedAt self.old.store.writes xid.now written }
        ensures answer { IfOk result (KvTakes self.old self.new xid.now turn) }
        ensures err { OnErr result (SameKv self.old self.new) }
    {
        match turn.entry {
            None => {
                self.store.finish(xid, place, written, turn);
                Ok(turn.code)
            }
            Some(entry) if !entry.applies() => self.take_noted(xid, place, written, turn, entry),
            Some(_) if !self.store.has_numbers() => Ok(Code::RmErr),
            Some(entry) => self.take_committed(xid, place, written, turn, entry),
        }
    }

    /// A prepare, commit, rollback or forget.
    fn finish(&mut self, verb: Verb, xid: &Xid, flags: Flags) -> Result<Code, AllocError>
        requires { is_work_verb verb ≡ false }
        ensures answer { IfOk result (KvFinishes self.old self.new verb xid.now flags.0) }
        ensures err { OnErr result (SameKv self.old self.new) }
    {
        if self.failed() {
            return Ok(Code::RmFail);
        }
        match self.store.due(verb, xid, flags) {
            Ok((place, written, turn)) => self.take(xid, place, written, turn),
            Err(refusal) => Ok(refusal),
        }
    }

    /// A branch promises, with what it has written; one that wrote nothing is ended. RmFail: the manager has
    /// failed, or its device fails now. Inval, Async: the flags. Proto: it is not open. Inval: the null XID.
    /// NotA: the branch is not known. Proto: a thread is in it, or its state has no such row. All but a
    /// failure now change nothing, nor does want of memory. The thread is not looked at.
    pub fn prepare(&mut self, _thread: u32, xid: &Xid, flags: Flags) -> Result<Code, AllocError>
        ensures answer { IfOk result (KvFinishes self.old self.new Verb.Prepare xid.now flags.0) }
        ensures err { OnErr result (SameKv self.old self.new) }
    {
        self.finish(Verb::Prepare, xid, flags)
    }

    /// A prepared branch commits, or with TMONEPHASE one that is not prepared. One that an operator decided
    /// answers by the decision, and the first outcome that it is told is noted. The refusals are
    /// those of `prepare`; RmErr: 2^63 - 1 commits are counted, and nothing changed.
    pub fn commit(&mut self, _thread: u32, xid: &Xid, flags: Flags) -> Result<Code, AllocError>
        ensures answer { IfOk result (KvFinishes self.old self.new Verb.Commit xid.now flags.0) }
        ensures err { OnErr result (SameKv self.old self.new) }
    {
        self.finish(Verb::Commit, xid, flags)
    }

    /// A branch rolls back; one that an operator decided as at `commit`. The refusals are those of `prepare`.
    pub fn rollback(&mut self, _thread: u32, xid: &Xid, flags: Flags) -> Result<Code, AllocError>
        ensures answer { IfOk result (KvFinishes self.old self.new Verb.Rollback xid.now flags.0) }
        ensures err { OnErr result (SameKv self.old self.new) }
    {
        self.finish(Verb::Rollback, xid, flags)
    }

    /// An operator's decision about a branch is forgotten. The refusals are those of `prepare`.
    pub fn forget(&mut self, _thread: u32, xid: &Xid, flags: Flags) -> Result<Code, AllocError>
        ensures answer { IfOk result (KvFinishes self.old self.new Verb.Forget xid.now flags.0) }
        ensures err { OnErr result (SameKv self.old self.new) }
    {
        self.finish(Verb::Forget, xid, flags)
    }

    /// An operator decides a prepared branch, without its parent: the decision is forced, and stands until
    /// it is forgotten. The manager need not be open. Failed, then NotInDoubt: nothing changed. Memory:
    /// nothing changed. Exhausted: 2^63 - 1 commits are counted; nothing changed. Device: it fails now.
    pub fn decide(&mut self, xid: &Xid, outcome: Outcome) -> Result<(), DecideError>
        ensures ok { OnOk result (ManagerDecides (sight_of self.old) (sight_of self.new) xid.now outcome) }
        ensures turn { OnOk result (KvMakes self.old self.new xid.now (decide_turn outcome)) }
        ensures err { IfErr result (ManagerNotDecided (sight_of self.old) (sight_of self.new)
            xid.now outcome) }
        ensures no_turn { IfErr result (DecisionNotTaken self.old self.new xid.now outcome) }
    {
        if self.failed() {
            return Err(DecideError::Failed);
        }
        let Some((place, state)) = self.store.find(xid) else {
            return Err(DecideError::NotInDoubt);
        };
        if state != BranchState::S3 {
            return Err(DecideError::NotInDoubt);
        }
        self.store.reserve_decision()?;
        let written = self.store.writes_place(xid);
        let answer = self.take(xid, place, written, CallRow::decide(outcome))?;
        decided(answer)
    }
}
