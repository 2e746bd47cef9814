//! How a branch ends: refused at PREPARE, aborted, or committed.

ghost use Rattle.std.specs.Prelude.{◌≡◌, ◌==◌, ◌&&◌, [], not, Bool, ℕ, false, IfErr, IfOk};
ghost use Rattle.protocol_words.specs.Types.{AnyCase};
ghost use Rattle.protocol_words.specs.message;
ghost use Rattle.protocol.specs.declared.records.RecordKind.TheVariants as kind;
ghost use Rattle.sub_branches.specs.Tables.{IsBranchTable};
ghost use Rattle.sub_process.specs.Subordinates.{Hears, IsAt, NotHeard, acknowledged, active, outcome_reply, prepared, seen};
ghost use Rattle.sub_work.specs.Replies.{shown};

use crate::subordinate::Subordinate;
use process_state::one_message;
use protocol::{
    Case, Envelopes, Findings, Message, Outcome, ProcessId, Reaction, RecordKind, Sequence,
    StepError,
};
use resource_manager::ResourceManager;
use std::alloc::{AllocError, Global};
use sub_work::{commit, logged, reply, rollback, silence};
use xa_xid::Xid;

/// The acknowledgement of an outcome, with what was found, where the outcome has one.
fn acknowledgement(
    alloc: Global,
    me: ProcessId,
    parent: ProcessId,
    case: Case,
    outcome: Outcome,
    findings: Findings,
) -> Result<Envelopes, AllocError>
    ensures { IfOk result (λ messages. messages ≡ acknowledged me parent case outcome findings) }
{
    if outcome.is_acknowledged(case.txn.presumption) {
        one_message(alloc, me, parent, Message::Ack(case, outcome, findings))
    } else {
        Ok(Sequence::new(alloc))
    }
}

/// The record of an outcome, and its acknowledgement, with what was found.
pub(crate) fn ends_by(
    alloc: Global,
    me: ProcessId,
    parent: ProcessId,
    case: Case,
    kind: RecordKind,
    outcome: Outcome,
    findings: Findings,
) -> Result<Reaction, AllocError>
    ensures { IfOk result (λ reaction. reaction ≡ outcome_reply kind case outcome findings me parent) }
{
    let forced = outcome.is_acknowledged(case.txn.presumption);
    let written = logged(alloc, kind, case, forced)?;
    let messages = acknowledgement(alloc, me, parent, case, outcome, findings)?;
    Ok(Reaction {
        written,
        messages,
        ..silence(alloc)
    })
}

/// The acknowledgement of an outcome alone, with what was found.
pub(crate) fn acknowledges(
    alloc: Global,
    me: ProcessId,
    parent: ProcessId,
    case: Case,
    outcome: Outcome,
    findings: Findings,
) -> Result<Reaction, AllocError>
    ensures { IfOk result (λ reaction. reaction ≡ shown [] (acknowledged me parent case outcome findings)) }
{
    let messages = acknowledgement(alloc, me, parent, case, outcome, findings)?;
    Ok(Reaction {
        messages,
        ..silence(alloc)
    })
}

impl<M: ResourceManager> Subordinate<M> {
    /// PREPARE of an Active case that has not done all its works, or was refused one: NO, and it is rolled
    /// back.
    pub(crate) fn refuse(
        &mut self,
        key: usize,
        case: Case,
        works: u64,
        xid: &Xid,
    ) -> Result<Reaction, StepError>
        requires up { (M.sight self.old.manager).log.failed ≡ false }
        requires at { (g : AnyCase) × (n : ℕ) × (p : Bool)
            × IsAt self.old.table key case (active xid.now g n p)
            × (((n == works) && not p) ≡ false) }
        ensures ok { IfOk result (Hears (seen M.sight self.old) (seen M.sight self.new)
            (message.Prepare case works)) }
        ensures err { IfErr result (NotHeard (seen M.sight self.old) (seen M.sight self.new)
            (message.Prepare case works)) }
    {
        let reaction = reply(self.alloc, self.me, self.parent, Message::No(case))?;
        match rollback(&mut self.manager, xid) {
            Ok(()) => {
                self.branches.remove(key);
                Ok(reaction)
            }
            Err(error) => Err(error),
        }
    }

    /// ABORT of an Active case.
    pub(crate) fn abort_active(
        &mut self,
        key: usize,
        case: Case,
        xid: &Xid,
    ) -> Result<Reaction, StepError>
        requires up { (M.sight self.old.manager).log.failed ≡ false }
        requires at { (g : AnyCase) × (n : ℕ) × (p : Bool)
            × IsAt self.old.table key case (active xid.now g n p) }
        ensures ok { IfOk result (Hears (seen M.sight self.old)
            (seen M.sight self.new) (message.Abort case)) }
        ensures err { IfErr result (NotHeard (seen M.sight self.old)
            (seen M.sight self.new) (message.Abort case)) }
    {
        let found = Sequence::new(self.alloc);
        let reaction = acknowledges(
            self.alloc,
            self.me,
            self.parent,
            case,
            Outcome::Aborted,
            found,
        )?;
        match rollback(&mut self.manager, xid) {
            Ok(()) => {
                self.branches.remove(key);
                Ok(reaction)
            }
            Err(error) => Err(error),
        }
    }

    /// ABORT of a case in doubt.
    pub(crate) fn abort_prepared(
        &mut self,
        key: usize,
        case: Case,
        xid: &Xid,
    ) -> Result<Reaction, StepError>
        requires up { (M.sight self.old.manager).log.failed ≡ false }
        requires at { IsAt self.old.table key case (prepared xid.now) }
        requires kept { IsBranchTable self.old.table }
        ensures ok { IfOk result (Hears (seen M.sight self.old)
            (seen M.sight self.new) (message.Abort case)) }
        ensures err { IfErr result (NotHeard (seen M.sight self.old)
            (seen M.sight self.new) (message.Abort case)) }
    {
        let reaction = ends_by(
            self.alloc,
            self.me,
            self.parent,
            case,
            RecordKind::RolledBack,
            Outcome::Aborted,
            Sequence::new(self.alloc),
        )?;
        match rollback(&mut self.manager, xid) {
            Ok(()) => {
                self.branches.remove(key);
                Ok(reaction)
            }
            Err(error) => Err(error),
        }
    }

    /// COMMIT of a case in doubt.
    pub(crate) fn commit_prepared(
        &mut self,
        key: usize,
        case: Case,
        xid: &Xid,
    ) -> Result<Reaction, StepError>
        requires up { (M.sight self.old.manager).log.failed ≡ false }
        requires at { IsAt self.old.table key case (prepared xid.now) }
        requires kept { IsBranchTable self.old.table }
        ensures ok { IfOk result (Hears (seen M.sight self.old)
            (seen M.sight self.new) (message.Commit case)) }
        ensures err { IfErr result (NotHeard (seen M.sight self.old)
            (seen M.sight self.new) (message.Commit case)) }
    {
        let reaction = ends_by(
            self.alloc,
            self.me,
            self.parent,
            case,
            RecordKind::Committed,
            Outcome::Committed,
            Sequence::new(self.alloc),
        )?;
        match commit(&mut self.manager, xid) {
            Ok(()) => {
                self.branches.remove(key);
                Ok(reaction)
            }
            Err(error) => Err(error),
        }
    }
}
