//! The records that a key store writes of a branch.

ghost use Rattle.std.specs.Prelude.{◌≡◌, IfOk};
ghost use Rattle.protocol_words.specs.kind;
ghost use Rattle.protocol.specs.declared.records.BranchName.{BranchName as AnyBranch};
ghost use Rattle.log_text.specs.Branches.{entry_under};
ghost use Rattle.log_text.specs.Made.{frame_record};
ghost use Rattle.log_text.specs.Parts.{name_in};
ghost use Rattle.log_rules.specs.sound.Sound.{IsSound, IsSoundName};
ghost use Rattle.kv_calls.specs.Turns.{IsEntry, applies, entry_of, entry_record, has_writes, heur_entry};
ghost use Rattle.protocol.specs.ManagerRows.{presumption_of};

use log_text::{BranchEntry, Frame, name_in};
use protocol::{BranchName, Outcome, Presumption, ProcessId, Write};
use std::alloc::{AllocError, Global};
use xa_xid::Xid;

/// A record of a branch.
#[derive(Clone, Copy, PartialEq, Eq)]
pub enum BranchRecord {
    /// The branch promised, with its writes.
    Prepared,
    /// A prepared branch committed.
    Committed,
    /// A prepared branch rolled back.
    RolledBack,
    /// The branch committed in one phase, with its writes.
    Direct,
    /// An operator decided that a prepared branch commits.
    HeurCommit,
    /// An operator decided that a prepared branch rolls back.
    HeurRollback,
    /// A branch that an operator decided was told this outcome.
    Told(Outcome),
    /// An operator's decision may be forgotten.
    Forgot,
}

/// The whole name of an XID.
fn name_of(xid: &Xid) -> (Option<ProcessId>, BranchName)
    ensures name { result ≡ name_in xid.now }
    ensures sound { IsSoundName result.0 result.1 }
{
    let _parts = xid.parts();
    name_in(xid)
}

/// The branch of an XID: a case, or one that is foreign.
pub fn branch_of(xid: &Xid) -> BranchName
    ensures { result ≡ (name_in xid.now).1 }
{
    name_of(xid).1
}

/// The presumption of a branch: that of its case. One whose XID is of no case is under Presumed Abort.
pub(crate) fn presumption_of(branch: BranchName) -> Presumption
    ensures { result ≡ presumption_of branch }
{
    match branch {
        BranchName::Case(case) => case.txn.presumption,
        BranchName::Foreign(_) => Presumption::PresumeAbort,
    }
}

/// The name that an XID is read as is whole.
fn is_whole_name(xid: &Xid)
    ensures { IsSoundName (name_in xid.now).0 (name_in xid.now).1 }
{
    let _parts = xid.parts();
}

impl BranchRecord {
    /// The record of an operator's decision.
    pub(crate) fn of_decision(outcome: Outcome) -> Self
        ensures { result ≡ heur_entry outcome }
    {
        match outcome {
            Outcome::Committed => BranchRecord::HeurCommit,
            Outcome::Aborted => BranchRecord::HeurRollback,
        }
    }

    /// Whether it makes the branch's writes data.
    pub fn applies(self) -> bool
        ensures { result ≡ applies self }
    {
        matches!(
            self,
            BranchRecord::Committed | BranchRecord::Direct | BranchRecord::HeurCommit
        )
    }

    /// Whether it has the branch's writes.
    pub fn has_writes(self) -> bool
        ensures { result ≡ has_writes self }
    {
        matches!(self, BranchRecord::Prepared | BranchRecord::Direct)
    }

    /// The record of a branch that has written this, but for its name.
    fn with_writes(self, writes: &[Write]) -> BranchEntry<'_>
        ensures { (b : AnyBranch) → entry_under result b ≡ entry_of self b writes.now }
    {
        match self {
            BranchRecord::Prepared => BranchEntry::Prepared(writes),
            BranchRecord::Committed => BranchEntry::Committed,
            BranchRecord::RolledBack => BranchEntry::RolledBack,
            BranchRecord::Direct => BranchEntry::Direct(writes),
            BranchRecord::HeurCommit => BranchEntry::HeurCommit,
            BranchRecord::HeurRollback => BranchEntry::HeurRollback,
            BranchRecord::Told(outcome) => BranchEntry::Told(outcome),
            BranchRecord::Forgot => BranchEntry::Forgot,
        }
    }

    /// The record of a branch that has written this, as it is in a log.
    pub fn frame(self, alloc: Global, xid: &Xid, writes: &[Write]) -> Result<Frame, AllocError>
        requires { IsEntry self writes.now }
        ensures frame { IfOk result (λ frame. frame_record frame ≡ entry_record self xid.now writes.now) }
        ensures sound { IsSound kind.Manager (entry_record self xid.now writes.now) }
    {
        is_whole_name(xid);
        let entry = self.with_writes(writes);
        Frame::of_branch(alloc, &entry, xid)
    }
}
