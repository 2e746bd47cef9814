//! The records of a log.

ghost use Rattle.std.specs.Prelude.{◌≡◌, IfOk};
ghost use Rattle.protocol.specs.LogNames.{case_parent};
ghost use Rattle.protocol.specs.Records.{branch_case, case_subject, kind_of, record_case, subject_of};

use crate::lists::Sequence;
use crate::names::{Case, Outcome, ProcessId, Tickets};
use short_bytes::Bytes;
use std::alloc::{AllocError, Global};
use xa_xid::Xid;

/// A branch at a manager: a case of the tree, or a transaction manager's own XID that reads back as no case.
#[derive(Clone, Copy, PartialEq, Eq)]
pub enum BranchName {
    Case(Case),
    Foreign(Xid),
}

/// What a branch leaves at a key: a value, or nothing.
#[derive(Drop)]
pub struct Write {
    pub key: Bytes,
    pub value: Option<Bytes>,
}

impl Write {
    /// A copy of the write.
    pub fn copied(&self, alloc: Global) -> Result<Write, AllocError>
        ensures { IfOk result (λ copy. copy ≡ self.now) }
    {
        Ok(Write {
            key: self.key.copied(alloc)?,
            value: match &self.value {
                None => None,
                Some(value) => Some(value.copied(alloc)?),
            },
        })
    }
}

/// A copy of the writes.
fn copied_writes(alloc: Global, writes: &[Write]) -> Result<Writes, AllocError>
    ensures { IfOk result (λ copy. copy ≡ writes.now) }
{
    let mut copy = Vec::new(alloc);
    for write in writes {
        copy.push(write.copied(alloc)?)?;
    }
    Ok(Sequence::from_vec(copy))
}

/// The writes of a branch in order of each key's first write, each key once.
pub type Writes = Sequence<Write>;

/// What the root's case found as the last acknowledgement came: the tickets whose operators decided against
/// the outcome, and those of which nothing is known.
#[derive(Drop)]
pub struct Reports {
    pub mixed: Tickets,
    pub unreported: Tickets,
}

impl Reports {
    /// A copy of the reports.
    pub fn copied(&self, alloc: Global) -> Result<Reports, AllocError>
        ensures { IfOk result (λ copy. copy ≡ self.now) }
    {
        Ok(Reports {
            mixed: self.mixed.copied(alloc)?,
            unreported: self.unreported.copied(alloc)?,
        })
    }
}

/// A record of a log: Opened at each process, Collecting to Cleared at coordinators, Prepared to Pair at
/// managers.
#[derive(Drop)]
pub enum Record {
    /// The process opened with this boot.
    Opened(u64),
    /// Presumed Commit asks these accepted children for votes.
    Collecting(Case, Tickets),
    /// A cascaded coordinator promised; these children voted yes.
    Prepare(Case, Tickets),
    /// The case commits; these children owe an acknowledgement.
    Commit(Case, Tickets),
    /// The case aborts; these children owe an acknowledgement.
    Abort(Case, Tickets),
    /// Nobody owes an acknowledgement any more. The root writes down what was found, if anything was.
    End(Case, Option<Reports>),
    /// What the root's case found was seen to.
    Cleared(Case),
    /// A branch promised, with its writes.
    Prepared(BranchName, Writes),
    Committed(BranchName),
    RolledBack(BranchName),
    /// A branch committed in one phase.
    Direct(BranchName, Writes),
    /// The operator committed a prepared branch.
    HeurCommit(BranchName),
    /// The operator rolled a prepared branch back.
    HeurRollback(BranchName),
    /// The outcome that a heuristically decided branch was told.
    Told(BranchName, Outcome),
    /// The heuristic decision may be forgotten.
    Forgot(BranchName),
    /// The data are empty, and N commits were made.
    Base(u64),
    /// The key has this value.
    Pair(Bytes, Bytes),
}

/// A record as a log holds it, with its name whole. A log names a case by its XID, which below the root has
/// the parent too; so two names that differ in the parent alone are two.
#[derive(Drop)]
pub struct LogRecord {
    pub entry: Record,
    /// The parent of the record's case; none of a root's case, of a foreign XID, and where no name stands.
    pub parent: Option<ProcessId>,
}

impl BranchName {
    /// The case that the branch is, if it is one.
    pub fn case(&self) -> Option<Case>
        ensures { result ≡ branch_case self.now }
    {
        match self {
            BranchName::Case(case) => Some(*case),
            BranchName::Foreign(_) => None,
        }
    }

    fn subject(&self) -> Subject
        ensures { result ≡ case_subject (branch_case self.now) }
    {
        match self {
            BranchName::Case(case) => Subject::Case(*case),
            BranchName::Foreign(_) => Subject::Other,
        }
    }
}

impl Record {
    /// A copy of the record.
    pub fn copied(&self, alloc: Global) -> Result<Record, AllocError>
        ensures { IfOk result (λ copy. copy ≡ self.now) }
    {
        Ok(match self {
            Record::Opened(boot) => Record::Opened(*boot),
            Record::Collecting(case, tickets) => Record::Collecting(*case, tickets.copied(alloc)?),
            Record::Prepare(case, tickets) => Record::Prepare(*case, tickets.copied(alloc)?),
            Record::Commit(case, tickets) => Record::Commit(*case, tickets.copied(alloc)?),
            Record::Abort(case, tickets) => Record::Abort(*case, tickets.copied(alloc)?),
            Record::End(case, reports) => Record::End(
                *case,
                match reports {
                    None => None,
                    Some(reports) => Some(reports.copied(alloc)?),
                },
            ),
            Record::Cleared(case) => Record::Cleared(*case),
            Record::Prepared(branch, writes) => {
                Record::Prepared(*branch, copied_writes(alloc, writes.as_slice())?)
            }
            Record::Committed(branch) => Record::Committed(*branch),
            Record::RolledBack(branch) => Record::RolledBack(*branch),
            Record::Direct(branch, writes) => {
                Record::Direct(*branch, copied_writes(alloc, writes.as_slice())?)
            }
            Record::HeurCommit(branch) => Record::HeurCommit(*branch),
            Record::HeurRollback(branch) => Record::HeurRollback(*branch),
            Record::Told(branch, outcome) => Record::Told(*branch, *outcome),
            Record::Forgot(branch) => Record::Forgot(*branch),
            Record::Base(count) => Record::Base(*count),
            Record::Pair(key, value) => Record::Pair(key.copied(alloc)?, value.copied(alloc)?),
        })
    }

    /// The case that it is of, if any.
    pub fn case(&self) -> Option<Case>
        ensures { result ≡ record_case self.now }
    {
        match self {
            Record::Collecting(case, _)
            | Record::Prepare(case, _)
            | Record::Commit(case, _)
            | Record::Abort(case, _)
            | Record::End(case, _)
            | Record::Cleared(case) => Some(*case),
            Record::Prepared(branch, _)
            | Record::Committed(branch)
            | Record::RolledBack(branch)
            | Record::Direct(branch, _)
            | Record::HeurCommit(branch)
            | Record::HeurRollback(branch)
            | Record::Told(branch, _)
            | Record::Forgot(branch) => branch.case(),
            Record::Opened(_) | Record::Base(_) | Record::Pair(..) => None,
        }
    }

    /// The parent that a log below that one names with it; none where it is of no case with a ticket.
    pub fn named_parent(&self, parent: Option<ProcessId>) -> Option<ProcessId>
        ensures { result ≡ case_parent parent (record_case self.now) }
    {
        match self.case() {
            Some(case) if case.ticket.is_some() => parent,
            _ => None,
        }
    }

    /// Its kind.
    pub fn kind(&self) -> RecordKind
        ensures { result ≡ kind_of self.now }
    {
        match self {
            Record::Opened(_) => RecordKind::Opened,
            Record::Collecting(..) => RecordKind::Collecting,
            Record::Prepare(..) => RecordKind::Prepare,
            Record::Commit(..) => RecordKind::Commit,
            Record::Abort(..) => RecordKind::Abort,
            Record::End(_, None) => RecordKind::End,
            Record::End(_, Some(_)) => RecordKind::EndMixed,
            Record::Cleared(_) => RecordKind::Cleared,
            Record::Prepared(..) => RecordKind::Prepared,
            Record::Committed(_) => RecordKind::Committed,
            Record::RolledBack(_) => RecordKind::RolledBack,
            Record::Direct(..) => RecordKind::Direct,
            Record::HeurCommit(_) => RecordKind::HeurCommit,
            Record::HeurRollback(_) => RecordKind::HeurRollback,
            Record::Told(..) => RecordKind::Told,
            Record::Forgot(_) => RecordKind::Forgot,
            Record::Base(_) => RecordKind::Base,
            Record::Pair(..) => RecordKind::Pair,
        }
    }

    /// What it is of.
    pub fn subject(&self) -> Subject
        ensures { result ≡ subject_of self.now }
    {
        match self {
            Record::Opened(boot) => Subject::Boot(*boot),
            Record::Collecting(case, _)
            | Record::Prepare(case, _)
            | Record::Commit(case, _)
            | Record::Abort(case, _)
            | Record::End(case, _)
            | Record::Cleared(case) => Subject::Case(*case),
            Record::Prepared(branch, _)
            | Record::Committed(branch)
            | Record::RolledBack(branch)
            | Record::Direct(branch, _)
            | Record::HeurCommit(branch)
            | Record::HeurRollback(branch)
            | Record::Told(branch, _)
            | Record::Forgot(branch) => branch.subject(),
            Record::Base(_) | Record::Pair(..) => Subject::Other,
        }
    }
}

/// The kind of a record, as a trace names it.
#[derive(Clone, Copy, PartialEq, Eq)]
pub enum RecordKind {
    Opened,
    Collecting,
    Prepare,
    Commit,
    Abort,
    End,
    /// An End with what was found.
    EndMixed,
    Cleared,
    Prepared,
    Committed,
    RolledBack,
    Direct,
    HeurCommit,
    HeurRollback,
    Told,
    Forgot,
    Base,
    Pair,
}

/// What a record is of: a boot (Opened), a case, or neither (a foreign branch, Base and Pair).
#[derive(Clone, Copy, PartialEq, Eq)]
pub enum Subject {
    Boot(u64),
    Case(Case),
    Other,
}

/// A record that a step made: what it is of, its kind, and whether it was forced.
#[derive(Clone, Copy, PartialEq, Eq)]
pub struct ShownRecord {
    pub subject: Subject,
    pub kind: RecordKind,
    pub forced: bool,
}
