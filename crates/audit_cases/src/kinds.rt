//! Which records a case has, and what follows.

ghost use Rattle.std.specs.Prelude.{◌≡◌, ◌||◌};
ghost use Rattle.protocol.specs.Nodes.{role_by};
ghost use Rattle.audit_cases.specs.Kinds.{decided_in, decision_in, kinds_after, line_in, no_kinds, own_in};

use protocol::{Kind, Outcome, ProcessId, Record};

/// How a case stands by its own records, as a line of an audit says it.
#[derive(Clone, Copy, PartialEq, Eq)]
pub enum Own {
    /// It committed.
    Commit,
    /// It aborted.
    Abort,
    /// It collects votes.
    Collecting,
    /// It promised, and no more.
    InDoubt,
    /// An operator committed it.
    HeurCommit,
    /// An operator rolled it back.
    HeurRollback,
}

/// Which records a case has, at a manager from its last Prepared on. Any of them may be missing, and what a
/// log may not hold together is not asked here.
#[derive(Clone, Copy, PartialEq, Eq)]
pub struct Kinds {
    pub collecting: bool,
    pub prepare: bool,
    pub commit: bool,
    pub abort: bool,
    pub ended: bool,
    pub prepared: bool,
    pub committed: bool,
    pub rolled_back: bool,
    pub heur_commit: bool,
    pub heur_rollback: bool,
    pub told_commit: bool,
    pub told_abort: bool,
    pub forgot: bool,
}

impl Kinds {
    /// No record.
    pub fn none() -> Kinds
        ensures { result ≡ no_kinds }
    {
        Kinds {
            collecting: false,
            prepare: false,
            commit: false,
            abort: false,
            ended: false,
            prepared: false,
            committed: false,
            rolled_back: false,
            heur_commit: false,
            heur_rollback: false,
            told_commit: false,
            told_abort: false,
            forgot: false,
        }
    }

    /// One record more of the case. What was before a Prepared is of no account after it.
    pub fn note(&mut self, record: &Record)
        ensures { self.new ≡ kinds_after self.old record.now }
    {
        match record {
            Record::Collecting(..) => self.collecting = true,
            Record::Prepare(..) => self.prepare = true,
            Record::Commit(..) => self.commit = true,
            Record::Abort(..) => self.abort = true,
            Record::End(..) => self.ended = true,
            Record::Prepared(..) => {
                *self = Kinds::none();
                self.prepared = true;
            }
            Record::Committed(_) => self.committed = true,
            Record::RolledBack(_) => self.rolled_back = true,
            Record::HeurCommit(_) => self.heur_commit = true,
            Record::HeurRollback(_) => self.heur_rollback = true,
            Record::Told(_, Outcome::Committed) => self.told_commit = true,
            Record::Told(_, Outcome::Aborted) => self.told_abort = true,
            Record::Forgot(_) => self.forgot = true,
            Record::Cleared(_)
            | Record::Direct(..)
            | Record::Opened(_)
            | Record::Base(_)
            | Record::Pair(..) => (),
        }
    }

    /// Whether the case promised.
    fn promised(self) -> bool
        ensures { result ≡ self.prepared || self.prepare }
    {
        self.prepared || self.prepare
    }

    /// The case's own decision, or what it was told; none where it is in doubt, or ended with no decision,
    /// as one whose children all voted READ. A case that collects votes and has not come further will abort.
    pub fn decision(self) -> Option<Outcome>
        ensures { result ≡ decision_in self }
    {
        if self.committed || self.commit || self.told_commit {
            return Some(Outcome::Committed);
        }
        if self.rolled_back || self.told_abort || self.abort {
            return Some(Outcome::Aborted);
        }
        if self.promised() || self.ended {
            return None;
        }
        Some(Outcome::Aborted)
    }

    /// How the case stands: an operator's decision before its own, a decision before a promise.
    pub fn own(self) -> Own
        ensures { result ≡ own_in self }
    {
        if self.heur_commit {
            Own::HeurCommit
        } else if self.heur_rollback {
            Own::HeurRollback
        } else if self.committed || self.commit {
            Own::Commit
        } else if self.rolled_back || self.abort {
            Own::Abort
        } else if self.promised() {
            Own::InDoubt
        } else {
            Own::Collecting
        }
    }

    /// Whether an operator decided it so.
    pub fn is_decided(self, outcome: Outcome) -> bool
        ensures { result ≡ decided_in self outcome }
    {
        match outcome {
            Outcome::Committed => self.heur_commit,
            Outcome::Aborted => self.heur_rollback,
        }
    }

    /// Whether the case has a line, at a process of this kind with this parent: at the root where it is
    /// decided, or collects votes and did not end; below it where it promised, at a manager unless it is
    /// forgotten.
    pub fn has_line(self, kind: Kind, parent: Option<ProcessId>) -> bool
        ensures { result ≡ line_in (role_by kind parent) self }
    {
        match (kind, parent) {
            (_, None) => self.commit || self.abort || (self.collecting && !self.ended),
            (Kind::Coordinator, Some(_)) => self.prepare,
            (Kind::Manager, Some(_)) => self.prepared && !self.forgot,
        }
    }
}
