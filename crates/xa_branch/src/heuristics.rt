//! The branches that operators decided.

ghost use Rattle.std.specs.Prelude.{◌≡◌, ◌≤◌, [], None, Some, OnErr, OnOk, is_some, true};
ghost use Rattle.xa_branch.specs.Decisions.{decided_as, told_behind};
ghost use Rattle.xa_branch.specs.Cases.{NotesDecision, SameDecisions, decision_in, decision_or, open_cases};

use crate::decision::Decision;
use indexmap::IndexMap;
use protocol::Outcome;
use std::alloc::{AllocError, Global};
use std::marker::Model;
use xa_xid::Xid;

/// What operators decided of branches, and what these were told since, in order of their decisions.
#[derive(Drop)]
pub struct Heuristics {
    decisions: IndexMap<Xid, Decision>,
}

impl Model for Heuristics {
    ghost use Rattle.indexmap.specs.IndexMap.{spare};
    ghost use Rattle.xa_branch.specs.Cases.{DecisionTable};

    ghost Value = { DecisionTable };

    ghost view = { λ h. record { decisions = h.decisions.entries; room = spare h.decisions } };
}

impl Heuristics {
    /// No decisions. It takes no memory.
    pub fn new(alloc: Global) -> Self
        ensures { result.decisions ≡ [] }
    {
        Heuristics {
            decisions: IndexMap::new(alloc),
        }
    }

    /// The branches that operators decided and that are not forgotten, in order of their decisions.
    pub fn open_cases(&self) -> &[Xid]
        ensures { result.now ≡ open_cases self.now }
    {
        self.decisions.keys().as_slice()
    }

    /// What an operator decided of a branch, and what it was told since.
    pub fn decision(&self, xid: &Xid) -> Option<Decision>
        ensures { result ≡ decision_in self.now xid.now }
    {
        if self.decisions.is_empty() {
            return None;
        }
        self.decisions.get(xid).copied()
    }

    /// What an operator decided of a branch, and what it was told since. If none decided it, what this
    /// gives says nothing.
    pub fn known(&self, xid: &Xid) -> Decision
        ensures { result ≡ decision_or (decision_in self.now xid.now) }
    {
        self.decision(xid)
            .unwrap_or(Decision::new(Outcome::Aborted))
    }

    /// Makes room for one decision more. Memory: nothing changed.
    pub fn reserve(&mut self) -> Result<(), AllocError>
        ensures stays { self.new.decisions ≡ self.old.decisions }
        ensures room { OnOk result (1 ≤ self.new.room) }
    {
        self.decisions.reserve(1)
    }

    /// An operator decides a branch, which was told nothing yet. It takes no memory.
    pub fn decide(&mut self, xid: &Xid, outcome: Outcome)
        requires { 1 ≤ self.old.room }
        ensures { NotesDecision self.old self.new xid.now (Some (decided_as outcome)) }
    {
        let _ = self.decisions.insert(*xid, Decision::new(outcome)).unwrap();
    }

    /// A decided branch is told an outcome: the first one counts. It takes no memory.
    pub fn told(&mut self, xid: &Xid, outcome: Outcome)
        requires { is_some (decision_in self.old xid.now) ≡ true }
        ensures { NotesDecision self.old self.new xid.now
            (Some (told_behind outcome (decision_or (decision_in self.old xid.now)))) }
    {
        let decision = self.known(xid).told_behind(outcome);
        let _ = self.decisions.insert(*xid, decision).unwrap();
    }

    /// The decision of a branch is forgotten. It takes no memory.
    pub fn forget(&mut self, xid: &Xid)
        ensures { NotesDecision self.old self.new xid.now None }
    {
        let _ = self.decisions.shift_remove(xid);
    }

    /// A decision that a log says an operator made. Memory: nothing changed.
    pub fn restore(&mut self, xid: &Xid, decision: Decision) -> Result<(), AllocError>
        ensures ok { OnOk result (NotesDecision self.old self.new xid.now (Some decision)) }
        ensures err { OnErr result (SameDecisions self.old self.new) }
    {
        self.decisions.insert(*xid, decision)?;
        Ok(())
    }
}
