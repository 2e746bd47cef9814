//! The live branches by case. The active tickets, by the parent's case, are those of the Active ones.

ghost use Rattle.std.specs.Prelude.{◌≡◌, [], true, None, Some, IfOk, IsSome, OnErr, OnOk, option_copied};
ghost use Rattle.case_table.specs.Tables.{FindsKey, entry_at, live_count, value_at};
ghost use Rattle.protocol.specs.Names.{child_case};
ghost use Rattle.sub_branches.specs.declared.branch.LiveBranch.{LiveBranch as AnyBranch};
ghost use Rattle.sub_branches.specs.declared.branch.BranchStage.TheVariants as stage;
ghost use Rattle.sub_branches.specs.Tables.{IsGivenFor, IsBranchTable, NotesStage, OpensBranch, Restores, Retires, SameTable, branch_in, entry_ticket, has_promised, is_for, nothing, opened, promised, ticket_in};

use crate::branch::{BranchStage, LiveBranch};
use case_table::LiveTable;
use protocol::{Case, Outcome, Ticket};
use std::alloc::{AllocError, Global};
use std::marker::Model;
use xa_xid::Xid;

/// The live branches. A ticket is active while its branch is: the branch has the case for which it was given.
pub struct LiveBranches {
    branches: LiveTable<LiveBranch>,
}

// For the proof: what is let go by hand is proved here alone, and not again by each crate above.
impl Drop for LiveBranches {
    fn drop(self) {
        let LiveBranches { branches: _ } = self;
    }
}

impl Model for LiveBranches {
    ghost use Rattle.sub_branches.specs.Tables.{BranchTable, IsBranchTable, tickets_of};

    ghost Value = { BranchTable };

    ghost view = { λ t. record { tickets = tickets_of t.branches; branches = t.branches } };

    ghost invariant = { λ t. IsBranchTable (record { tickets = tickets_of t.branches; branches = t.branches }) };
}

/// Whether the ticket of a branch is active, and was given for this case of the parent.
fn is_for(branch: &LiveBranch, case: &Case) -> bool
    ensures { result ≡ is_for case.now branch.now.stage }
{
    match branch.stage {
        BranchStage::Active { given_for, .. } => given_for.is(case),
        _ => false,
    }
}

/// The ticket of the case under the key.
fn ticket_at(branches: &LiveTable<LiveBranch>, key: usize) -> Option<Ticket>
    ensures { result ≡ entry_ticket (entry_at branches.now key) }
{
    match branches.case_at(key) {
        None => None,
        Some(case) => case.ticket,
    }
}

impl LiveBranches {
    /// No branches. It takes no memory.
    pub fn new(alloc: Global) -> LiveBranches
        ensures tickets { result.tickets ≡ [] }
        ensures branches { result.branches ≡ [] }
    {
        LiveBranches {
            branches: LiveTable::new(alloc),
        }
    }

    /// How many cases are live.
    pub fn len(&self) -> usize
        ensures count { result ≡ live_count self.now.branches }
        ensures kept { IsBranchTable self.now }
    {
        self.branches.len()
    }

    /// The key of the case, if it is live.
    pub fn find(&self, case: &Case) -> Option<usize>
        ensures finds { FindsKey self.now.branches case.now result }
        ensures kept { IsBranchTable self.now }
    {
        self.branches.find(case)
    }

    /// What is kept under the key.
    pub fn get(&self, key: usize) -> Option<&LiveBranch>
        ensures { option_copied result ≡ value_at self.now.branches key }
    {
        self.branches.get(key)
    }

    /// The active ticket that was given for the parent's case.
    pub fn ticket_for(&self, case: &Case) -> Option<Ticket>
        ensures is { result ≡ ticket_in self.now case.now }
        ensures kept { IsBranchTable self.now }
    {
        let parent = *case;
        let found = self.branches.find_by(
            &case.txn,
            |branch: &LiveBranch| -> bool
                ensures { result ≡ is_for parent branch.now.stage }
            { is_for(branch, &parent) },
        );
        match found {
            None => None,
            Some(key) => ticket_at(&self.branches, key),
        }
    }

    /// The case of a fresh ticket is live now, which was just given for the parent's case; this is its key.
    /// Memory: nothing changed.
    pub fn open(&mut self, given_for: Case, ticket: Ticket, xid: Xid) -> Result<usize, AllocError>
        requires fresh { branch_in self.old (child_case given_for.txn ticket) ≡ None }
        requires ungiven { ticket_in self.old given_for ≡ None }
        ensures ok { OnOk result (OpensBranch self.old self.new given_for ticket xid) }
        ensures at { IfOk result (λ key. entry_at self.new.branches key
            ≡ Some (child_case given_for.txn ticket, opened xid given_for)) }
        ensures err { OnErr result (SameTable self.old self.new) }
    {
        let case = Case {
            txn: given_for.txn,
            ticket: Some(ticket),
        };
        let branch = LiveBranch {
            xid,
            stage: BranchStage::Active {
                given_for,
                done: 0,
                spoiled: false,
            },
        };
        self.branches.insert(case, branch)
    }

    /// A case that is not live is live again, with what is kept of it: it promised before a restart. Memory:
    /// nothing changed.
    pub fn restore(&mut self, case: Case, branch: LiveBranch) -> Result<(), AllocError>
        requires fresh { branch_in self.old case ≡ None }
        requires promised { has_promised branch.stage ≡ true }
        ensures ok { OnOk result (Restores self.old self.new case branch) }
        ensures err { OnErr result (self.new ≡ self.old) }
    {
        let _ = self.branches.insert(case, branch)?;
        Ok(())
    }

    /// An Active branch goes on: N works are done, and one was refused or not. It takes no memory.
    pub fn note(&mut self, key: usize, given_for: Case, done: u64, spoiled: bool)
        requires { (b : AnyBranch) × (value_at self.old.branches key ≡ Some b)
            × IsGivenFor given_for b.stage }
        ensures { NotesStage self.old self.new key (stage.Active given_for done spoiled) }
    {
        match self.branches.get_mut(key) {
            Some(branch) => {
                branch.stage = BranchStage::Active {
                    given_for,
                    done,
                    spoiled,
                };
            }
            None => unreachable!(),
        }
    }

    /// A branch promised: its ticket is active no longer. It takes no memory.
    pub fn promise(&mut self, key: usize)
        requires { IsSome (entry_at self.old.branches key) }
        ensures { Retires self.old self.new key promised }
    {
        match self.branches.get_mut(key) {
            Some(branch) => {
                branch.stage = BranchStage::Prepared;
            }
            None => unreachable!(),
        }
    }

    /// An operator decided a branch that promised, and it was told this outcome since. It takes no memory.
    pub fn decide(&mut self, key: usize, told: Option<Outcome>)
        requires { (b : AnyBranch) × (value_at self.old.branches key ≡ Some b)
            × (has_promised b.stage ≡ true) }
        ensures { NotesStage self.old self.new key (stage.Heuristic told) }
    {
        match self.branches.get_mut(key) {
            Some(branch) => {
                branch.stage = BranchStage::Heuristic { told };
            }
            None => unreachable!(),
        }
    }

    /// A branch is live no longer, nor is its ticket active. It takes no memory.
    pub fn remove(&mut self, key: usize)
        requires { IsSome (entry_at self.old.branches key) }
        ensures { Retires self.old self.new key nothing }
    {
        let _ = self.branches.remove(key);
    }
}
