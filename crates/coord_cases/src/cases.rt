//! The live cases of a coordinator.

ghost use Rattle.std.specs.Prelude.{◌≡◌, false, true, None, Some, IsSome, OnOk, OnErr, [], option_copied};
ghost use Rattle.std.specs.Borrow.{sem};
ghost use Rattle.std.specs.Option.{option_copied_mut};
ghost use Rattle.case_table.specs.Tables.{AreApart, case_of, entry_at, live_count, live_value};
ghost use Rattle.protocol.specs.Names.{root_case};
ghost use Rattle.coord_cases.specs.Cases.{BeginsCase, EndsCase, FindsCase, FindsChild, FitsGiven, GivesTicket, IsFreshTicket, Puts, Restores, Retires, entry_ticket, has_child, is_for, live_at, ticket_in};

use crate::held::Held;
use case_table::LiveTable;
use coord_case::Live;
use protocol::{Case, Standing, Ticket, Txn};
use std::alloc::{AllocError, Global};
use std::marker::Model;

/// The live cases of a coordinator.
pub struct LiveCases {
    table: LiveTable<Held>,
}

// For the proof: what is let go by hand is proved here alone, and not again by each crate above.
impl Drop for LiveCases {
    fn drop(self) {
        let LiveCases { table: _ } = self;
    }
}

impl Model for LiveCases {
    ghost use Rattle.coord_cases.specs.Cases.{FitsGiven, Slots};

    ghost Value = { Slots };

    ghost view = { λ t. t.table };

    ghost invariant = { λ t. FitsGiven t.table };
}

/// Whether the case is live, and the ticket is a child's of it.
fn has_child(held: &Held, ticket: &Ticket) -> bool
    ensures { result ≡ has_child held.now.live ticket.now }
{
    match held.live.standing() {
        Standing::Unknown => false,
        _ => held.live.knows(ticket),
    }
}

/// Whether the ticket was given for this case of the parent.
fn is_for(held: &Held, case: &Case) -> bool
    ensures { result ≡ is_for case.now held.now.given_for }
{
    match held.given_for {
        None => false,
        Some(parent) => parent.is(case),
    }
}

/// The ticket of the case under the key.
fn ticket_at(table: &LiveTable<Held>, key: usize) -> Option<Ticket>
    ensures { result ≡ entry_ticket (entry_at table.now key) }
{
    match table.case_at(key) {
        None => None,
        Some(case) => case.ticket,
    }
}

/// Holds this of the case, in place of what was held of it, if anything was. Memory: nothing changed.
fn put(table: &mut LiveTable<Held>, case: Case, held: Held) -> Result<(), AllocError>
    ensures ok { OnOk result (Puts table.old table.new case held) }
    ensures err { OnErr result (table.new ≡ table.old) }
{
    match table.find(&case) {
        None => {
            let _ = table.insert(case, held)?;
            Ok(())
        }
        Some(key) => match table.get_mut(key) {
            Some(before) => {
                *before = held;
                Ok(())
            }
            None => unreachable!(),
        },
    }
}

impl LiveCases {
    ghost use Rattle.coord_cases.specs.Lends.{lends_live};

    /// No cases. It takes no memory.
    pub fn new(alloc: Global) -> LiveCases
        ensures { result ≡ [] }
    {
        LiveCases {
            table: LiveTable::new(alloc),
        }
    }

    /// How many cases are live.
    pub fn len(&self) -> usize
        ensures count { result ≡ live_count self.now }
        ensures apart { AreApart self.now }
    {
        self.table.len()
    }

    /// The key of the case, if it is live.
    pub fn find(&self, case: &Case) -> Option<usize>
        ensures finds { FindsCase self.now case.now result }
        ensures apart { AreApart self.now }
        ensures fits { FitsGiven self.now }
    {
        self.table.find(case)
    }

    /// The key of the live case of the transaction that has the child's ticket: it is accepted, or a record
    /// names it.
    pub fn find_child(&self, txn: &Txn, ticket: &Ticket) -> Option<usize>
        ensures finds { FindsChild self.now txn.now ticket.now result }
        ensures apart { AreApart self.now }
        ensures fits { FitsGiven self.now }
    {
        let child = *ticket;
        self.table.find_by(
            txn,
            |held: &Held| -> bool
                ensures { result ≡ has_child held.now.live child }
            { has_child(held, &child) },
        )
    }

    /// The active ticket that was given for the parent's case.
    pub fn ticket_for(&self, case: &Case) -> Option<Ticket>
        ensures { result ≡ ticket_in self.now case.now }
    {
        let parent = *case;
        let found = self.table.find_by(
            &case.txn,
            |held: &Held| -> bool
                ensures { result ≡ is_for parent held.now.given_for }
            { is_for(held, &parent) },
        );
        match found {
            None => None,
            Some(key) => ticket_at(&self.table, key),
        }
    }

    /// Which case is live under the key.
    pub fn case_at(&self, key: usize) -> Option<Case>
        ensures { result ≡ case_of (entry_at self.now key) }
    {
        self.table.case_at(key)
    }

    /// The live case under the key.
    pub fn get(&self, key: usize) -> Option<&Live>
        ensures { option_copied result ≡ live_at self.now key }
    {
        match self.table.get(key) {
            None => None,
            Some(held) => Some(&held.live),
        }
    }

    /// The live case under the key, to be changed in its place.
    pub fn get_mut(&mut self, key: usize) -> Option<&mut Live>
        ensures* writes_back { sem 𝓛 (lends_live self.entry key result) }
        ensures value { option_copied_mut result ≡ live_at self.old key }
        ensures apart { AreApart self.old }
        ensures fits { FitsGiven self.old }
    {
        match self.table.get_mut(key) {
            Some(held) => Some(&mut held.live),
            None => None,
        }
    }

    /// The case of a transaction begins, without a ticket. One of its name that was live, which only a log
    /// has that no run left, is forgotten. Memory: nothing changed.
    pub fn begin(&mut self, alloc: Global, txn: Txn) -> Result<(), AllocError>
        ensures ok { OnOk result (BeginsCase self.old self.new (root_case txn)) }
        ensures err { OnErr result (self.new ≡ self.old) }
    {
        let case = Case { txn, ticket: None };
        let held = Held {
            given_for: None,
            live: Live::open(alloc),
        };
        put(&mut self.table, case, held)?;
        Ok(())
    }

    /// A case that was not live is live again as it is. Memory: nothing changed.
    pub fn restore(&mut self, case: Case, live: Live) -> Result<(), AllocError>
        requires { live_value self.old case ≡ None }
        ensures ok { OnOk result (Restores self.old self.new case live) }
        ensures err { OnErr result (self.new ≡ self.old) }
    {
        let held = Held {
            given_for: None,
            live,
        };
        let _ = self.table.insert(case, held)?;
        Ok(())
    }

    /// The case of a ticket begins, which was just given for the parent's case. One of its name that was
    /// live, which only a log has that no run left, is forgotten. Memory: nothing changed.
    pub fn give(&mut self, alloc: Global, parent: Case, ticket: Ticket) -> Result<(), AllocError>
        requires fresh { IsFreshTicket self.old ticket }
        requires ungiven { ticket_in self.old parent ≡ None }
        ensures ok { OnOk result (GivesTicket self.old self.new parent ticket) }
        ensures err { OnErr result (self.new ≡ self.old) }
    {
        let case = Case {
            txn: parent.txn,
            ticket: Some(ticket),
        };
        let held = Held {
            given_for: Some(parent),
            live: Live::open(alloc),
        };
        put(&mut self.table, case, held)?;
        Ok(())
    }

    /// The ticket of the case under the key is active no longer. It takes no memory.
    pub fn retire(&mut self, key: usize)
        requires { IsSome (entry_at self.old key) }
        ensures { Retires self.old self.new key }
    {
        match self.table.get_mut(key) {
            Some(held) => held.given_for = None,
            None => unreachable!(),
        }
    }

    /// The case under the key is no longer live, nor is its ticket active. It takes no memory.
    pub fn remove(&mut self, key: usize)
        requires { IsSome (entry_at self.old key) }
        ensures { EndsCase self.old self.new key }
    {
        let _ = self.table.remove(key);
    }
}
