//! The journal of a cluster.

ghost use Rattle.std.specs.Prelude.{◌≡◌, ◌+◌, ◌-◌, ◌++◌, [], IsTrue, OnOk, OnErr, IfSome, IfNone, None, Some, length};
ghost use Rattle.std.specs.Option.{option_copied};
ghost use Rattle.protocol.specs.Plays.{sent_as};
ghost use Rattle.cluster_turns.specs.Turns.{all_of};
ghost use Rattle.tree_state.specs.Cuts.{net_of};
ghost use Rattle.cluster_journal.specs.Journals.{AllDelivered, entries_of, marked_by_all};
ghost use Rattle.cluster_journal.specs.Marks.{IsNextOpen, NoneToClaim, claimed_to, first_open, given_back, marked};
ghost use Rattle.cluster_journal.specs.Spots.{message_in};
ghost use Rattle.cluster_journal.specs.declared.marks.Delivery.TheVariants as kinds;

use crate::marks::{Claim, Deliveries};
use crate::spots::{Spot, find_rest, spot_at};
use cluster_turns::{Entries, Turn};
use protocol::{Envelope, JournalEntry, ProcessId};
use std::alloc::{AllocError, Global};
use std::collections::LinkedList;
use std::marker::Model;
use std::sync::Wait;

/// Every entry with its caller's number, and what became of each message. It is a list of turns, of which no
/// entry moves.
#[derive(Drop)]
pub struct ClusterJournal {
    /// The turns that are placed, the oldest first.
    placed: Vec<Entries>,
    /// Those after them, each in the node that was made for it.
    late: LinkedList<Entries>,
    /// How many entries all turns have.
    count: usize,
    /// Where each message of the placed turns stands, and of the first entries of the turn after them.
    spots: Vec<Spot>,
    /// Of N entries of that turn the messages were found.
    found: usize,
    /// What became of each of these messages.
    marks: Deliveries,
}

impl Model for ClusterJournal {
    ghost use Rattle.std.specs.Prelude.{◌≡◌, ◌++◌, length};
    ghost use Rattle.cluster_turns.specs.Turns.{all_of};
    ghost use Rattle.cluster_journal.specs.Journals.{AreDelivered, ClusterState};
    ghost use Rattle.cluster_journal.specs.Spots.{AreFound};

    ghost Value = { ClusterState };

    ghost view = { λ j. record {
      entries = all_of j.placed.items ++ all_of j.late;
      late = length j.late;
      marks = j.marks;
    } };

    ghost invariant = { λ j. AreFound j.placed.items j.late j.found j.spots.items
        × (length j.marks ≡ length j.spots.items)
        × AreDelivered j.marks (all_of j.placed.items ++ all_of j.late)
        × (j.count ≡ length (all_of j.placed.items ++ all_of j.late)) };
}

/// How many entries there are with those of a turn. No journal has as many as would fail here.
fn counted<R: Wait>(rt: &R, count: usize, made: usize) -> usize
    ensures { result ≡ count + made }
{
    match count.checked_add(made) {
        Some(count) => count,
        None => {
            for _ in rt.forever() {}
            unreachable!()
        }
    }
}

/// The messages that these entries deliver are marked so.
fn note(marks: &mut Deliveries, made: &[(u64, JournalEntry)])
    ensures { marks.new ≡ marked_by_all made.now marks.old }
{
    for (_, entry) in made {
        marks.note(&entry.step.happening);
    }
}

impl ClusterJournal {
    /// No entries. It takes no memory.
    pub fn new(alloc: Global) -> ClusterJournal
        ensures entries { result.entries ≡ [] }
        ensures marks { result.marks ≡ [] }
    {
        ClusterJournal {
            placed: Vec::new(alloc),
            late: LinkedList::new(alloc),
            count: 0,
            spots: Vec::new(alloc),
            found: 0,
            marks: Deliveries::new(alloc),
        }
    }

    /// How many entries there are.
    pub fn len(&self) -> usize
        ensures { result ≡ length self.now.entries }
    {
        self.count
    }

    /// Places every turn, so that its messages are found. Memory: a growth was refused, and some are not
    /// placed. The entries stay in any case.
    pub fn place(&mut self) -> Result<(), AllocError>
        ensures entries { self.new.entries ≡ self.old.entries }
        ensures ok { OnOk result (self.new.late ≡ 0) }
    {
        for _ in 0..self.late.len() {
            self.place_one()?;
        }
        Ok(())
    }

    /// Places the next turn, if there is one. It goes from one list to the other, and its entries stay where
    /// they are.
    fn place_one(&mut self) -> Result<(), AllocError>
        ensures entries { self.new.entries ≡ self.old.entries }
        ensures ok { OnOk result (self.new.late ≡ self.old.late - 1) }
    {
        let Some(entries) = self.late.front() else {
            return Ok(());
        };
        self.placed.reserve(1)?;
        let place = self.placed.len();
        find_rest(
            &mut self.spots,
            &mut self.marks,
            &mut self.found,
            place,
            entries,
        )?;
        if let Some(turn) = self.late.pop_front() {
            self.placed.push_reserved(turn);
            self.found = 0;
        }
        Ok(())
    }

    /// The message with this number, from 1, where all entries are placed; None if no message has it.
    pub fn message(&self, number: u64) -> Option<&Envelope>
        requires { self.now.late ≡ 0 }
        ensures { option_copied result ≡ sent_as (net_of (entries_of self.now.entries)) number }
    {
        if number == 0 {
            return None;
        }
        match spot_at(&self.spots, (number - 1) as usize) {
            None => None,
            Some(spot) => message_at(&self.placed, spot),
        }
    }

    /// Claims the first open message of a process to which nobody delivers, of those that are placed: of this
    /// process, if it has one, or else of the one with the most.
    pub fn claim(&mut self, near: ProcessId) -> Option<Claim>
        ensures entries { (self.new.entries ≡ self.old.entries) × (self.new.late ≡ self.old.late) }
        ensures found { IfSome result (λ c. (first_open c.to 1 self.old.marks ≡ Some c.number)
            × (claimed_to c.to self.old.marks ≡ 0)
            × (self.new.marks ≡ marked self.old.marks c.number kinds.Claimed)) }
        ensures none { IfNone result (NoneToClaim self.old.marks × (self.new.marks ≡ self.old.marks)) }
    {
        self.marks.claim(near)
    }

    /// The number of the next open message to this process after the one with this number, of those that are
    /// placed.
    pub fn open_after(&self, to: ProcessId, number: u64) -> Option<u64>
        ensures { IfSome result (λ next. IsNextOpen to number next self.now.marks) }
    {
        self.marks.open_after(to, number)
    }

    /// Whether each message is delivered, where all entries are placed.
    pub fn are_delivered(&self) -> bool
        requires { self.now.late ≡ 0 }
        ensures { IsTrue result → AllDelivered self.now.entries }
    {
        self.marks.are_delivered()
    }

    /// How many messages are open at processes to which nobody delivers.
    pub fn waiting(&self) -> usize {
        self.marks.waiting()
    }

    /// How many messages to this process are open.
    pub fn waiting_for(&self, to: ProcessId) -> usize {
        self.marks.waiting_for(to)
    }

    /// Gives back the claim of the message with this number: it is open again, if it was not delivered
    /// meanwhile.
    pub fn give_back(&mut self, number: u64)
        ensures entries { (self.new.entries ≡ self.old.entries) × (self.new.late ≡ self.old.late) }
        ensures marks { self.new.marks ≡ given_back self.old.marks number }
    {
        self.marks.give_back(number);
    }

    /// The entries of a turn more, in the room that was made for it: it takes no memory, and moves none of
    /// them. The messages that they deliver are marked so.
    pub fn enter<R: Wait>(&mut self, rt: &R, made: Turn)
        ensures entries { self.new.entries ≡ self.old.entries ++ made }
        ensures marks { self.new.marks ≡ marked_by_all made self.old.marks }
    {
        let entries = made.entries();
        self.count = counted(rt, self.count, entries.len());
        note(&mut self.marks, entries);
        made.link(rt, &mut self.late);
    }

    /// The turns, as they were made, where all of them are placed. To a contract they are their entries, one
    /// after another, with their callers' numbers.
    pub fn into_turns(self) -> Vec<Entries>
        requires { self.late ≡ 0 }
        ensures { all_of result.items ≡ self.entries }
    {
        self.placed
    }
}

/// The message at this spot, if there is one.
fn message_at(placed: &[Entries], spot: Spot) -> Option<&Envelope>
    ensures { option_copied result ≡ message_in placed.now spot }
{
    let turn = placed.get(spot.turn)?;
    let (_, entry) = turn.get(spot.entry)?;
    entry.reaction.messages.as_slice().get(spot.message)
}
