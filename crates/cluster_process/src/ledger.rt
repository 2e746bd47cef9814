//! What lies under the journal's lock.

ghost use Rattle.std.specs.Prelude.{◌≡◌, ◌<◌, ℕ, [], IfOk, IfSome, IfNone, IsTrue, OnOk, None, Some};
ghost use Rattle.std.specs.Option.{option_copied};
ghost use Rattle.protocol.specs.Plays.{sent_as};
ghost use Rattle.protocol.specs.Trees.{IsTree};
ghost use Rattle.tree_state.specs.Cuts.{net_of};
ghost use Rattle.proof_cuts.specs.Owns.{CutHolds};
ghost use Rattle.cluster_ties.specs.Views.{AreBelow, entries_in, keeper, pairs_by};
ghost use Rattle.cluster_journal.specs.Journals.{AllDelivered};
ghost use Rattle.cluster_journal.specs.Marks.{IsNextOpen, NoneToClaim};
ghost use Rattle.cluster_process.specs.Locked.{IsClaimed};

use crate::pass::Pass;
use cluster_journal::ClusterJournal;
use cluster_ties::seats::{Place, Seats, Ties};
use cluster_ties::ties::{look, meet};
use cluster_turns::ClosedJournal;
use protocol::{Envelope, ProcessId};
use std::alloc::{AllocError, Global};
use std::marker::{Model, PhantomData};

/// How busy the workers are. No contract speaks of it.
#[derive(Clone, Copy, PartialEq, Eq)]
pub(crate) struct Turns {
    /// N messages are claimed.
    claims: usize,
    /// N workers wait for a message.
    sleepers: usize,
    /// N of them were called since one last woke.
    called: usize,
}

impl Turns {
    /// Nothing is claimed, and nobody waits.
    pub(crate) fn none() -> Turns {
        Turns {
            claims: 0,
            sleepers: 0,
            called: 0,
        }
    }
}

/// A worker is woken for N messages that are open at processes to which nobody delivers.
const MESSAGES_A_WORKER: usize = 8;

/// A message that somebody delivers now: its number, its receiver, and whether there is more to do than those
/// who are awake have in hand.
#[derive(Clone, Copy, PartialEq, Eq)]
pub struct PassClaim {
    /// The number of the message.
    pub number: u64,
    /// Its receiver.
    pub to: ProcessId,
    /// Whether there is enough to do for one worker more.
    pub wakes: bool,
}

/// The journal, and its seat. To a contract it is its entries, each with its caller's number, and the marks
/// of its messages.
pub struct Ledger<N: Seats> {
    pub(crate) journal: ClusterJournal,
    pub(crate) seat: Place,
    pub(crate) turns: Turns,
    pub(crate) name: PhantomData<N>,
}

// For the proof: what is let go by hand is proved here alone, and not again by each crate above.
impl<N: Seats> Drop for Ledger<N> {
    fn drop(self) {
        let Ledger {
            journal: _,
            seat: _,
            turns: _,
            name: _,
        } = self;
    }
}

impl<N: Seats> Model for Ledger<N> {
    ghost use Rattle.std.specs.Prelude.{◌≡◌, []};
    ghost use Rattle.protocol.specs.Trees.{IsTree};
    ghost use Rattle.cluster_journal.specs.Journals.{ClusterState};
    ghost use Rattle.cluster_ties.specs.Views.{entries_in, keeper};
    ghost use Rattle.cluster_process.specs.Locked.{HasCut};

    ghost Value = { ClusterState };

    ghost view = { λ l. l.journal };

    ghost invariant = { λ l. (l.seat.table_id ≡ N.table)
        × (l.seat.me ≡ (
          keeper l.seat.me.0.journal.names l.seat.me.0.journal.opened
              l.seat.me.0.journal.given l.journal.entries,
          [],
        ))
        × IsTree N.tree
        × HasCut N.tree (entries_in l.journal.entries)
        × (l.seat.me.0.journal.given ≡ N.callers) };
}

impl<N: Seats> Ledger<N> {
    /// A journal without entries.
    pub fn new(alloc: Global, seat: Place) -> Ledger<N>
        requires here { seat.table_id ≡ N.table }
        requires seat { seat.me ≡ (
          keeper seat.me.0.journal.names seat.me.0.journal.opened
              seat.me.0.journal.given [],
          [],
        ) }
        requires tree { IsTree N.tree }
        requires callers { seat.me.0.journal.given ≡ N.callers }
        ensures { result.entries ≡ [] }
    {
        Ledger {
            journal: ClusterJournal::new(alloc),
            seat,
            turns: Turns::none(),
            name: PhantomData,
        }
    }

    /// Whoever has the journal knows: it is a run of the tree, of which the headline holds, and in which
    /// mismatches are reported.
    pub fn is_a_run(&self)
        ensures { CutHolds N.tree (entries_in self.now.entries) }
    {
        let _ = self.journal.len();
    }

    /// Places every entry, so that its messages are found.
    pub fn place(&mut self) -> Result<(), AllocError>
        ensures entries { self.new.entries ≡ self.old.entries }
        ensures ok { OnOk result (self.new.late ≡ 0) }
    {
        self.journal.place()
    }

    /// The message with this number, where all entries are placed.
    pub fn message(&self, number: u64) -> Option<&Envelope>
        requires { self.now.late ≡ 0 }
        ensures { option_copied result ≡ sent_as (net_of (entries_in self.now.entries)) number }
    {
        self.journal.message(number)
    }

    /// Claims the first open message of a process to which nobody delivers, if there is one: of this process,
    /// if it has one. None: each process has no open message, or somebody delivers another to it. Where a
    /// gate holds steps, a worker is to be woken for each message that is left. Memory: a growth was refused.
    pub fn claim(&mut self, near: ProcessId, holds: bool) -> Result<Option<PassClaim>, AllocError>
        ensures entries { self.new.entries ≡ self.old.entries }
        ensures placed { OnOk result (self.new.late ≡ 0) }
        ensures found { IfOk result (λ r. IfSome r (λ c. IsClaimed c.to c.number self.new.marks)) }
        ensures none { IfOk result (λ r. IfNone r (NoneToClaim self.new.marks)) }
    {
        self.journal.place()?;
        let Some(claim) = self.journal.claim(near) else {
            return Ok(None);
        };
        self.turns.claims = self.turns.claims.saturating_add(1);
        let wakes = self.is_much(holds);
        if wakes {
            self.turns.called = self.turns.called.saturating_add(1);
        }
        Ok(Some(PassClaim {
            number: claim.number,
            to: claim.to,
            wakes,
        }))
    }

    /// The number of the next open message to this process after the one with this number, of those that are
    /// placed.
    pub(crate) fn open_after(&self, to: ProcessId, number: u64) -> Option<u64>
        ensures { IfSome result (λ next. IsNextOpen to number next self.now.marks) }
    {
        self.journal.open_after(to, number)
    }

    /// How many messages to this process are open, of those that are placed.
    pub(crate) fn waiting_for(&self, to: ProcessId) -> usize {
        self.journal.waiting_for(to)
    }

    /// Whether a worker that waits was not called, and enough messages are left for it. Where a gate holds
    /// steps, one is enough.
    fn is_much(&self, holds: bool) -> bool {
        if self.turns.sleepers <= self.turns.called {
            return false;
        }
        let waiting = self.journal.waiting();
        if holds {
            waiting > 0
        } else {
            waiting >= MESSAGES_A_WORKER
        }
    }

    /// A claim has ended: its message was delivered, or it was given back.
    pub fn end_claim(&mut self)
        ensures { self.new ≡ self.old }
    {
        self.turns.claims = self.turns.claims.saturating_sub(1);
    }

    /// The claim of this message is given back: it is open again, if it was not delivered.
    pub fn give_back(&mut self, claim: PassClaim)
        ensures { self.new.entries ≡ self.old.entries }
    {
        self.journal.give_back(claim.number);
        self.end_claim();
    }

    /// A worker begins to wait for a message.
    pub fn sleep(&mut self)
        ensures { self.new ≡ self.old }
    {
        self.turns.sleepers = self.turns.sleepers.saturating_add(1);
    }

    /// A worker waits no longer.
    pub fn wake(&mut self)
        ensures { self.new ≡ self.old }
    {
        self.turns.sleepers = self.turns.sleepers.saturating_sub(1);
        self.turns.called = 0;
    }

    /// Whether nobody delivers a message.
    pub fn is_quiet(&self) -> bool {
        self.turns.claims == 0
    }

    /// Whether each message of the journal is delivered, where all entries are placed.
    pub fn is_settled(&self) -> bool
        requires { self.now.late ≡ 0 }
        ensures { IsTrue result → AllDelivered self.now.entries }
    {
        self.journal.are_delivered()
    }

    /// The pass's pairs are just those of the journal's entries under its caller's number, with their places.
    pub fn meets(&mut self, ties: &Ties, pass: &mut Pass<N>)
        requires { (ties.now.shared.table_id ≡ N.table) × (0 < N.table.words) }
        ensures met { pass.old.pairs ≡ pairs_by pass.old.caller 0 self.old.entries }
        ensures same { (self.new ≡ self.old) × (pass.new ≡ pass.old) }
    {
        meet(ties, &mut self.seat, &mut pass.seat);
    }

    /// Whoever has the journal knows: each entry is under the number of one of the callers.
    pub fn callers_are_known(&mut self, ties: &Ties)
        requires { (ties.now.shared.table_id ≡ N.table) × (0 < N.table.words) }
        ensures known { AreBelow N.callers self.old.entries }
        ensures same { self.new ≡ self.old }
    {
        look(ties, &mut self.seat);
    }

    /// The journal, as plain data, where all turns are placed.
    pub fn into_journal(self) -> ClosedJournal
        requires { self.late ≡ 0 }
        ensures same { result ≡ self.entries }
        ensures run { CutHolds N.tree (entries_in result) }
    {
        let Ledger {
            journal,
            seat: _,
            turns: _,
            name: _,
        } = self;
        ClosedJournal::new(journal.into_turns())
    }
}
