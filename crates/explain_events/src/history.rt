//! A run, and in which event each of its steps was made.

use log_store::MemoryStore;
use protocol::{
    Act, Case, Envelope, Event, Message, Outcome, ProcessId, RecordKind, Subject, Ticket, Txn,
};
use report_io::Failure;
use std::alloc::Global;
use tree_engine::Run;
use tree_journal::ShownStep;
use tree_world::World;

/// A run up to an event that is refused, its events, and how many steps had been made after each.
#[derive(Clone, Copy)]
pub(crate) struct History<'a> {
    pub(crate) world: &'a World<MemoryStore>,
    /// The events of the script.
    pub(crate) events: &'a [Event],
    /// How many steps were made when each of the events before the refused one was made.
    pub(crate) steps: &'a [usize],
}

/// Makes these events in a tree that has just opened, up to the first that is refused; and adds how many
/// steps had been made after each.
pub(crate) fn play(
    alloc: Global,
    run: &mut Run,
    events: &[Event],
    steps: &mut Vec<usize>,
) -> Result<(), Failure> {
    for event in events {
        run.make(event.copied(alloc)?)?;
        if run.refusal().is_some() {
            return Ok(());
        }
        steps.push(run.world().made())?;
    }
    Ok(())
}

/// Whether a step began this transaction.
fn begins(shown: &ShownStep, txn: Txn) -> bool {
    shown.begun == Some(txn)
}

/// Whether a step told the application how this transaction ended.
fn tells(shown: &ShownStep, txn: Txn) -> bool {
    match shown.told {
        Some(told) => told.txn == txn,
        None => false,
    }
}

/// Whether a step wrote a record of this kind of this case.
fn writes(shown: &ShownStep, case: Case, kind: RecordKind) -> bool {
    shown.written.iter().any(|logged| logged.kind == kind && logged.subject == Subject::Case(case))
}

/// Whether a message gives out this ticket for this transaction.
fn is_ticket(message: &Message, txn: Txn, ticket: Ticket) -> bool {
    match message {
        Message::Joined(case, given) => case.txn == txn && *given == ticket,
        _ => false,
    }
}

/// Whether a message gives out a ticket of this child for this transaction: which.
fn ticket_of(message: &Message, txn: Txn, child: ProcessId) -> Option<Ticket> {
    match message {
        Message::Joined(case, given) if case.txn == txn && given.child == child => Some(*given),
        _ => None,
    }
}

/// Whether a message asks this case for its vote.
fn is_prepare(message: &Message, case: Case) -> bool {
    match message {
        Message::Prepare(asked, _) => *asked == case,
        _ => false,
    }
}

impl<'a> History<'a> {
    /// The number of the event in which a step was made, from 1.
    pub(crate) fn event_of(&self, step: usize) -> u64 {
        let before = self
            .steps
            .iter()
            .take_while(|steps| **steps <= step)
            .count();
        (before as u64).saturating_add(1)
    }

    /// The first event in which such a step was made.
    fn event_with(&self, wanted: Wanted) -> Option<u64> {
        for step in 0..self.world.made() {
            if let Some(shown) = self.world.shown(step) {
                if wanted.is(&shown) {
                    return Some(self.event_of(step));
                }
            }
        }
        None
    }

    /// The event that began a transaction.
    pub(crate) fn begun(&self, txn: Txn) -> Option<u64> {
        self.event_with(Wanted::Begins(txn))
    }

    /// The event in which the application was told how a transaction ended.
    pub(crate) fn told(&self, txn: Txn) -> Option<u64> {
        self.event_with(Wanted::Tells(txn))
    }

    /// The event in which a record of this kind of this case was written.
    pub(crate) fn written(&self, case: Case, kind: RecordKind) -> Option<u64> {
        self.event_with(Wanted::Writes(case, kind))
    }

    /// The event in which a ticket was given out for a transaction.
    pub(crate) fn joined(&self, txn: Txn, ticket: Ticket) -> Option<u64> {
        self.event_with(Wanted::GivesTicket(txn, ticket))
    }

    /// The event in which a case was asked for its vote.
    pub(crate) fn prepared(&self, case: Case) -> Option<u64> {
        self.event_with(Wanted::Prepares(case))
    }

    /// The last ticket that a child gave out for a transaction.
    pub(crate) fn ticket(&self, txn: Txn, child: ProcessId) -> Option<Ticket> {
        let mut found = None;
        for step in 0..self.world.made() {
            let Some(shown) = self.world.shown(step) else {
                return found;
            };
            let given = last_ticket(shown.messages, txn, child);
            if given.is_some() {
                found = given;
            }
        }
        found
    }

    /// How many messages were sent.
    pub(crate) fn sent(&self) -> u64 {
        let mut sent: u64 = 0;
        for step in 0..self.world.made() {
            let Some(shown) = self.world.shown(step) else {
                return sent;
            };
            sent = sent.saturating_add(shown.messages.len() as u64);
        }
        sent
    }

    /// The first event, of those before the refused one, that asked for a transaction's end, and for which.
    pub(crate) fn asked(&self, txn: Txn) -> Option<(Outcome, u64)> {
        let made = self.events.iter().take(self.steps.len());
        for (place, event) in made.enumerate() {
            let number = (place as u64).saturating_add(1);
            match event {
                Event::Act(Act::Commit(asked)) if *asked == txn => {
                    return Some((Outcome::Committed, number));
                }
                Event::Act(Act::Abort(asked)) if *asked == txn => {
                    return Some((Outcome::Aborted, number));
                }
                _ => continue,
            }
        }
        None
    }
}

/// The last ticket that one of these messages gives out for a transaction, of this child.
fn last_ticket(messages: &[Envelope], txn: Txn, child: ProcessId) -> Option<Ticket> {
    let mut found = None;
    for envelope in messages {
        if let Some(ticket) = ticket_of(&envelope.message, txn, child) {
            found = Some(ticket);
        }
    }
    found
}

/// What a step is looked for that does it.
#[derive(Clone, Copy)]
enum Wanted {
    Begins(Txn),
    Tells(Txn),
    Writes(Case, RecordKind),
    GivesTicket(Txn, Ticket),
    Prepares(Case),
}

impl Wanted {
    /// Whether a step does it.
    fn is(self, shown: &ShownStep) -> bool {
        match self {
            Wanted::Begins(txn) => begins(shown, txn),
            Wanted::Tells(txn) => tells(shown, txn),
            Wanted::Writes(case, kind) => writes(shown, case, kind),
            Wanted::GivesTicket(txn, ticket) => shown
                .messages
                .iter()
                .any(|envelope| is_ticket(&envelope.message, txn, ticket)),
            Wanted::Prepares(case) => shown
                .messages
                .iter()
                .any(|envelope| is_prepare(&envelope.message, case)),
        }
    }
}
