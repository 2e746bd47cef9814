//! What became of each message, by its number.

ghost use Rattle.std.specs.Prelude.{◌≡◌, ◌+◌, ◌<◌, ◌⊎◌, ◌++◌, [], IsTrue, OnOk, OnErr, IfSome, IfNone, Some, length, map, slice_get, true};
ghost use Rattle.cluster_journal.specs.Journals.{marked_by};
ghost use Rattle.cluster_journal.specs.Marks.{
  AreAllDelivered,
  IsNextOpen,
  NoneOpen,
  NoneToClaim,
  claimed_to,
  first_open,
  given_back,
  is_to,
  marked,
  sent_to,
};
ghost use Rattle.cluster_journal.specs.declared.marks.Delivery.TheVariants as kinds;

use crate::adding::add_all;
use crate::queues::{Queues, claim_for, is_claimed, open_from, picked, set_mark};
use indexmap::IndexSet;
use protocol::{Envelope, Happening, Input, ProcessId};
use std::alloc::{AllocError, Global};
use std::marker::Model;

/// What became of a message.
#[derive(Clone, Copy, PartialEq, Eq)]
pub enum Delivery {
    /// Nobody delivers it.
    Open,
    /// Somebody delivers it now.
    Claimed,
    /// It was delivered.
    Delivered,
}

/// A message's receiver, and what became of the message.
#[derive(Clone, Copy)]
pub struct MarkedMessage {
    /// Its receiver.
    pub to: ProcessId,
    /// What became of it.
    pub mark: Delivery,
}

/// A message that somebody delivers now.
#[derive(Clone, Copy, PartialEq, Eq)]
pub struct Claim {
    /// Its number, from 1.
    pub number: u64,
    /// Its receiver.
    pub to: ProcessId,
}

/// A mark for each message in order of sending, and a queue for each process. Contracts see the list of
/// marks.
#[derive(Drop)]
pub(crate) struct Deliveries {
    pub(crate) marks: Vec<MarkedMessage>,
    /// The receivers' names, each at its receiver's place.
    pub(crate) names: IndexSet<ProcessId>,
    pub(crate) queues: Queues,
}

impl Model for Deliveries {
    ghost use Rattle.std.specs.Prelude.{◌≡◌, List};
    ghost use Rattle.cluster_journal.specs.declared.marks.MarkedMessage.{MarkedMessage as AnyMarked};
    ghost use Rattle.cluster_journal.specs.Marks.{AreQueued, processes_of};

    ghost Value = { List AnyMarked };

    ghost view = { λ m. m.marks.items };

    ghost invariant = { λ m. AreQueued m.marks.items m.queues
        × (m.names.keys ≡ processes_of m.queues.receivers.items) };
}

impl Deliveries {
    /// No marks. It takes no memory.
    pub(crate) fn new(alloc: Global) -> Deliveries
        ensures { result ≡ [] }
    {
        Deliveries {
            marks: Vec::new(alloc),
            names: IndexSet::new(alloc),
            queues: Queues::new(alloc),
        }
    }

    /// These messages more, which are open. A refusal for memory changes nothing.
    pub(crate) fn extend(&mut self, messages: &[Envelope]) -> Result<(), AllocError>
        ensures ok { OnOk result (self.new ≡ self.old ++ map sent_to messages.now) }
        ensures err { OnErr result (self.new ≡ self.old) }
    {
        self.marks.reserve(messages.len())?;
        self.names.reserve(messages.len())?;
        self.queues.reserve(messages.len())?;
        add_all(&mut self.marks, &mut self.names, &mut self.queues, messages);
        Ok(())
    }

    /// Claims the first open message of a process to which nobody delivers: of this process, if it has one,
    /// or else of the one with the most. Only there all receivers are gone through.
    pub(crate) fn claim(&mut self, near: ProcessId) -> Option<Claim>
        ensures found { IfSome result (λ c. (first_open c.to 1 self.old ≡ Some c.number)
            × (claimed_to c.to self.old ≡ 0) × (self.new ≡ marked self.old c.number kinds.Claimed)) }
        ensures none { IfNone result (NoneToClaim self.old × (self.new ≡ self.old)) }
    {
        let near = self.names.get_index_of(&near);
        match picked(&self.queues.receivers, self.queues.free, near) {
            None => None,
            Some(place) => Some(claim_for(&mut self.marks, &mut self.queues, place)),
        }
    }

    /// Whether each message is delivered.
    pub(crate) fn are_delivered(&self) -> bool
        ensures { IsTrue result → AreAllDelivered self.now }
    {
        self.queues.undelivered == 0
    }

    /// How many messages are open at processes to which nobody delivers.
    pub(crate) fn waiting(&self) -> usize {
        self.queues.waiting
    }

    /// How many messages to this process are open.
    pub(crate) fn waiting_for(&self, to: ProcessId) -> usize {
        match self.names.get_index_of(&to) {
            None => 0,
            Some(place) => self.queues.receivers[place].waiting,
        }
    }

    /// The number of the next open message to this process after the one with this number. It goes along the
    /// chain of the messages to this process, from that one on, if it is one of these.
    pub(crate) fn open_after(&self, to: ProcessId, number: u64) -> Option<u64>
        ensures { IfSome result (λ next. IsNextOpen to number next self.now) }
    {
        let start = self.start_of(to, number)?;
        match open_from(&self.marks, &self.queues, start, number as usize, to) {
            None => None,
            Some(place) => Some(place as u64 + 1),
        }
    }

    /// The place of a message to this process, from which the next open one after this number is found: of
    /// the message with this number, if it is one, or of the first of the process's queue. None: there is no
    /// open message after that number.
    fn start_of(&self, to: ProcessId, number: u64) -> Option<usize>
        ensures { IfSome result (λ place. (number < length self.now)
            × (is_to to (slice_get self.now place) ≡ true) × NoneOpen to self.now number place) }
    {
        if number >= self.marks.len() as u64 {
            return None;
        }
        if let Some(place) = place_of(number, self.marks.len()) {
            if self.marks[place].to.0 == to.0 {
                return Some(place);
            }
        }
        let place = self.names.get_index_of(&to)?;
        Some(self.queues.receivers[place].first)
    }

    /// The message with this number is delivered, if there is one.
    fn deliver(&mut self, number: u64)
        ensures { self.new ≡ marked self.old number kinds.Delivered }
    {
        if let Some(place) = place_of(number, self.marks.len()) {
            set_mark(
                &mut self.marks,
                &mut self.queues,
                place,
                Delivery::Delivered,
            );
        }
    }

    /// This has happened: a message that it delivers is delivered.
    pub(crate) fn note(&mut self, happening: &Happening)
        ensures { self.new ≡ marked_by happening.now self.old }
    {
        if let Happening::Input(Input::Message(number, _)) = happening {
            self.deliver(*number);
        }
    }

    /// The message with this number is open again, if it is claimed.
    pub(crate) fn give_back(&mut self, number: u64)
        ensures { self.new ≡ given_back self.old number }
    {
        if let Some(place) = place_of(number, self.marks.len()) {
            if is_claimed(self.marks[place].mark) {
                set_mark(&mut self.marks, &mut self.queues, place, Delivery::Open);
            }
        }
    }
}

/// The place of the message with this number, among N.
fn place_of(number: u64, marks: usize) -> Option<usize>
    ensures found { IfSome result (λ place. (place < marks) × (number ≡ place + 1)) }
    ensures none { IfNone result ((number ≡ 0) ⊎ (marks < number)) }
{
    if number == 0 || number > marks as u64 {
        None
    } else {
        Some((number - 1) as usize)
    }
}
