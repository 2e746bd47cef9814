//! The queue of each process: the open messages to it, in order of sending.
//!
//! Each message is linked to the next one to its receiver, whatever becomes of either, so links of sent
//! messages stay. A queue is what is open along these links, from where its receiver says that it begins: at
//! the first message at first, and after a claim at the claimed one. So a message that is delivered is passed
//! once, and one that is given back is in its place.

ghost use Rattle.std.specs.Prelude.{◌≡◌, ◌≢◌, ◌+◌, ◌<◌, ◌≤◌, ◌⊎◌, ◌∷◌, [], All, HoldsAt, IfNone, IfSome, OnOk, None, Some, count_by, get_or, length, not, slice_get, slice_set, true};
ghost use Rattle.std.specs.Vec.{vec_capacity, vec_len};
ghost use Rattle.cluster_journal.specs.Marks.{
  AreQueued,
  IsFree,
  IsNotFree,
  IsTold,
  NoneOpen,
  claimed_to,
  first_open,
  is_claimed,
  is_delivered,
  is_free,
  is_open,
  is_open_by,
  is_open_to,
  is_to,
  marked,
  one_if,
  processes_of,
};
ghost use Rattle.cluster_journal.specs.declared.marks.Delivery.TheVariants as kinds;

use crate::marks::{Claim, Delivery, MarkedMessage};
use protocol::ProcessId;
use std::alloc::{AllocError, Global};

/// Where a message is among those to its receiver.
#[derive(Clone, Copy)]
pub(crate) struct Link {
    /// The place of its receiver.
    pub(crate) receiver: usize,
    /// The place of the next message to that receiver, if there is one.
    pub(crate) next: Option<usize>,
}

/// A process to which messages were sent, and where its queue stands.
#[derive(Clone, Copy)]
pub(crate) struct Receiver {
    /// Its name.
    pub(crate) process: ProcessId,
    /// The place of a message to it. None to it before that one is open.
    pub(crate) first: usize,
    /// The place of the last message to it.
    pub(crate) last: usize,
    /// N messages to it are open.
    pub(crate) waiting: usize,
    /// N messages to it are claimed: one, or none.
    pub(crate) claimed: usize,
}

/// The queues of all receivers.
#[derive(Drop)]
pub(crate) struct Queues {
    /// The link of each message, in order of sending.
    pub(crate) links: Vec<Link>,
    /// Each process to which a message was sent.
    pub(crate) receivers: Vec<Receiver>,
    /// N receivers are free: a message to each is open, and nobody delivers to it.
    pub(crate) free: usize,
    /// N messages are open at free receivers. No contract speaks of it.
    pub(crate) waiting: usize,
    /// N messages are not delivered.
    pub(crate) undelivered: usize,
}

impl Queues {
    /// No queues. It takes no memory.
    pub(crate) fn new(alloc: Global) -> Queues
        ensures queued { AreQueued [] result }
        ensures names { processes_of result.receivers.items ≡ [] }
    {
        Queues {
            links: Vec::new(alloc),
            receivers: Vec::new(alloc),
            free: 0,
            waiting: 0,
            undelivered: 0,
        }
    }

    /// Room for N messages more, and for as many receivers. A refusal changes nothing.
    pub(crate) fn reserve(&mut self, more: usize) -> Result<(), AllocError>
        ensures links { self.new.links.items ≡ self.old.links.items }
        ensures receivers { self.new.receivers.items ≡ self.old.receivers.items }
        ensures counts { (self.new.free ≡ self.old.free) × (self.new.undelivered ≡ self.old.undelivered) }
        ensures ok { OnOk result ((vec_len self.new.links + more ≤ vec_capacity self.new.links)
            × (vec_len self.new.receivers + more ≤ vec_capacity self.new.receivers)) }
    {
        self.links.reserve(more)?;
        self.receivers.reserve(more)?;
        Ok(())
    }
}

/// Claims the first open message of the receiver at this place, to which nobody delivers. Its queue begins
/// there now.
pub(crate) fn claim_for(marks: &mut Vec<MarkedMessage>, queues: &mut Queues, place: usize) -> Claim
    requires queued { (place < length queues.old.receivers.items) × AreQueued marks.old.items queues.old }
    requires free { HoldsAt IsFree queues.old.receivers.items place }
    ensures queued { AreQueued marks.new.items queues.new }
    ensures names { processes_of queues.new.receivers.items ≡ processes_of queues.old.receivers.items }
    ensures first { first_open result.to 1 marks.old.items ≡ Some result.number }
    ensures alone { claimed_to result.to marks.old.items ≡ 0 }
    ensures marks { marks.new.items ≡ marked marks.old.items result.number kinds.Claimed }
{
    let receiver = queues.receivers[place];
    let Some(found) = open_from(marks, queues, receiver.first, 0, receiver.process) else {
        unreachable!()
    };
    put_receiver(
        queues,
        place,
        Receiver {
            process: receiver.process,
            first: found,
            last: receiver.last,
            waiting: receiver.waiting,
            claimed: receiver.claimed,
        },
    );
    set_mark(marks, queues, found, Delivery::Claimed);
    Claim {
        number: found as u64 + 1,
        to: receiver.process,
    }
}

/// The place of the first open message to this process that is not before the lowest place, where its chain
/// is gone along from a message to it, and none between the two places is open.
pub(crate) fn open_from(
    marks: &[MarkedMessage],
    queues: &Queues,
    start: usize,
    lowest: usize,
    to: ProcessId,
) -> Option<usize>
    requires queued { AreQueued marks.now queues.now }
    requires chain { is_to to (slice_get marks.now start) ≡ true }
    requires front { NoneOpen to marks.now lowest start }
    ensures found { IfSome result (λ place. (place < length marks.now) × (lowest ≤ place)
        × (is_open_by to (slice_get marks.now place) ≡ true) × NoneOpen to marks.now lowest place) }
    ensures none { IfNone result (NoneOpen to marks.now lowest (length marks.now)) }
{
    let mut next = Some(start);
    while let Some(place) = next {
        if lowest <= place && is_open_to(to, marks[place]) {
            return Some(place);
        }
        next = queues.links[place].next;
    }
    None
}

/// The place of the receiver at which a worker is to deliver: this one, if it is free, or else the free one
/// with the most open messages. It goes through all receivers only where this one is not free, and another
/// is.
pub(crate) fn picked(receivers: &[Receiver], free: usize, near: Option<usize>) -> Option<usize>
    requires free { free ≡ count_by is_free receivers.now }
    requires near { IfSome near (λ place. place < length receivers.now) }
    ensures found { IfSome result (λ place. (place < length receivers.now)
        × HoldsAt IsFree receivers.now place) }
    ensures none { IfNone result (All IsNotFree receivers.now) }
{
    if free == 0 {
        return None;
    }
    match near {
        Some(place) if is_free(receivers[place]) => Some(place),
        _ => fullest(receivers),
    }
}

/// The place of the free receiver with the most open messages.
fn fullest(receivers: &[Receiver]) -> Option<usize>
    ensures found { IfSome result (λ place. (place < length receivers.now)
        × HoldsAt IsFree receivers.now place) }
    ensures none { IfNone result (All IsNotFree receivers.now) }
{
    let mut fullest = None;
    let mut most = 0;
    for place in 0..receivers.len() {
        let receiver = receivers[place];
        if is_free(receiver) && most < receiver.waiting {
            most = receiver.waiting;
            fullest = Some(place);
        }
    }
    fullest
}

/// The message at this place is marked so, and its receiver's queue follows.
pub(crate) fn set_mark(
    marks: &mut Vec<MarkedMessage>,
    queues: &mut Queues,
    place: usize,
    mark: Delivery,
)
    requires { (place < length marks.old.items) × AreQueued marks.old.items queues.old }
    ensures queued { AreQueued marks.new.items queues.new }
    ensures names { processes_of queues.new.receivers.items ≡ processes_of queues.old.receivers.items }
    ensures marks { marks.new.items ≡ marked marks.old.items (place + 1) mark }
{
    let message = marks[place];
    let at = queues.links[place].receiver;
    let receiver = told(marks, queues.receivers[at], place, mark);
    put_receiver(queues, at, receiver);
    queues.undelivered = counted(
        marks.len(),
        queues.undelivered,
        !is_delivered(message.mark),
        !is_delivered(mark),
    );
    marks[place] = MarkedMessage {
        to: message.to,
        mark,
    };
}

/// What the receiver of the message at this place tells once it is marked so.
fn told(marks: &[MarkedMessage], receiver: Receiver, place: usize, mark: Delivery) -> Receiver
    requires place { place < length marks.now }
    requires told { IsTold marks.now receiver }
    requires mine { is_to receiver.process (slice_get marks.now place) ≡ true }
    ensures told { IsTold (marked marks.now (place + 1) mark) result }
    ensures same { result.process ≡ receiver.process }
{
    let was = marks[place].mark;
    let among = marks.len();
    Receiver {
        process: receiver.process,
        first: first_after(receiver.first, place, mark),
        last: receiver.last,
        waiting: counted(among, receiver.waiting, is_open(was), is_open(mark)),
        claimed: counted(among, receiver.claimed, is_claimed(was), is_claimed(mark)),
    }
}

/// Where a queue begins that began at the first place, once the message at the second one is marked so.
fn first_after(first: usize, place: usize, mark: Delivery) -> usize
    ensures either { (result ≡ first) ⊎ (result ≡ place) }
    ensures less { result ≤ first }
    ensures opened { is_open mark ≡ true → result ≤ place }
{
    if is_open(mark) && place < first {
        place
    } else {
        first
    }
}

/// The receiver at this place tells this now, and those who are free are counted again.
pub(crate) fn put_receiver(queues: &mut Queues, at: usize, receiver: Receiver)
    requires at { at < length queues.old.receivers.items }
    requires free { queues.old.free ≡ count_by is_free queues.old.receivers.items }
    ensures receivers { queues.new.receivers.items ≡ slice_set queues.old.receivers.items at receiver }
    ensures room { (vec_len queues.new.receivers ≡ vec_len queues.old.receivers)
        × (vec_capacity queues.new.receivers ≡ vec_capacity queues.old.receivers) }
    ensures free { queues.new.free ≡ count_by is_free queues.new.receivers.items }
    ensures same { (queues.new.links ≡ queues.old.links) × (queues.new.undelivered ≡ queues.old.undelivered) }
{
    let before = queues.receivers[at];
    queues.free = counted(
        queues.receivers.len(),
        queues.free,
        is_free(before),
        is_free(receiver),
    );
    queues.waiting = queues
        .waiting
        .saturating_add(free_waiting(receiver))
        .saturating_sub(free_waiting(before));
    queues.receivers[at] = receiver;
}

/// A count among N, where one of them was counted or not, and is.
fn counted(among: usize, count: usize, was: bool, is: bool) -> usize
    requires { (one_if was ≤ count) × (count + one_if is ≤ among + one_if was) }
    ensures { result + one_if was ≡ count + one_if is }
{
    match (was, is) {
        (true, false) => count - 1,
        (false, true) => count + 1,
        _ => count,
    }
}

/// Whether a message to this receiver is open, and nobody delivers to it.
fn is_free(receiver: Receiver) -> bool
    ensures { result ≡ is_free receiver }
{
    receiver.claimed == 0 && receiver.waiting > 0
}

/// How many messages are open at this receiver, if nobody delivers to it.
fn free_waiting(receiver: Receiver) -> usize {
    if receiver.claimed == 0 {
        receiver.waiting
    } else {
        0
    }
}

/// Whether this message is open, and is sent to this process.
fn is_open_to(to: ProcessId, message: MarkedMessage) -> bool
    ensures { result ≡ is_open_to to message }
{
    is_open(message.mark) && to.0 == message.to.0
}

/// Whether this says that nobody delivers the message.
fn is_open(mark: Delivery) -> bool
    ensures { result ≡ is_open mark }
{
    matches!(mark, Delivery::Open)
}

/// Whether this says that somebody delivers the message now.
pub(crate) fn is_claimed(mark: Delivery) -> bool
    ensures { result ≡ is_claimed mark }
{
    matches!(mark, Delivery::Claimed)
}

/// Whether this says that the message was delivered.
fn is_delivered(mark: Delivery) -> bool
    ensures { result ≡ is_delivered mark }
{
    matches!(mark, Delivery::Delivered)
}
