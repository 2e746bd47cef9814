//! Messages more, each at the end of its receiver's queue.

ghost use Rattle.std.specs.Prelude.{◌≡◌, ◌≢◌, ◌+◌, ◌<◌, ◌≤◌, ◌++◌, ◌∷◌, [], All, HoldsAt, None, count_by, length, map};
ghost use Rattle.std.specs.Vec.{vec_capacity, vec_len};
ghost use Rattle.indexmap.specs.IndexSet.{spare};
ghost use Rattle.cluster_journal.specs.Marks.{
  AreQueued,
  HasRoom,
  TakesRoom,
  is_undelivered,
  processes_of,
  sent_to,
};
ghost use Rattle.cluster_journal.specs.declared.marks.Delivery.TheVariants as kinds;

use crate::marks::{Delivery, MarkedMessage};
use crate::queues::{Link, Queues, Receiver, put_receiver};
use indexmap::IndexSet;
use protocol::{Envelope, ProcessId};

/// A mark more for each of these messages, where there is room for them and for their receivers.
pub(crate) fn add_all(
    marks: &mut Vec<MarkedMessage>,
    names: &mut IndexSet<ProcessId>,
    queues: &mut Queues,
    messages: &[Envelope],
)
    requires room { HasRoom marks.old queues.old (length messages.now)
        × (length messages.now ≤ spare names.old) }
    requires queued { AreQueued marks.old.items queues.old }
    requires named { names.old.keys ≡ processes_of queues.old.receivers.items }
    ensures queued { AreQueued marks.new.items queues.new }
    ensures named { names.new.keys ≡ processes_of queues.new.receivers.items }
    ensures marks { marks.new.items ≡ marks.old.items ++ map sent_to messages.now }
{
    for place in 0..messages.len() {
        add_message(marks, names, queues, messages[place].to);
    }
}

/// An open message to this process more, where there is room for it and for a receiver.
fn add_message(
    marks: &mut Vec<MarkedMessage>,
    names: &mut IndexSet<ProcessId>,
    queues: &mut Queues,
    to: ProcessId,
)
    requires room { HasRoom marks.old queues.old 1 × (1 ≤ spare names.old) }
    requires queued { AreQueued marks.old.items queues.old }
    requires named { names.old.keys ≡ processes_of queues.old.receivers.items }
    ensures queued { AreQueued marks.new.items queues.new }
    ensures named { names.new.keys ≡ processes_of queues.new.receivers.items }
    ensures marks { marks.new.items ≡ marks.old.items ++ record { to = to; mark = kinds.Open } ∷ [] }
    ensures room { TakesRoom marks.old queues.old marks.new queues.new
        × (spare names.old ≤ spare names.new + 1) }
{
    let Ok((at, is_new)) = names.insert_full(to) else {
        unreachable!()
    };
    if is_new {
        add_first(marks, queues, to);
    } else {
        add_next(marks, queues, at, to);
    }
}

/// An open message to a process to which none was sent before.
fn add_first(marks: &mut Vec<MarkedMessage>, queues: &mut Queues, to: ProcessId)
    requires room { HasRoom marks.old queues.old 1 }
    requires queued { AreQueued marks.old.items queues.old }
    requires fresh { All (λ r. r.process ≢ to) queues.old.receivers.items }
    ensures queued { AreQueued marks.new.items queues.new }
    ensures names { processes_of queues.new.receivers.items
        ≡ processes_of queues.old.receivers.items ++ to ∷ [] }
    ensures marks { marks.new.items ≡ marks.old.items ++ record { to = to; mark = kinds.Open } ∷ [] }
    ensures room { TakesRoom marks.old queues.old marks.new queues.new }
{
    let place = marks.len();
    let at = queues.receivers.len();
    queues.receivers.push_reserved(Receiver {
        process: to,
        first: place,
        last: place,
        waiting: 1,
        claimed: 0,
    });
    queues.free += 1;
    queues.waiting = queues.waiting.saturating_add(1);
    push_message(marks, queues, at, to);
}

/// An open message more to the receiver at this place.
fn add_next(marks: &mut Vec<MarkedMessage>, queues: &mut Queues, at: usize, to: ProcessId)
    requires room { HasRoom marks.old queues.old 1 }
    requires queued { AreQueued marks.old.items queues.old }
    requires at { (at < length queues.old.receivers.items)
        × HoldsAt (λ r. r.process ≡ to) queues.old.receivers.items at }
    ensures queued { AreQueued marks.new.items queues.new }
    ensures names { processes_of queues.new.receivers.items ≡ processes_of queues.old.receivers.items }
    ensures marks { marks.new.items ≡ marks.old.items ++ record { to = to; mark = kinds.Open } ∷ [] }
    ensures room { TakesRoom marks.old queues.old marks.new queues.new }
{
    let place = marks.len();
    let before = queues.receivers[at];
    put_receiver(
        queues,
        at,
        Receiver {
            process: before.process,
            first: before.first,
            last: place,
            waiting: before.waiting + 1,
            claimed: before.claimed,
        },
    );
    queues.links[before.last] = Link {
        receiver: at,
        next: Some(place),
    };
    push_message(marks, queues, at, to);
}

/// An open message more, the last one to the receiver at this place.
fn push_message(marks: &mut Vec<MarkedMessage>, queues: &mut Queues, at: usize, to: ProcessId)
    requires room { (vec_len marks.old + 1 ≤ vec_capacity marks.old)
        × (vec_len queues.old.links + 1 ≤ vec_capacity queues.old.links) }
    requires undelivered { queues.old.undelivered ≡ count_by is_undelivered marks.old.items }
    ensures marks { marks.new.items ≡ marks.old.items ++ record { to = to; mark = kinds.Open } ∷ [] }
    ensures links { queues.new.links.items
        ≡ queues.old.links.items ++ record { receiver = at; next = None } ∷ [] }
    ensures undelivered { queues.new.undelivered ≡ count_by is_undelivered marks.new.items }
    ensures same { (queues.new.receivers ≡ queues.old.receivers) × (queues.new.free ≡ queues.old.free) }
    ensures room { (vec_len marks.new ≡ vec_len marks.old + 1)
        × (vec_capacity marks.new ≡ vec_capacity marks.old)
        × (vec_len queues.new.links ≡ vec_len queues.old.links + 1)
        × (vec_capacity queues.new.links ≡ vec_capacity queues.old.links) }
{
    queues.undelivered += 1;
    queues.links.push_reserved(Link {
        receiver: at,
        next: None,
    });
    marks.push_reserved(MarkedMessage {
        to,
        mark: Delivery::Open,
    });
}
