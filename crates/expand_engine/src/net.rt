//! The messages of a run: which wait, and which are never delivered.

use crate::wanted::{Kind, Wanted};
use log_store::MemoryStore;
use protocol::{Happening, Input, JournalEntry, ProcessId};
use std::alloc::{AllocError, Global};
use tree_world::World;

/// What becomes of a message.
#[derive(Clone, Copy, PartialEq, Eq)]
enum Fate {
    /// It waits.
    Waits,
    /// It was delivered.
    Delivered,
    /// It is never delivered by a settle.
    Dropped,
}

/// A message that was sent.
#[derive(Clone, Copy)]
struct Sent {
    kind: Kind,
    from: ProcessId,
    to: ProcessId,
    fate: Fate,
}

/// The messages of a run, the oldest first.
#[derive(Drop)]
pub(crate) struct Net {
    sent: Vec<Sent>,
    /// How many steps of the run were looked at.
    steps: usize,
    /// The message that was delivered last.
    last: Option<u64>,
    /// Whether one was dropped.
    has_dropped: bool,
}

/// The number of the message that a step delivered, if it delivered one.
fn delivered_in(entry: &JournalEntry) -> Option<u64> {
    match entry.step.happening {
        Happening::Input(Input::Message(number, _)) => Some(number),
        _ => None,
    }
}

/// The place of the message with this number.
fn place_of(number: u64) -> usize {
    number.saturating_sub(1) as usize
}

/// The number of the message at this place.
fn number_at(place: usize) -> u64 {
    (place as u64).saturating_add(1)
}

impl Net {
    /// No messages.
    pub(crate) fn new(alloc: Global) -> Net {
        Net {
            sent: Vec::new(alloc),
            steps: 0,
            last: None,
            has_dropped: false,
        }
    }

    /// Notes what the steps sent and delivered that were made since the last time.
    pub(crate) fn note(&mut self, world: &World<MemoryStore>) -> Result<(), AllocError> {
        for place in self.steps..world.made() {
            let Some(entry) = world.entry(place)? else {
                return Ok(());
            };
            self.note_step(&entry)?;
        }
        self.steps = world.made();
        Ok(())
    }

    /// Notes what a step sent and delivered.
    fn note_step(&mut self, entry: &JournalEntry) -> Result<(), AllocError> {
        if let Some(number) = delivered_in(entry) {
            self.last = Some(number);
            if let Some(sent) = self.sent.get_mut(place_of(number)) {
                sent.fate = Fate::Delivered;
            }
        }
        for envelope in entry.reaction.messages.as_slice() {
            self.sent.push(Sent {
                kind: Kind::of(&envelope.message),
                from: envelope.from,
                to: envelope.to,
                fate: Fate::Waits,
            })?;
        }
        Ok(())
    }

    /// The message that was delivered last.
    pub(crate) fn last(&self) -> Option<u64> {
        self.last
    }

    /// Whether a message is never delivered by a settle.
    pub(crate) fn has_dropped(&self) -> bool {
        self.has_dropped
    }

    /// The oldest message that waits.
    pub(crate) fn next(&self) -> Option<u64> {
        let place = self.sent.iter().position(|sent| sent.fate == Fate::Waits)?;
        Some(number_at(place))
    }

    /// The number of the message that is wanted: one with this number, whatever became of it; else the oldest
    /// such that waits.
    pub(crate) fn find(&self, wanted: Wanted) -> Option<u64> {
        if let Wanted::Number(number) = wanted {
            return Some(number);
        }
        let place = self
            .sent
            .iter()
            .position(|sent| sent.fate == Fate::Waits && sent.is(wanted))?;
        Some(number_at(place))
    }

    /// Has the message with this number never delivered by a settle. Answers whether there is one that waits.
    pub(crate) fn drop_message(&mut self, number: u64) -> bool {
        let Some(sent) = self.sent.get_mut(place_of(number)) else {
            return false;
        };
        if number == 0 || sent.fate != Fate::Waits {
            return false;
        }
        sent.fate = Fate::Dropped;
        self.has_dropped = true;
        true
    }
}

impl Sent {
    /// Whether it is the message that is wanted by what it is.
    fn is(&self, wanted: Wanted) -> bool {
        match wanted {
            Wanted::Number(_) => false,
            Wanted::To(kind, to) => self.to == to && self.kind == kind,
            Wanted::Between(from, to) => self.from == from && self.to == to,
        }
    }
}
