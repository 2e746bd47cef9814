//! Which messages were delivered.

ghost use Rattle.std.specs.Prelude.{◌≡◌, ◌+◌, ◌<◌, ◌^◌, ◌++◌, ◌∷◌, [], Bool, true, false, OnOk, OnErr, IfSome, IfNone, None, Some, length, slice_set, take, replicate, ◌≤◌};
ghost use Rattle.tree_state.specs.Worlds.{least_open};

use std::alloc::{AllocError, Global};
use std::marker::Model;

/// A mark for each message in order of sending: whether it was delivered. Contracts see the list of marks.
#[derive(Drop)]
pub(crate) struct DeliveredMarks {
    marks: Vec<bool>,
    /// All messages before this place are delivered.
    settled: usize,
}

impl Model for DeliveredMarks {
    ghost use Rattle.std.specs.Prelude.{List, Bool, true, ◌≡◌, ◌≤◌, length, replicate, take};

    ghost Value = { List Bool };

    ghost view = { λ m. m.marks.items };

    ghost invariant = { λ m. (m.settled ≤ length m.marks.items)
        × (take m.settled m.marks.items ≡ replicate m.settled true) };
}

impl DeliveredMarks {
    /// No marks. It takes no memory.
    pub(crate) fn new(alloc: Global) -> DeliveredMarks
        ensures { result ≡ [] }
    {
        DeliveredMarks {
            marks: Vec::new(alloc),
            settled: 0,
        }
    }

    /// How many marks there are.
    pub(crate) fn len(&self) -> usize
        ensures { result ≡ length self.now }
    {
        self.marks.len()
    }

    /// N messages more, none of which was delivered. A refusal for memory changes nothing.
    pub(crate) fn extend(&mut self, more: usize) -> Result<(), AllocError>
        ensures ok { OnOk result (self.new ≡ self.old ++ replicate more false) }
        ensures err { OnErr result (self.new ≡ self.old) }
    {
        self.marks.reserve(more)?;
        self.marks.resize(self.marks.len() + more, false)
    }

    /// The message at this place is delivered, if there is one.
    pub(crate) fn mark(&mut self, place: usize)
        ensures { self.new ≡ slice_set self.old place true }
    {
        if place < self.marks.len() {
            self.marks[place] = true;
        }
    }

    /// The place of the first message that was not delivered. What is delivered at the front is not gone
    /// through again.
    pub(crate) fn least_open(&mut self) -> Option<usize>
        ensures marks { self.new ≡ self.old }
        ensures found { IfSome result (λ place. (place + 1 < 2 ^ 64)
            × (least_open 1 self.old ≡ Some (place + 1))) }
        ensures none { IfNone result (least_open 1 self.old ≡ None) }
    {
        match first_open(&self.marks, self.settled) {
            Some(place) => {
                self.settled = place;
                Some(place)
            }
            None => {
                self.settled = self.marks.len();
                None
            }
        }
    }
}

/// The place of the first mark that is not set, where those before the start are set.
fn first_open(marks: &[bool], start: usize) -> Option<usize>
    requires range { start ≤ length marks.now }
    requires front { take start marks.now ≡ replicate start true }
    ensures found { IfSome result (λ p. (p < length marks.now) × (take p marks.now ≡ replicate p true)
        × (least_open 1 marks.now ≡ Some (p + 1))) }
    ensures none { IfNone result ((take (length marks.now) marks.now ≡ replicate (length marks.now) true)
        × (least_open 1 marks.now ≡ None)) }
{
    for place in start..marks.len() {
        if !marks[place] {
            return Some(place);
        }
    }
    None
}
