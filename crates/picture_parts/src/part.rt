//! Which part of a run is drawn, and how large it is.

ghost use Rattle.std.specs.Prelude.{◌≡◌, ◌≤◌, ◌+◌, IfOk, IfSome, OnOk, length};
ghost use Rattle.picture_parts.specs.Parts.{at_root, events_shown, is_there, shown_within};

use crate::belonging::Belonging;
use picture_layout::EventSteps;
use protocol::{ProcessId, Txn};
use spellings::numeral::number_of;
use std::alloc::{AllocError, Global};

/// The most processes and the most events of a picture.
pub const MOST_PROCESSES: usize = 40;

pub const MOST_EVENTS: usize = 2000;

/// Events from one on, up to another, by their numbers from 1.
#[derive(Clone, Copy, PartialEq, Eq)]
pub struct Range {
    pub first: usize,
    pub last: usize,
}

/// A part of a run.
#[derive(Clone, Copy, PartialEq, Eq)]
pub enum PicturePart {
    /// The steps of a transaction of this presumption, boot and number, and the restarts of the processes
    /// that took part in it before.
    Case(Txn),
    /// The steps of these events.
    Events(Range),
}

/// The events that a word names, as 3-7: of two numbers from 1 on, the second is not below the first.
pub fn range_of(word: &str) -> Option<Range>
    ensures { IfSome result (λ range. (1 ≤ range.first) × (range.first ≤ range.last)) }
{
    let (first, last) = word.split_once('-')?;
    let first = usize::try_from(number_of(first)?).ok()?;
    let last = usize::try_from(number_of(last)?).ok()?;
    if first == 0 || last < first {
        return None;
    }
    Some(Range { first, last })
}

/// The transaction of this name whose root is this process.
pub(crate) fn at_root(root: ProcessId, txn: &Txn) -> Txn
    ensures { result ≡ at_root root txn.now }
{
    Txn {
        root,
        presumption: txn.presumption,
        boot: txn.boot,
        sequence: txn.sequence,
    }
}

/// How many of the steps from a place on, up to another, are drawn.
fn shown_within(marks: &[Belonging], from: usize, to: usize) -> usize
    ensures { result ≡ shown_within marks.now from to }
{
    if from <= to && to <= marks.len() {
        marks[from..to].iter().filter(|marked| marked.shown).count()
    } else {
        0
    }
}

/// Whether a step is drawn.
pub(crate) fn is_there(marks: &[Belonging]) -> bool
    ensures { result ≡ is_there marks.now }
{
    marks.iter().filter(|marked| marked.shown).count() != 0
}

/// The events that are drawn: of each its place, from 0, and what is drawn after it.
#[derive(Drop)]
pub(crate) struct Turns {
    pub(crate) places: Vec<usize>,
    pub(crate) turns: Vec<EventSteps>,
}

impl Turns {
    fn new(alloc: Global) -> Turns
        ensures { length result.turns.items ≡ 0 }
    {
        Turns {
            places: Vec::new(alloc),
            turns: Vec::new(alloc),
        }
    }

    /// An event more. N steps are drawn up to its end.
    fn push(&mut self, place: usize, steps: usize, refused: bool) -> Result<(), AllocError>
        ensures { OnOk result (length self.new.turns.items ≡ length self.old.turns.items + 1) }
    {
        self.places.push(place)?;
        self.turns.push(EventSteps { steps, refused })?;
        Ok(())
    }

    /// The events of these numbers, of which the last of the run is refused or not; N steps were made before
    /// them.
    pub(crate) fn of_events(
        alloc: Global,
        counts: &[usize],
        range: Range,
        before: usize,
        refused: bool,
    ) -> Result<Turns, AllocError> {
        let mut turns = Turns::new(alloc);
        for (place, count) in counts.iter().enumerate() {
            if range.first <= place + 1 && place < range.last {
                let is_last = counts.len() - place == 1;
                turns.push(place, count.saturating_sub(before), refused && is_last)?;
            }
        }
        Ok(turns)
    }

    /// The events that made one of the steps that are drawn.
    #[tactic(auto, unfolding(crate::specs::Parts::events_shown))]
    pub(crate) fn of_shown(
        alloc: Global,
        counts: &[usize],
        marks: &[Belonging],
        refused: bool,
    ) -> Result<Turns, AllocError>
        ensures { IfOk result (λ turns. length turns.turns.items ≡ events_shown marks.now counts.now) }
    {
        let mut turns = Turns::new(alloc);
        let mut from: usize = 0;
        let mut steps: usize = 0;
        for (place, count) in counts.iter().enumerate() {
            let shown = shown_within(marks, from, *count);
            from = *count;
            steps = steps.saturating_add(shown);
            if shown != 0 {
                let is_last = counts.len() - place == 1;
                turns.push(place, steps, refused && is_last)?;
            }
        }
        Ok(turns)
    }
}
