//! What is drawn of a run, by rows and places.

ghost use Rattle.std.specs.Prelude.{◌≡◌, ◌≤◌, All, IfErr, IfOk, length, map};
ghost use Rattle.picture_layout.specs.declared.drawn.Arrow.{Arrow as AnyArrow};
ghost use Rattle.picture_layout.specs.Ways.{HasSeat};
ghost use Rattle.picture_layout.specs.Whole.{deliveries, sent_in};
ghost use Rattle.picture_layout.specs.Long.{IsLong};
ghost use Rattle.picture_run.specs.Plans.{IsPlaced};

use picture_layout::{
    Arrow, Column, EventSteps, History, PictureError, RecordMark, Rows, Stretch, Stub, arrows,
    fates_of, history_of, marks, messages_of, rows_of, seats_of, stretches_of, stubs,
};
use protocol::{Envelope, Event, JournalEntry, StepError, TreeProcess};
use std::alloc::Global;

/// What is drawn: a tree, the events of its script, how many steps were made after each of them up to the
/// refused one, the steps, and which of these events was refused, from 0, and why, if one was.
#[derive(Clone, Copy)]
pub struct Scene<'a> {
    pub tree: &'a [TreeProcess],
    pub events: &'a [Event],
    pub turns: &'a [EventSteps],
    pub entries: &'a [JournalEntry],
    /// What is told of each step beside, in their order; of one of which nothing is, no bytes.
    pub notes: &'a [Vec<u8>],
    pub refusal: Option<(usize, StepError)>,
}

/// All that is drawn of a run, by rows and places.
#[derive(Drop)]
pub(crate) struct Plan {
    pub(crate) seats: Vec<Column>,
    pub(crate) rows: Rows,
    pub(crate) arrows: Vec<Arrow>,
    pub(crate) stubs: Vec<Stub>,
    pub(crate) marks: Vec<RecordMark>,
    pub(crate) stretches: Vec<Stretch>,
    pub(crate) history: History,
    /// The messages, in the order of their numbers.
    pub(crate) messages: Vec<Envelope>,
}

/// What is drawn of a run, by rows and places. TooLong: it has 2^32 rows, or its tree 2^32 processes.
pub(crate) fn plan_of(alloc: Global, scene: &Scene) -> Result<Plan, PictureError>
    ensures arrows { IfOk result (λ plan. map (λ (a : AnyArrow). a.number) plan.arrows.items
        ≡ deliveries (length (sent_in scene.now.entries.now)) scene.now.entries.now) }
    ensures places { IfOk result (IsPlaced scene.now.entries.now) }
    ensures messages { IfOk result (λ plan. plan.messages.items ≡ sent_in scene.now.entries.now) }
    ensures seats { IfOk result (λ plan. length plan.seats.items ≤ length scene.now.tree.now) }
    ensures all { IfOk result (λ plan. All (HasSeat plan.seats.items) scene.now.tree.now) }
    ensures err { IfErr result (λ e. e ≡ PictureError.TooLong
        → IsLong scene.now.tree.now (length scene.now.turns.now) scene.now.entries.now) }
{
    let entries = scene.entries;
    let seats = seats_of(alloc, scene.tree)?;
    let fates = fates_of(alloc, entries)?;
    let history = history_of(alloc, &seats, entries)?;
    let rows = rows_of(alloc, scene.turns, entries, &fates, &history.mismatches)?;
    let steps = rows.steps.as_slice();
    let messages = messages_of(alloc, entries)?;
    Ok(Plan {
        arrows: arrows(alloc, &seats, entries, &fates, steps)?,
        stubs: stubs(alloc, &seats, entries, &messages, &fates, steps)?,
        marks: marks(alloc, &seats, entries, &fates, steps)?,
        messages,
        stretches: stretches_of(alloc, &seats, &history.changes, steps, rows.end)?,
        seats,
        rows,
        history,
    })
}
