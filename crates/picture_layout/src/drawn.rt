//! What is drawn of a run: its arrows, its stubs and its marks.

ghost use Rattle.std.specs.Prelude.{◌≡◌, ◌-◌, ◌++◌, IfOk, IfSome, OnOk, get_or, is_some, length, map, option_map, option_to_list, slice_get};
ghost use Rattle.picture_layout.specs.declared.fates.Fate.{Fate as AnyFate};
ghost use Rattle.picture_layout.specs.Fates.{leaving_in, leaving_of, leavings};
ghost use Rattle.picture_layout.specs.Ways.{first_record, place_of_step, rows_in, spot_of, spots_from, spots_in, way_to, ways_in};
ghost use Rattle.picture_layout.specs.declared.drawn.Arrow.{Arrow as AnyArrow};
ghost use Rattle.picture_layout.specs.declared.drawn.RecordMark.{RecordMark as AnyMark};
ghost use Rattle.picture_layout.specs.Whole.{deliveries, delivery, is_known, records_in};

use crate::fates::{Fate, heard_by};
use crate::rows::{LONG, StepRows, has_stub};
use crate::seats::{Column, place_of};
use protocol::{Envelope, Happening, JournalEntry, ShownRecord};
use std::alloc::{AllocError, Global};

/// From its sender's place, at the row that it left, to its receiver's, at the row of the step that it made.
#[derive(Clone, Copy)]
pub struct Way {
    pub from: u32,
    pub left: u32,
    pub to: u32,
    pub row: u32,
    /// It left more than N steps before.
    pub far: bool,
}

/// A message that was delivered.
#[derive(Clone, Copy)]
pub struct Arrow {
    pub number: u64,
    pub way: Way,
    /// It was delivered before.
    pub again: bool,
}

/// A message at the step that sent it, which is never delivered, or only much later: from the row that it
/// left to a row of its own.
#[derive(Clone, Copy)]
pub struct Stub {
    pub number: u64,
    pub from: u32,
    pub left: u32,
    pub to: u32,
    pub row: u32,
    /// It is never delivered.
    pub crossed: bool,
}

/// A record at its row.
#[derive(Clone, Copy)]
pub struct RecordMark {
    pub place: u32,
    pub row: u32,
    pub logged: ShownRecord,
    /// Whether its words are at the right.
    pub right: bool,
}

/// The rows of a step.
fn rows_at(rows: &[StepRows], step: usize) -> StepRows
    ensures { result ≡ rows_in rows.now step }
{
    match rows.get(step) {
        None => StepRows {
            first: 0,
            last: 0,
            next: 0,
        },
        Some(rows) => *rows,
    }
}

/// The place of the process of a step.
fn place_at(seats: &[Column], entries: &[JournalEntry], step: usize) -> u32
    ensures { result ≡ place_of_step seats.now (slice_get entries.now step) }
{
    match entries.get(step) {
        None => 0,
        Some(entry) => place_of(seats, entry.step.process),
    }
}

/// The fate of a message.
fn fate_of(fates: &[Fate], number: u64) -> Option<Fate>
    ensures known { is_some result ≡ is_known (length fates.now) number }
    ensures sent { IfSome result (λ fate. fate.sent ≡ get_or (map (λ (f : AnyFate). f.sent) fates.now)
        (number - 1) 0) }
{
    if number == 0 || number > fates.len() as u64 {
        return None;
    }
    Some(fates[(number - 1) as usize])
}

/// The arrow of a step, if it delivered a message.
fn arrow_of(
    seats: &[Column],
    entries: &[JournalEntry],
    fates: &[Fate],
    rows: &[StepRows],
    step: usize,
    entry: &JournalEntry,
) -> Option<Arrow>
    ensures number { option_map (λ (a : AnyArrow). a.number) result ≡ delivery (length fates.now) entry.now }
    ensures way { option_map (λ (a : AnyArrow). a.way) result
        ≡ option_map (way_to seats.now rows.now (map (λ (f : AnyFate). f.sent) fates.now)
        entries.now step entry.now)
        (delivery (length (map (λ (f : AnyFate). f.sent) fates.now)) entry.now) }
{
    let Some(number) = heard_by(entry) else {
        return None;
    };
    let Some(fate) = fate_of(fates, number) else {
        return None;
    };
    Some(Arrow {
        number,
        way: Way {
            from: place_at(seats, entries, fate.sent),
            left: rows_at(rows, fate.sent).last,
            to: place_of(seats, entry.step.process),
            row: rows_at(rows, step).first,
            far: step.saturating_sub(fate.sent) > LONG as usize,
        },
        again: fate.heard != Some(step),
    })
}

/// Adds an arrow, if there is one.
fn push_arrow(arrows: &mut Vec<Arrow>, found: Option<Arrow>) -> Result<(), AllocError>
    ensures number { OnOk result (map (λ (a : AnyArrow). a.number) arrows.new.items
        ≡ map (λ (a : AnyArrow). a.number) arrows.old.items
        ++ option_to_list (option_map (λ (a : AnyArrow). a.number) found)) }
    ensures way { OnOk result (map (λ (a : AnyArrow). a.way) arrows.new.items
        ≡ map (λ (a : AnyArrow). a.way) arrows.old.items
        ++ option_to_list (option_map (λ (a : AnyArrow). a.way) found)) }
{
    if let Some(arrow) = found {
        arrows.push(arrow)?;
    }
    Ok(())
}

/// The arrows of a run, one for each delivery, in the order of the steps.
#[tactic(auto, unfolding(crate::specs::Whole::deliveries), using(crate::proofs::Ways::no_ways, crate::proofs::Ways::ways_more))]
pub fn arrows(
    alloc: Global,
    seats: &[Column],
    entries: &[JournalEntry],
    fates: &[Fate],
    rows: &[StepRows],
) -> Result<Vec<Arrow>, AllocError>
    ensures numbers { IfOk result (λ arrows. map (λ a. a.number) arrows.items
        ≡ deliveries (length fates.now) entries.now) }
    ensures ways { IfOk result (λ arrows. map (λ a. a.way) arrows.items
        ≡ ways_in seats.now rows.now (map (λ (f : AnyFate). f.sent) fates.now) entries.now) }
{
    let mut arrows = Vec::new(alloc);
    for (step, entry) in entries.iter().enumerate() {
        let found = arrow_of(seats, entries, fates, rows, step, entry);
        push_arrow(&mut arrows, found)?;
    }
    Ok(arrows)
}

/// The row of a stub: below the last one of the step that sent its message, or below that of the stub before
/// it, where one step sent both.
fn stub_row(left: u32, sent: usize, last: Option<(usize, u32)>) -> u32 {
    match last {
        Some((step, row)) if step == sent => row.saturating_add(1),
        _ => left.saturating_add(1),
    }
}

/// The stub of the message with this number and fate, in this row.
fn stub_of(
    seats: &[Column],
    entries: &[JournalEntry],
    rows: &[StepRows],
    number: u64,
    envelope: Option<&Envelope>,
    fate: &Fate,
    row: u32,
) -> Stub
    ensures { leaving_in result ≡ leaving_of seats.now rows.now entries.now number fate.now }
{
    let from = place_at(seats, entries, fate.sent);
    Stub {
        number,
        from,
        left: rows_at(rows, fate.sent).last,
        to: match envelope {
            None => from,
            Some(envelope) => place_of(seats, envelope.to),
        },
        row,
        crossed: fate.heard.is_none(),
    }
}

/// The stubs of the messages of a run that are drawn where they were sent, in the order of their numbers.
#[tactic(auto, using(crate::proofs::Leaving::none_left, crate::proofs::Leaving::passed, crate::proofs::Leaving::left_more))]
pub fn stubs(
    alloc: Global,
    seats: &[Column],
    entries: &[JournalEntry],
    messages: &[Envelope],
    fates: &[Fate],
    rows: &[StepRows],
) -> Result<Vec<Stub>, AllocError>
    ensures { IfOk result (λ stubs. map leaving_in stubs.items
        ≡ leavings seats.now rows.now entries.now fates.now) }
{
    let mut stubs = Vec::new(alloc);
    let mut last = None;
    for (place, fate) in fates.iter().enumerate() {
        if has_stub(fate) {
            let row = stub_row(rows_at(rows, fate.sent).last, fate.sent, last);
            let number = place as u64 + 1;
            stubs.push(stub_of(seats, entries, rows, number, messages.get(place), fate, row))?;
            last = Some((fate.sent, row));
        }
    }
    Ok(stubs)
}

/// Whether the words of a step's records are at the right: the message that it delivered came from the left.
fn is_right(
    seats: &[Column],
    entries: &[JournalEntry],
    fates: &[Fate],
    entry: &JournalEntry,
) -> bool {
    let Some(number) = heard_by(entry) else {
        return true;
    };
    match fate_of(fates, number) {
        None => true,
        Some(fate) => { place_at(seats, entries, fate.sent) < place_of(seats, entry.step.process) }
    }
}

/// The row of the first record of a step: that of its cause, but below a crash.
fn first_record(entry: &JournalEntry, rows: StepRows) -> u32
    ensures { result ≡ first_record entry.now.step.happening rows.first }
{
    match entry.step.happening {
        Happening::Restart(_) => rows.first.saturating_add(1),
        _ => rows.first,
    }
}

/// The marks of a step's records, from this row on.
fn push_marks(
    marks: &mut Vec<RecordMark>,
    place: u32,
    row: u32,
    right: bool,
    written: &[ShownRecord],
) -> Result<(), AllocError>
    ensures logged { OnOk result (map (λ (m : AnyMark). m.logged) marks.new.items
        ≡ map (λ (m : AnyMark). m.logged) marks.old.items ++ written.now) }
    ensures spots { OnOk result (map spot_of marks.new.items
        ≡ map spot_of marks.old.items ++ spots_from place row written.now) }
{
    let mut row = row;
    for logged in written {
        marks.push(RecordMark {
            place,
            row,
            logged: *logged,
            right,
        })?;
        row = row.saturating_add(1);
    }
    Ok(())
}

/// The marks of a run's records, one for each, in the order of the run.
#[tactic(auto, unfolding(crate::specs::Whole::records_in), using(crate::proofs::Ways::no_spots, crate::proofs::Ways::spots_more))]
pub fn marks(
    alloc: Global,
    seats: &[Column],
    entries: &[JournalEntry],
    fates: &[Fate],
    rows: &[StepRows],
) -> Result<Vec<RecordMark>, AllocError>
    ensures logged { IfOk result (λ marks. map (λ m. m.logged) marks.items ≡ records_in entries.now) }
    ensures spots { IfOk result (λ marks. map spot_of marks.items ≡ spots_in seats.now rows.now entries.now) }
{
    let mut marks = Vec::new(alloc);
    for (step, entry) in entries.iter().enumerate() {
        let place = place_of(seats, entry.step.process);
        let right = is_right(seats, entries, fates, entry);
        let row = first_record(entry, rows_at(rows, step));
        push_marks(
            &mut marks,
            place,
            row,
            right,
            entry.reaction.written.as_slice(),
        )?;
    }
    Ok(marks)
}
