//! The rows of a run's steps.

ghost use Rattle.std.specs.Prelude.{◌≡◌, ◌+◌, ◌^◌, ◌<◌, ◌≤◌, IfErr, IfOk, OnOk, is_some, length};
ghost use Rattle.picture_layout.specs.Fates.{is_late};
ghost use Rattle.picture_layout.specs.Rising.{ForEach, GoesOver, HasRows, IsNext, OneMore, RiseTo};
ghost use Rattle.picture_layout.specs.Long.{most_rows, rows_with};

use crate::error::PictureError;
use crate::fates::Fate;
use crate::standings::Mismatch;
use protocol::{Happening, JournalEntry};
use std::alloc::Global;

/// A ruler follows every N rows; and an arrow over more steps is drawn as two stubs.
pub const LONG: u32 = 24;

/// How many steps were made after an event, and whether the event was refused.
#[derive(Clone, Copy)]
pub struct EventSteps {
    pub steps: usize,
    pub refused: bool,
}

/// The rows of a step: the first, the last one of its cause, its records and its word to the application, and
/// the first one after it. Between the last two stand the messages that get a stub.
#[derive(Clone, Copy, PartialEq, Eq)]
pub struct StepRows {
    pub first: u32,
    pub last: u32,
    pub next: u32,
}

/// Where an event begins, the events counted from 0.
#[derive(Clone, Copy)]
pub struct Rule {
    pub event: usize,
    pub row: u32,
}

/// The rows of a picture.
#[derive(Drop)]
pub struct Rows {
    pub steps: Vec<StepRows>,
    pub rules: Vec<Rule>,
    pub rulers: Vec<u32>,
    /// The row of the refused event.
    pub refused: Option<u32>,
    /// The row after all others.
    pub end: u32,
}

/// The rows that are counted so far.
#[derive(Drop)]
struct Count {
    row: u32,
    ruler: u32,
    rulers: Vec<u32>,
}

impl Count {
    /// N rows more. TooLong: there are 2^32 rows.
    fn take(&mut self, rows: u32) -> Result<u32, PictureError>
        ensures row { OnOk result (self.new.row ≡ self.old.row + rows) }
        ensures answer { IfOk result (λ row. row ≡ self.new.row) }
        ensures err { IfErr result (λ e. e ≡ PictureError.TooLong → 2 ^ 32 ≤ self.old.row + rows) }
    {
        let Some(row) = self.row.checked_add(rows) else {
            return Err(PictureError::TooLong);
        };
        self.row = row;
        Ok(row)
    }

    /// The first row of what comes next: after a ruler, where the last one is far. TooLong: there are 2^32
    /// rows.
    fn begin(&mut self) -> Result<u32, PictureError>
        ensures later { OnOk result (self.old.row ≤ self.new.row) }
        ensures few { OnOk result (self.new.row ≤ self.old.row + 1) }
        ensures answer { IfOk result (λ row. row ≡ self.new.row) }
        ensures err { IfErr result (λ e. e ≡ PictureError.TooLong → 2 ^ 32 ≤ self.old.row + 1) }
    {
        if self.row.saturating_sub(self.ruler) > LONG {
            self.rulers.push(self.row)?;
            self.ruler = self.row;
            self.take(1)?;
        }
        Ok(self.row)
    }
}

/// Whether a message is drawn as a stub where it was sent: it is never delivered, or much later.
pub(crate) fn has_stub(fate: &Fate) -> bool
    ensures { result ≡ is_late fate.now.sent fate.now.heard }
{
    match fate.heard {
        None => true,
        Some(heard) => heard.saturating_sub(fate.sent) > LONG as usize,
    }
}

/// How many of the messages after N, of a step, get a stub.
fn count_stubs(fates: &[Fate], sent: usize, messages: usize) -> usize
    ensures { result ≤ messages }
{
    let end = sent.saturating_add(messages).min(fates.len());
    let begin = sent.min(end);
    fates[begin..end]
        .iter()
        .filter(|fate| has_stub(fate))
        .count()
}

/// How many rows a step has for its cause, its records and its word to the application. TooLong: it has 2^32
/// rows.
fn height_of(entry: &JournalEntry, mixed: bool) -> Result<u32, PictureError>
    ensures some { IfOk result (λ height. 0 < height) }
    ensures few { IfOk result (λ height. height ≤ length entry.now.reaction.written + 3) }
    ensures err { IfErr result (λ e. 2 ^ 32 ≤ length entry.now.reaction.written + 3) }
{
    let Ok(records) = u32::try_from(entry.reaction.written.len()) else {
        return Err(PictureError::TooLong);
    };
    let crash: u64 = match entry.step.happening {
        Happening::Restart(_) => 1,
        _ => 0,
    };
    let written = crash + u64::from(records) + u64::from(mixed);
    let told = u64::from(entry.reaction.told.is_some());
    match u32::try_from(written.max(1) + told) {
        Ok(height) => Ok(height),
        Err(_) => Err(PictureError::TooLong),
    }
}

/// The rows of a step. TooLong: there are 2^32 rows.
fn step_rows(count: &mut Count, height: u32, stubs: usize) -> Result<StepRows, PictureError>
    requires { 0 < height }
    ensures rows { IfOk result (λ rows. HasRows count.old.row rows) }
    ensures next { IfOk result (λ rows. count.new.row ≡ rows.next) }
    ensures few { OnOk result (count.new.row ≤ count.old.row + 1 + height + stubs) }
    ensures err { IfErr result (λ e. e ≡ PictureError.TooLong → 2 ^ 32 ≤ count.old.row + 1 + height + stubs) }
{
    let first = count.begin()?;
    let last = count.take(height)? - 1;
    let Ok(stubs) = u32::try_from(stubs) else {
        return Err(PictureError::TooLong);
    };
    let next = count.take(stubs)?;
    Ok(StepRows { first, last, next })
}

/// Goes over the steps of a run, and over its mismatches beside them.
#[derive(Drop)]
struct Steps<'a> {
    entries: &'a [JournalEntry],
    fates: &'a [Fate],
    mismatches: &'a [Mismatch],
    made: usize,
    sent: usize,
    mixed: usize,
}

impl Steps<'_> {
    /// The rows of the next step, if there is one. TooLong: there are 2^32 rows.
    fn next(&mut self, count: &mut Count) -> Result<Option<StepRows>, PictureError>
        ensures rows { IfOk result (λ found. IsNext count.old.row count.new.row found) }
        ensures made { IfOk result (λ found. GoesOver self.old self.new (is_some found)) }
        ensures few { OnOk result (rows_with count.new self.new ≤ rows_with count.old self.old) }
        ensures err { IfErr result (λ e. e ≡ PictureError.TooLong → 2 ^ 32 ≤ rows_with count.old self.old) }
    {
        let Some(entry) = self.entries.get(self.made) else {
            return Ok(None);
        };
        let mixed = match self.mismatches.get(self.mixed) {
            None => false,
            Some(mismatch) => mismatch.step == self.made,
        };
        let messages = entry.reaction.messages.len();
        let stubs = count_stubs(self.fates, self.sent, messages);
        let rows = step_rows(count, height_of(entry, mixed)?, stubs)?;
        self.made += 1;
        self.sent = self.sent.saturating_add(messages);
        if mixed {
            self.mixed = self.mixed.saturating_add(1);
        }
        Ok(Some(rows))
    }
}

/// Adds the rows of the next step of an event, if there is one: whether the event has its rule. TooLong:
/// there are 2^32 rows.
#[tactic(auto, using(crate::proofs::Rises::step_on))]
fn add_step(
    event: usize,
    is_ruled: bool,
    steps: &mut Steps,
    count: &mut Count,
    rows: &mut Rows,
) -> Result<bool, PictureError>
    ensures rise { OnOk result (RiseTo 1 rows.old.steps.items count.old.row
        → RiseTo 1 rows.new.steps.items count.new.row) }
    ensures each { OnOk result (OneMore steps.old steps.new rows.old.steps.items rows.new.steps.items) }
    ensures few { OnOk result (rows_with count.new steps.new ≤ rows_with count.old steps.old) }
    ensures err { IfErr result (λ e. e ≡ PictureError.TooLong → 2 ^ 32 ≤ rows_with count.old steps.old) }
{
    let Some(one) = steps.next(count)? else {
        return Ok(is_ruled);
    };
    if !is_ruled {
        rows.rules.push(Rule {
            event,
            row: one.first,
        })?;
    }
    rows.steps.push(one)?;
    Ok(true)
}

/// Adds a row in which no step begins: that of a settle with nothing to deliver, or of a refused event.
/// TooLong: there are 2^32 rows.
fn add_idle(
    event: usize,
    is_ruled: bool,
    is_refused: bool,
    count: &mut Count,
    rows: &mut Rows,
) -> Result<(), PictureError>
    ensures steps { rows.new.steps.items ≡ rows.old.steps.items }
    ensures later { OnOk result (count.old.row ≤ count.new.row) }
    ensures few { OnOk result (count.new.row ≤ count.old.row + 2) }
    ensures err { IfErr result (λ e. e ≡ PictureError.TooLong → 2 ^ 32 ≤ count.old.row + 2) }
{
    let row = count.begin()?;
    if !is_ruled {
        rows.rules.push(Rule { event, row })?;
    }
    if is_refused {
        rows.refused = Some(row);
    }
    count.take(1)?;
    Ok(())
}

/// The rows of an event. TooLong: there are 2^32 rows.
#[tactic(auto, using(crate::proofs::Rises::rise_on))]
fn event_rows(
    event: usize,
    turn: &EventSteps,
    steps: &mut Steps,
    count: &mut Count,
    rows: &mut Rows,
) -> Result<(), PictureError>
    ensures rise { OnOk result (RiseTo 1 rows.old.steps.items count.old.row
        → RiseTo 1 rows.new.steps.items count.new.row) }
    ensures each { OnOk result (ForEach steps.old rows.old.steps.items
        → ForEach steps.new rows.new.steps.items) }
    ensures same { OnOk result (steps.new.entries ≡ steps.old.entries) }
    ensures few { OnOk result (rows_with count.new steps.new ≤ rows_with count.old steps.old + 2) }
    ensures err { IfErr result (λ e. e ≡ PictureError.TooLong → 2 ^ 32 ≤ rows_with count.old steps.old + 2) }
{
    let mut is_ruled = false;
    for _ in steps.made..turn.steps {
        is_ruled = add_step(event, is_ruled, steps, count, rows)?;
    }
    if is_ruled && !turn.refused {
        return Ok(());
    }
    add_idle(event, is_ruled, turn.refused, count, rows)
}

/// The rows of a run of these events and steps; steps after the last event have no rule. TooLong: there are
/// 2^32 rows; at most two are drawn for each event, one for each record and each message, and four more for
/// each step.
pub fn rows_of(
    alloc: Global,
    turns: &[EventSteps],
    entries: &[JournalEntry],
    fates: &[Fate],
    mismatches: &[Mismatch],
) -> Result<Rows, PictureError>
    ensures rise { IfOk result (λ rows. RiseTo 1 rows.steps.items rows.end) }
    ensures each { IfOk result (λ rows. length rows.steps.items ≡ length entries.now) }
    ensures err { IfErr result (λ e. e ≡ PictureError.TooLong
        → 2 ^ 32 ≤ most_rows (length turns.now) entries.now) }
{
    let mut count = Count {
        row: 1,
        ruler: 0,
        rulers: Vec::new(alloc),
    };
    let mut rows = Rows {
        steps: Vec::new(alloc),
        rules: Vec::new(alloc),
        rulers: Vec::new(alloc),
        refused: None,
        end: 0,
    };
    let mut steps = Steps {
        entries,
        fates,
        mismatches,
        made: 0,
        sent: 0,
        mixed: 0,
    };
    for (event, turn) in turns.iter().enumerate() {
        event_rows(event, turn, &mut steps, &mut count, &mut rows)?;
    }
    for _ in steps.made..entries.len() {
        add_step(turns.len(), true, &mut steps, &mut count, &mut rows)?;
    }
    rows.end = count.row;
    rows.rulers = count.rulers;
    Ok(rows)
}
