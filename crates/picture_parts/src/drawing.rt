//! Draws a part of a run.

ghost use Rattle.std.specs.Prelude.{◌≡◌, IfNone, IfOk, IfSome, Option, length};
ghost use Rattle.protocol_words.specs.Types.{AnyEvent};
ghost use Rattle.picture_run.specs.Pictures.{IsPicture};
ghost use Rattle.tree_world.specs.Worlds.{state};
ghost use Rattle.tree_engine.specs.Trees.{ending};
ghost use Rattle.picture_parts.specs.Parts.{Answers, HasPicture, count_at};
ghost use Rattle.picture_parts.specs.Drawn.{AnswersFrom, AnswersScript, HasNoRun, IsNotTooLarge, IsTooLarge};

use crate::belonging::{Belonging, Choice, marks_of};
use crate::caption::{caption_of_case, caption_of_events, captioned};
use crate::cutting::{drawn_from, sent_of};
use crate::events::make_events;
use crate::fault::PartFault;
use crate::part::{MOST_EVENTS, MOST_PROCESSES, PicturePart, Range, Turns, at_root, is_there};
use log_store::MemoryStore;
use picture_layout::{EventSteps, PictureError};
use picture_run::{Scene, picture};
use protocol::{Event, JournalEntry, LogRecord, ProcessId, Txn};
use reopen_script::read_reopen;
use report_io::{Failure, Status};
use run_notes::Notes;
use std::alloc::{AllocError, Global};
use tree_engine::{Refusal, cause_of, opened, status_of};
use tree_script::ScriptError;
use tree_world::World;

/// A picture and how its run ended, or why it is not drawn.
pub type Picture = Result<(Vec<u8>, Status), PartFault>;

/// How many steps are made after N events, if the first number of steps is made before them.
fn count_at(start: usize, counts: &[usize], events: usize) -> usize
    ensures { result ≡ count_at start counts.now events }
{
    if events == 0 {
        return start;
    }
    match counts.get(events - 1) {
        None => 0,
        Some(count) => *count,
    }
}

/// A run: its tree, the events of its script, how many steps are made after each of those that were made, and
/// which was refused, if one was.
#[derive(Clone, Copy)]
struct Run<'a> {
    world: &'a World<MemoryStore>,
    /// The records of the logs that it began with.
    logs: &'a [Vec<LogRecord>],
    events: &'a [Event],
    counts: &'a [usize],
    refusal: Refusal,
}

/// The events at these places.
fn events_at(alloc: Global, events: &[Event], places: &[usize]) -> Result<Vec<Event>, AllocError> {
    let mut found = Vec::new(alloc);
    for place in places {
        if let Some(event) = events.get(*place) {
            found.push(event.copied(alloc)?)?;
        }
    }
    Ok(found)
}

/// What is told of each of the steps that are drawn.
fn notes_shown(alloc: Global, run: &Run, marks: &[Belonging]) -> Result<Vec<Vec<u8>>, AllocError> {
    let mut notes = Notes::new(alloc, run.world.tree().entries(), run.logs)?;
    let mut shown = Vec::new(alloc);
    for marked in marks {
        let told = notes.take(&marked.entry)?;
        if !marked.shown {
            continue;
        }
        match told {
            Some(words) => shown.push(words)?,
            None => shown.push(Vec::new(alloc))?,
        }
    }
    Ok(shown)
}

/// The picture of these steps, which these events made. Exhausted: it would have 2^32 rows or more.
fn draw_steps(
    alloc: Global,
    run: &Run,
    events: &[Event],
    turns: &[EventSteps],
    entries: &[JournalEntry],
    notes: &[Vec<u8>],
) -> Result<Vec<u8>, Failure>
    ensures { IfOk result (λ text. (refused : Option AnyEvent)
        × IsPicture (state run.now.world.now).tree (length events.now) entries.now refused text.items) }
{
    let scene = Scene {
        tree: run.world.tree().entries(),
        events,
        turns,
        entries,
        notes,
        refusal: cause_of(run.refusal).map(|cause| (turns.len().saturating_sub(1), cause)),
    };
    match picture(alloc, &scene) {
        Ok(text) => Ok(text),
        Err(PictureError::Memory) => Err(Failure::Memory),
        Err(PictureError::TooLong) => Err(Failure::Exhausted),
    }
}

/// The picture of these steps, of which these are the events, below its caption.
fn draw_turns(
    alloc: Global,
    run: &Run,
    turns: &Turns,
    marks: &[Belonging],
    entries: &[JournalEntry],
    caption: &[u8],
) -> Result<Vec<u8>, Failure>
    ensures { IfOk result (λ text. HasPicture (state run.now.world.now).tree entries.now text.items) }
{
    let events = events_at(alloc, run.events, &turns.places)?;
    let notes = notes_shown(alloc, run, marks)?;
    let text = draw_steps(alloc, run, &events, &turns.turns, entries, &notes)?;
    Ok(captioned(alloc, caption, &text)?)
}

/// The picture of a transaction's part of a run, if there is one, and it is small enough.
fn draw_case(
    alloc: Global,
    run: &Run,
    root: ProcessId,
    start: usize,
    txn: &Txn,
) -> Result<Result<Vec<u8>, PartFault>, Failure>
    ensures { IfOk result (Answers (PicturePart.Case txn.now) (state run.now.world.now).tree root start
        (state run.now.world.now).entries run.now.counts.now) }
{
    let txn = at_root(root, txn);
    let marks = marks_of(alloc, run.world, &Choice::OfTxn(txn))?;
    if !is_there(&marks) {
        return Ok(Err(PartFault::NoCase));
    }
    let counts = run.counts;
    let turns = Turns::of_shown(alloc, counts, &marks, run.refusal.is_some())?;
    let size = turns.turns.len();
    if size > MOST_EVENTS {
        return Ok(Err(PartFault::Events(size)));
    }
    let entries = drawn_from(alloc, Some(txn), &marks)?;
    let sent = sent_of(alloc, Some(txn), &marks)?;
    let caption = caption_of_case(alloc, &txn, counts.len(), &turns.places, &sent)?;
    Ok(Ok(draw_turns(alloc, run, &turns, &marks, &entries, &caption)?))
}

/// The picture of these events of a run, if it has them, and they are few enough.
fn draw_range(
    alloc: Global,
    run: &Run,
    root: ProcessId,
    start: usize,
    range: &Range,
) -> Result<Result<Vec<u8>, PartFault>, Failure>
    ensures { IfOk result (Answers (PicturePart.Events range.now) (state run.now.world.now).tree root start
        (state run.now.world.now).entries run.now.counts.now) }
{
    let counts = run.counts;
    if range.last > counts.len() {
        return Ok(Err(PartFault::Beyond(counts.len())));
    }
    let size = (range.last + 1).saturating_sub(range.first);
    if size > MOST_EVENTS {
        return Ok(Err(PartFault::Events(size)));
    }
    let from = count_at(start, counts, range.first.saturating_sub(1));
    let to = count_at(start, counts, range.last);
    let marks = marks_of(alloc, run.world, &Choice::Between(from, to))?;
    let entries = drawn_from(alloc, None, &marks)?;
    let turns = Turns::of_events(alloc, counts, *range, from, run.refusal.is_some())?;
    let sent = sent_of(alloc, None, &marks)?;
    let caption = caption_of_events(alloc, range, counts.len(), &sent)?;
    Ok(Ok(draw_turns(alloc, run, &turns, &marks, &entries, &caption)?))
}

/// The picture of a part of a run over this root, which had N steps before its events.
fn draw_part(
    alloc: Global,
    run: &Run,
    root: ProcessId,
    start: usize,
    part: &PicturePart,
) -> Result<Result<Vec<u8>, PartFault>, Failure>
    ensures { IfOk result (Answers part.now (state run.now.world.now).tree root start
        (state run.now.world.now).entries run.now.counts.now) }
{
    match part {
        PicturePart::Case(txn) => draw_case(alloc, run, root, start, txn),
        PicturePart::Events(range) => draw_range(alloc, run, root, start, range),
    }
}

/// Makes these events in a tree that has just opened, and draws a part of the run.
fn draw_events(
    alloc: Global,
    world: &mut World<MemoryStore>,
    root: ProcessId,
    events: &[Event],
    part: &PicturePart,
) -> Result<Picture, Failure>
    ensures { IfOk result (AnswersFrom part.now root (state world.old) events.now) }
{
    let start = world.made();
    let logs = world.logs()?;
    let mut counts = Vec::new(alloc);
    let refusal = make_events(alloc, &mut counts, world, events)?;
    let status = status_of(refusal);
    let run = Run {
        world,
        logs: &logs,
        events,
        counts: &counts,
        refusal,
    };
    match draw_part(alloc, &run, root, start, part)? {
        Ok(text) => Ok(Ok((text, status))),
        Err(fault) => Ok(Err(fault)),
    }
}

/// The picture of a part of the run of a script, as one SVG file, or why it is not drawn. The steps of the
/// transaction or of the events are drawn; of a transaction also the restarts of the processes that took part
/// in it before, and of all these steps what is of no other. Messages are numbered from 1 in the picture.
/// None: the script is refused, or a log that it begins with is damaged. An error says that memory was
/// refused, or why an event could not be made.
#[tactic(auto, using(crate::proofs::Answering::answers_script))]
pub fn picture_of(
    alloc: Global,
    input: &[u8],
    part: &PicturePart,
) -> Result<Option<Picture>, Failure>
    ensures answer { IfOk result (λ found. IfSome found (AnswersScript part.now input.now)) }
    ensures none { IfOk result (λ found. IfNone found (HasNoRun input.now)) }
{
    let (tree, logs, events) = match read_reopen(alloc, input) {
        Ok(script) => script,
        Err(ScriptError::Fault(_)) => return Ok(None),
        Err(ScriptError::Memory) => return Err(Failure::Memory),
    };
    let processes = tree.entries().len();
    if processes > MOST_PROCESSES {
        return Ok(Some(Err(PartFault::Processes(processes))));
    }
    let root = tree.root();
    match opened(alloc, tree, logs)? {
        Ok(run) => {
            let mut world = run.into_world();
            let drawn = draw_events(alloc, &mut world, root, &events, part);
            world.close();
            Ok(Some(drawn?))
        }
        Err(_) => Ok(None),
    }
}

/// Why the whole run of a script is not to be drawn: its tree has more than 40 processes, or it more than
/// 2,000 events. None: neither is so, or the script is refused.
pub fn whole_fault(alloc: Global, input: &[u8]) -> Result<Option<PartFault>, Failure>
    ensures fault { IfOk result (λ found. IfSome found (IsTooLarge input.now)) }
    ensures none { IfOk result (λ found. IfNone found (IsNotTooLarge input.now)) }
{
    let (tree, _logs, events) = match read_reopen(alloc, input) {
        Ok(script) => script,
        Err(ScriptError::Fault(_)) => return Ok(None),
        Err(ScriptError::Memory) => return Err(Failure::Memory),
    };
    let processes = tree.entries().len();
    if processes > MOST_PROCESSES {
        return Ok(Some(PartFault::Processes(processes)));
    }
    if events.len() > MOST_EVENTS {
        return Ok(Some(PartFault::Events(events.len())));
    }
    Ok(None)
}
