//! The picture of a run.

ghost use Rattle.std.specs.Prelude.{◌≡◌, ◌⊎◌, ◌≤◌, ◌++◌, [], IfErr, IfOk, List, OnOk, length, option_map};
ghost use Rattle.protocol_words.specs.Types.{AnyEvent};
ghost use Rattle.report_io.specs.Streams.{IsOfRun};
ghost use Rattle.picture_layout.specs.Long.{IsLong};
ghost use Rattle.tree_state.specs.Worlds.{WorldState};
ghost use Rattle.picture_run.specs.Lines.{refused_in};
ghost use Rattle.picture_run.specs.Pictures.{IsPicture};
ghost use Rattle.tree_world.specs.Worlds.{state};
ghost use Rattle.tree_engine.specs.Failures.{BreaksOff, CannotMake, DrawsTooLong};
ghost use Rattle.tree_engine.specs.Runs.{Draws, HasCome};
ghost use Rattle.tree_engine.specs.Trees.{ending};

use crate::run::{Refusal, Run};
use log_store::MemoryStore;
use picture_layout::{EventSteps, PictureError};
use picture_run::{Scene, picture};
use protocol::{Event, JournalEntry, LogRecord, StepError};
use report_io::{Failure, Status};
use run_notes::notes_of;
use std::alloc::{AllocError, Global};
use tree_world::World;

/// The steps that were made, each made again.
#[tactic(auto, using(crate::proofs::Traces::taken_at))]
fn entries_of(alloc: Global, world: &World<MemoryStore>) -> Result<Vec<JournalEntry>, AllocError>
    ensures { IfOk result (λ entries. entries.items ≡ (state world.now).entries) }
{
    let mut entries = Vec::new(alloc);
    for place in 0..world.made() {
        let Some(entry) = world.entry(place)? else {
            return Ok(entries);
        };
        entries.push(entry)?;
    }
    Ok(entries)
}

/// Makes these events, one after another, and answers how many steps were made after each, up to the refused
/// one.
fn make_turns(alloc: Global, run: &mut Run, events: &[Event]) -> Result<Vec<EventSteps>, Failure>
    ensures goes_on { OnOk result ((start : WorldState) (given : List AnyEvent)
        → HasCome start given run.old → HasCome start (given ++ events.now) run.new) }
    ensures few { IfOk result (λ turns. length turns.items ≤ length events.now) }
    ensures err { IfErr result (λ why. (why ≡ Failure.Memory) ⊎ ((start : WorldState) (given : List AnyEvent)
        → HasCome start given run.old → CannotMake start (given ++ events.now) why)) }
    ensures why { IfErr result IsOfRun }
{
    let mut turns = Vec::new(alloc);
    for event in events {
        let is_over = run.refusal.is_some();
        run.make(event.copied(alloc)?)?;
        if !is_over {
            turns.push(EventSteps {
                steps: run.world.made(),
                refused: run.refusal.is_some(),
            })?;
        }
    }
    Ok(turns)
}

/// How a run ended: it stopped at an event that was refused, or came to the end of its script.
pub fn status_of(refusal: Refusal) -> Status
    ensures { result ≡ ending refusal }
{
    match refusal {
        None => Status::Ended,
        Some(_) => Status::Stopped,
    }
}

/// Why an event was refused, if one was.
pub fn cause_of(refusal: Refusal) -> Option<StepError>
    ensures { result ≡ option_map (λ r. r.1) refusal }
{
    match refusal {
        None => None,
        Some((_, cause)) => Some(cause),
    }
}

/// The picture of a run of these events from these logs. Exhausted: it would have 2^32 rows or more.
fn drawn(
    alloc: Global,
    world: &World<MemoryStore>,
    refusal: Refusal,
    events: &[Event],
    turns: &[EventSteps],
    logs: &[Vec<LogRecord>],
) -> Result<Vec<u8>, Failure>
    ensures text { IfOk result (λ text. IsPicture (state world.now).tree (length events.now)
        (state world.now).entries
        (refused_in events.now refusal) text.items) }
    ensures err { IfErr result (λ why. (why ≡ Failure.Memory) ⊎ ((why ≡ Failure.Exhausted)
        × IsLong (state world.now).tree (length turns.now) (state world.now).entries)) }
{
    let entries = entries_of(alloc, world)?;
    let notes = notes_of(alloc, world.tree().entries(), logs, &entries)?;
    let scene = Scene {
        tree: world.tree().entries(),
        events,
        turns,
        entries: &entries,
        notes: &notes,
        refusal,
    };
    match picture(alloc, &scene) {
        Ok(text) => Ok(text),
        Err(PictureError::Memory) => Err(Failure::Memory),
        Err(PictureError::TooLong) => Err(Failure::Exhausted),
    }
}

/// The picture of a run of these events from these logs, and how the run ended. Exhausted: it would have
/// 2^32 rows or more.
fn drawn_run(
    alloc: Global,
    run: &Run,
    events: &[Event],
    turns: &[EventSteps],
    logs: &[Vec<LogRecord>],
) -> Result<(Vec<u8>, Status), Failure>
    ensures text { IfOk result (λ r. IsPicture (state run.now.world).tree (length events.now)
        (state run.now.world).entries
        (refused_in events.now run.now.refusal) r.0.items) }
    ensures status { IfOk result (λ r. r.1 ≡ ending run.now.refusal) }
    ensures err { IfErr result (λ why. (why ≡ Failure.Memory) ⊎ ((why ≡ Failure.Exhausted)
        × IsLong (state run.now.world).tree (length turns.now) (state run.now.world).entries)) }
{
    let text = drawn(alloc, &run.world, run.refusal, events, turns, logs)?;
    Ok((text, status_of(run.refusal)))
}

/// Makes these events in a tree that has just opened over these logs, and draws the run.
fn draw_run_from(
    alloc: Global,
    run: Run,
    events: &[Event],
    logs: &[Vec<LogRecord>],
) -> Result<(Vec<u8>, Status), Failure>
    requires { HasCome (state run.world) [] run }
    ensures draws { IfOk result (λ r. Draws (state run.world) events.now r.1 r.0.items) }
    ensures err { IfErr result (λ why. (why ≡ Failure.Memory)
        ⊎ BreaksOff (state run.world) events.now why
        ⊎ ((why ≡ Failure.Exhausted) × DrawsTooLong (state run.world) events.now)) }
    ensures why { IfErr result IsOfRun }
{
    let mut run = run;
    match make_turns(alloc, &mut run, events) {
        Err(failure) => {
            run.close();
            Err(failure)
        }
        Ok(turns) => {
            let drawn = drawn_run(alloc, &run, events, &turns, logs);
            run.close();
            drawn
        }
    }
}

/// Makes these events in a tree that has just opened, and draws the run.
pub(crate) fn draw_run(
    alloc: Global,
    run: Run,
    events: &[Event],
) -> Result<(Vec<u8>, Status), Failure>
    requires { HasCome (state run.world) [] run }
    ensures draws { IfOk result (λ r. Draws (state run.world) events.now r.1 r.0.items) }
    ensures err { IfErr result (λ why. (why ≡ Failure.Memory)
        ⊎ BreaksOff (state run.world) events.now why
        ⊎ ((why ≡ Failure.Exhausted) × DrawsTooLong (state run.world) events.now)) }
    ensures why { IfErr result IsOfRun }
{
    match run.world.logs() {
        Ok(logs) => draw_run_from(alloc, run, events, &logs),
        Err(_) => {
            run.close();
            Err(Failure::Memory)
        }
    }
}
