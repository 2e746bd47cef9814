//! What a run leaves that its script may have meant to do.

use crate::clean::cleaned;
use crate::history::{History, play};
use crate::told::push_told;
use log_store::MemoryStore;
use protocol::{Event, Happening, Input, JournalEntry};
use reopen_script::read_reopen;
use report_io::Failure;
use run_notes::Notes;
use std::alloc::{AllocError, Global};
use tree_engine::Run;
use tree_world::World;

/// The number of the message that a step delivered, if it delivered one.
fn delivered_in(entry: &JournalEntry) -> Option<u64> {
    match entry.step.happening {
        Happening::Input(Input::Message(number, _)) => Some(number),
        _ => None,
    }
}

/// How many messages were sent and never delivered.
fn undelivered(alloc: Global, world: &World<MemoryStore>) -> Result<usize, AllocError> {
    let sent = world.sent()?;
    let mut waits = Vec::new(alloc);
    for _ in sent.iter() {
        waits.push(true)?;
    }
    for place in 0..world.made() {
        let Some(entry) = world.entry(place)? else {
            break;
        };
        if let Some(number) = delivered_in(&entry) {
            if let Some(at) = waits.get_mut(number.saturating_sub(1) as usize) {
                *at = false;
            }
        }
    }
    Ok(waits.iter().filter(|waits| **waits).count())
}

/// Adds how many messages a run leaves undelivered, if it leaves some.
fn push_rest(
    alloc: Global,
    out: &mut String,
    world: &World<MemoryStore>,
) -> Result<(), AllocError> {
    match undelivered(alloc, world)? {
        0 => Ok(()),
        1 => out.push_str("rstar: 1 message was not delivered\n"),
        count => writeln!(out, "rstar: {count} messages were not delivered"),
    }
}

/// What is to be noted of the run of a tree script, in lines: why managers vote NO and what gets read, if
/// that is to be explained; and how many messages it leaves undelivered, unless an event is refused. Of a
/// script that is refused there is nothing. An error says why the run could not be made again, or that memory
/// was refused.
pub fn notes_text(alloc: Global, input: &[u8], explains: bool) -> Result<String, Failure> {
    let mut out = String::new(alloc);
    let Ok((tree, logs, events)) = read_reopen(alloc, input) else {
        return Ok(out);
    };
    if let Err(_) = tree.check() {
        return Ok(out);
    }
    let opened = match logs {
        None => Ok(Run::open(alloc, tree)?),
        Some(logs) => Run::reopen(alloc, tree, logs.as_slice())?,
    };
    let Ok(run) = opened else {
        return Ok(out);
    };
    let mut run = run;
    let noted = push_notes(alloc, &mut out, &mut run, &events, explains);
    run.close();
    noted?;
    Ok(cleaned(alloc, &out)?)
}

/// The notes of a tree that has just opened.
fn opened_notes(alloc: Global, world: &World<MemoryStore>) -> Result<Notes, AllocError> {
    let logs = world.logs()?;
    Notes::new(alloc, world.tree().entries(), &logs)
}

/// Makes these events in a run that has just opened, and adds its notes: what is told of its steps, if that
/// is to be explained, and how many messages it leaves undelivered, unless an event is refused.
fn push_notes(
    alloc: Global,
    out: &mut String,
    run: &mut Run,
    events: &[Event],
    explains: bool,
) -> Result<(), Failure> {
    let mut steps = Vec::new(alloc);
    let notes = match explains {
        true => Some(opened_notes(alloc, run.world())?),
        false => None,
    };
    play(alloc, run, events, &mut steps)?;
    if let Some(mut notes) = notes {
        let history = History {
            world: run.world(),
            events,
            steps: steps.as_slice(),
        };
        push_told(out, &mut notes, &history)?;
    }
    if run.refusal().is_none() {
        push_rest(alloc, out, run.world())?;
    }
    Ok(())
}
