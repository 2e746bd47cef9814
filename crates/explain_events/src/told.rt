//! What is told of the steps of a run.

use crate::history::History;
use run_notes::Notes;
use std::alloc::AllocError;
use std::str;

/// How many of these events were made before a step, from the number made before an earlier one on.
fn made_before(steps: &[usize], earlier: usize, step: usize) -> usize {
    let Some(rest) = steps.get(earlier..) else {
        return earlier;
    };
    let mut made = earlier;
    for steps in rest {
        if *steps > step {
            break;
        }
        made = made.saturating_add(1);
    }
    made
}

/// Adds a line for each step of a run of which something is told: in which event, and what.
pub(crate) fn push_told(
    out: &mut String,
    notes: &mut Notes,
    history: &History<'_>,
) -> Result<(), AllocError> {
    let mut events = 0;
    for step in 0..history.world.made() {
        let Some(entry) = history.world.entry(step)? else {
            return Ok(());
        };
        events = made_before(history.steps, events, step);
        if let Some(words) = notes.take(&entry)? {
            push_line(out, events, words.as_slice())?;
        }
    }
    Ok(())
}

/// Adds the line of what is told of a step after this number of events.
fn push_line(out: &mut String, events: usize, words: &[u8]) -> Result<(), AllocError> {
    let number = (events as u64).saturating_add(1);
    match str::from_utf8(words) {
        Ok(words) => writeln!(out, "rstar: event {number}: {words}"),
        Err(_) => Ok(()),
    }
}
