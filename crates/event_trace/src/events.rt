//! Events that are made one after another, with the lines of the steps of each.

ghost use Rattle.std.specs.Prelude.{◌≡◌, ◌++◌, IfErr, IfOk, OnOk, drop, length};
ghost use Rattle.tree_state.specs.Worlds.{Applies, Stops};
ghost use Rattle.tree_engine.specs.Runs.{IsOwn};
ghost use Rattle.tree_world.specs.Worlds.{state};
ghost use Rattle.event_trace.specs.Numbered.{numbered, sent_after, steps_text};
ghost use Rattle.event_trace.specs.Told.{TellsTo};

use crate::lines::push_numbered;
use crate::steps::push_steps;
use log_store::MemoryStore;
use protocol::{Event, StepError};
use report_io::Failure;
use std::alloc::Global;
use tree_engine::{Refusal, own_refusal};
use tree_world::World;

/// Makes an event, and adds the lines of its steps, each with this number before it; N messages were sent
/// before. Tells how many are sent then, or why the event is refused.
fn make_event(
    alloc: Global,
    out: &mut Vec<u8>,
    world: &mut World<MemoryStore>,
    event: Event,
    number: u64,
    sent: u64,
) -> Result<Result<u64, StepError>, Failure>
    ensures made { IfOk result (λ made. OnOk made (Applies (state world.old) event (state world.new))) }
    ensures refused { IfOk result (λ made. IfErr made
        (λ why. Stops (state world.old) event why (state world.new))) }
    ensures own { IfOk result (λ made. IfErr made IsOwn) }
    ensures text { OnOk result (out.new.items
        ≡ out.old.items ++ numbered number (steps_text sent (state world.old) (state world.new))) }
    ensures sent { IfOk result (λ made. IfOk made (λ next. next
        ≡ sent_after sent (drop (length (state world.old).entries) (state world.new).entries))) }
{
    let from = world.made();
    let refusal = match world.apply(event) {
        Ok(()) => None,
        Err(refusal) => Some(own_refusal(refusal)?),
    };
    let mut lines = Vec::new(alloc);
    let next = push_steps(&mut lines, world, from, sent)?;
    push_numbered(out, number, &lines)?;
    match refusal {
        None => Ok(Ok(next)),
        Some(refusal) => Ok(Err(refusal)),
    }
}

/// Makes these events, one after another, up to the first that is refused, and adds the lines of the steps of
/// each, with its number before each line: the first event has 1. N messages were sent before.
pub(crate) fn make_events(
    alloc: Global,
    out: &mut Vec<u8>,
    world: &mut World<MemoryStore>,
    events: &[Event],
    sent: u64,
) -> Result<Refusal, Failure>
    ensures { IfOk result (λ refusal. TellsTo (state world.old) sent out.old.items events.now refusal
        (state world.new) out.new.items) }
{
    let mut total = sent;
    let mut made: usize = 0;
    for event in events {
        let Some(number) = made.checked_add(1) else {
            return Err(Failure::Exhausted);
        };
        match make_event(
            alloc,
            out,
            world,
            event.copied(alloc)?,
            number as u64,
            total,
        )? {
            Ok(next) => total = next,
            Err(refusal) => return Ok(Some((made, refusal))),
        }
        made = number;
    }
    Ok(None)
}
