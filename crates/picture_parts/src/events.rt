//! Events that are made one after another, with how many steps are made after each.

ghost use Rattle.std.specs.Prelude.{◌≡◌, ◌++◌, ◌∷◌, [], IfErr, IfOk, OnOk, length};
ghost use Rattle.tree_state.specs.Worlds.{Applies, Stops};
ghost use Rattle.tree_engine.specs.Runs.{IsOwn};
ghost use Rattle.tree_world.specs.Worlds.{state};
ghost use Rattle.picture_parts.specs.Counted.{CountsTo};

use log_store::MemoryStore;
use protocol::{Event, StepError};
use report_io::Failure;
use std::alloc::Global;
use tree_engine::{Refusal, own_refusal};
use tree_world::World;

/// Makes an event, and adds how many steps are made then. Tells why the event is refused, if it is.
fn make_event(
    counts: &mut Vec<usize>,
    world: &mut World<MemoryStore>,
    event: Event,
) -> Result<Result<(), StepError>, Failure>
    ensures made { IfOk result (λ made. OnOk made (Applies (state world.old) event (state world.new))) }
    ensures refused { IfOk result (λ made. IfErr made
        (λ why. Stops (state world.old) event why (state world.new))) }
    ensures own { IfOk result (λ made. IfErr made IsOwn) }
    ensures counts { OnOk result (counts.new.items ≡ counts.old.items ++ length
        (state world.new).entries ∷ []) }
{
    let refusal = match world.apply(event) {
        Ok(()) => None,
        Err(refusal) => Some(own_refusal(refusal)?),
    };
    counts.push(world.made())?;
    match refusal {
        None => Ok(Ok(())),
        Some(refusal) => Ok(Err(refusal)),
    }
}

/// Makes these events, one after another, up to the first that is refused, and counts the steps after each.
pub(crate) fn make_events(
    alloc: Global,
    counts: &mut Vec<usize>,
    world: &mut World<MemoryStore>,
    events: &[Event],
) -> Result<Refusal, Failure>
    requires { counts.old.items ≡ [] }
    ensures { IfOk result (λ refusal. CountsTo (state world.old) events.now refusal (state world.new)
        counts.new.items) }
{
    let mut made: usize = 0;
    for event in events {
        let Some(number) = made.checked_add(1) else {
            return Err(Failure::Exhausted);
        };
        match make_event(counts, world, event.copied(alloc)?)? {
            Ok(()) => {}
            Err(refusal) => return Ok(Some((made, refusal))),
        }
        made = number;
    }
    Ok(None)
}
