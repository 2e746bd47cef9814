//! The deliveries of a settle.

ghost use Rattle.std.specs.Prelude.{◌≡◌, ◌++◌, IfOk, OnOk, drop};
ghost use Rattle.tree_world.specs.Worlds.{state};
ghost use Rattle.crash_engine.specs.Settles.{deliveries_in, delivery_by};

use log_store::MemoryStore;
use protocol::{Event, Happening, Input, JournalEntry};
use std::alloc::{AllocError, Global};
use tree_world::World;

/// Adds the delivery by which this happened, if it was one.
fn push_delivery(events: &mut Vec<Event>, happening: &Happening) -> Result<(), AllocError>
    ensures { OnOk result (events.new.items ≡ events.old.items ++ delivery_by happening.now) }
{
    match happening {
        Happening::Input(Input::Message(number, _)) => {
            events.push(Event::Deliver(*number))?;
            Ok(())
        }
        _ => Ok(()),
    }
}

/// The deliveries among these steps, in order.
fn deliveries_among(alloc: Global, steps: &[JournalEntry]) -> Result<Vec<Event>, AllocError>
    ensures { IfOk result (λ events. events.items ≡ deliveries_in steps.now) }
{
    let mut events = Vec::new(alloc);
    for entry in steps {
        push_delivery(&mut events, &entry.step.happening)?;
    }
    Ok(events)
}

/// The deliveries that a tree made after its first steps, of which there were this many, in order.
pub(crate) fn deliveries_after(
    alloc: Global,
    world: &World<MemoryStore>,
    steps: usize,
) -> Result<Vec<Event>, AllocError>
    ensures { IfOk result (λ events. events.items ≡ deliveries_in (drop steps (state world.now).entries)) }
{
    let trace = world.steps()?;
    match trace.get(steps..) {
        Some(later) => deliveries_among(alloc, later),
        None => Ok(Vec::new(alloc)),
    }
}
