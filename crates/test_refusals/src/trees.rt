//! A tree of which one allocation is refused while it runs.

use crate::Met;
use crate::refuser::Refuser;
use log_store::MemoryStore;
use protocol::{Event, Happening, Input, StepError, Tree};
use std::alloc::Global;
use tree_engine::{Failure, trace_text};
use tree_script::read;
use tree_world::{World, copied_tree};

/// A script of a tree.
#[derive(Drop)]
struct Script {
    tree: Tree,
    events: Vec<Event>,
}

/// All that is seen of a tree: its trace, which has each message and record, and the log and the number of
/// live cases of each process.
#[derive(Drop, PartialEq, Eq)]
struct Sight {
    trace: Vec<u8>,
    logs: Vec<Vec<u8>>,
    live: Vec<usize>,
}

/// How a run with a refusal ended.
#[derive(Clone, Copy, PartialEq, Eq)]
enum Ended {
    /// No allocation was refused, and it ended as a run without refusals.
    Whole,
    /// One was, and all was as it has to be: the answer is Memory, or, where less room was enough, the whole
    /// run.
    Refused,
}

type Opened = World<MemoryStore>;

fn opened(alloc: Global, tree: &Tree) -> Option<Opened> {
    let tree = copied_tree(alloc, tree.entries()).ok()?;
    tree.check().ok()?;
    World::new(alloc, tree).ok()
}

/// What is seen of a tree as it is.
fn sight_of(alloc: Global, world: &Opened) -> Result<Sight, Failure> {
    let (trace, _) = trace_text(alloc, world, None)?;
    let mut logs = Vec::new(alloc);
    let mut live = Vec::new(alloc);
    for entry in world.tree().entries() {
        logs.push(world.log_text(entry.id)?)?;
        live.push(world.live(entry.id).unwrap_or(0))?;
    }
    Ok(Sight { trace, logs, live })
}

/// What is seen of the tree when all events are made.
fn sight_in_the_end(alloc: Global, script: &Script) -> Option<Sight> {
    let mut world = opened(alloc, &script.tree)?;
    let ran = world.run(&script.events);
    let sight = sight_of(alloc, &world);
    world.close();
    ran.ok()?;
    sight.ok()
}

/// The delivery that the step at this place of a journal is.
fn delivery_at(world: &Opened, place: usize) -> Option<Event> {
    match world.entry(place).ok()??.step.happening {
        Happening::Input(Input::Message(number, _)) => Some(Event::Deliver(number)),
        _ => None,
    }
}

/// Delivers in one tree what another has delivered after the steps of the first.
fn deliver_alike(world: &mut Opened, other: &Opened) -> Option<()> {
    for place in world.made()..other.made() {
        let delivery = delivery_at(other, place)?;
        world.apply(delivery).ok()?;
    }
    Some(())
}

/// What is seen of a tree that made N events, and of the next, a settle, what another tree delivered.
fn sight_behind(alloc: Global, script: &Script, made: usize, other: &Opened) -> Option<Sight> {
    let mut world = opened(alloc, &script.tree)?;
    let ran = world.run(script.events.get(..made)?);
    let alike = deliver_alike(&mut world, other);
    let sight = sight_of(alloc, &world);
    world.close();
    ran.ok()?;
    alike?;
    sight.ok()
}

/// Runs on after the refusal of the event after N. Whether the tree stood as one that made just these,
/// and in the end stands as one of which nothing was refused.
fn runs_on(
    alloc: Global,
    script: &Script,
    world: &mut Opened,
    made: usize,
    whole: &Sight,
) -> Option<bool> {
    let is_event = made < script.events.len();
    let settles = matches!(script.events.get(made)?, Event::Settle);
    let before = sight_behind(alloc, script, made, world)?;
    let stands = sight_of(alloc, world).ok()? == before;
    let is_alone = settles || has_made(alloc, script, made)? == world.made();
    world.run(script.events.get(made..)?).ok()?;
    Some(is_event && stands && is_alone && sight_of(alloc, world).ok()? == *whole)
}

/// How many steps N events make.
fn has_made(alloc: Global, script: &Script, made: usize) -> Option<usize> {
    let mut world = opened(alloc, &script.tree)?;
    let ran = world.run(script.events.get(..made)?);
    let steps = world.made();
    world.close();
    ran.ok()?;
    Some(steps)
}

/// Runs the script's events with the nth allocation refused. None if the run is not as it has to be.
fn run_refused(
    alloc: Global,
    refuser: &mut Refuser,
    script: &Script,
    world: &mut Opened,
    nth: usize,
    whole: &Sight,
) -> Option<Ended> {
    refuser.refuse(nth);
    let ran = world.run(&script.events);
    match (refuser.has_refused(), ran) {
        (false, Ok(())) if sight_of(alloc, world).ok()? == *whole => Some(Ended::Whole),
        (true, Ok(())) if sight_of(alloc, world).ok()? == *whole => Some(Ended::Refused),
        (true, Err((made, StepError::Memory))) if runs_on(alloc, script, world, made, whole)? => {
            Some(Ended::Refused)
        }
        _ => None,
    }
}

/// Runs the script's events in a tree that opens for it, with the nth allocation refused. None if the run
/// is not as it has to be.
fn open_and_run(
    alloc: Global,
    refuser: &mut Refuser,
    script: &Script,
    nth: usize,
    whole: &Sight,
) -> Option<Ended> {
    let mut world = opened(alloc, &script.tree)?;
    let ended = run_refused(alloc, refuser, script, &mut world, nth, whole);
    world.close();
    ended
}

/// More allocations than a script makes.
const MOST_ALLOCATIONS: usize = 1 << 20;

/// Runs a script with the first allocation refused, the second, and so on, until a run meets no refusal;
/// once, where there is nothing that refuses.
pub(crate) fn sweep_events(alloc: Global, refuser: &mut Refuser, input: &[u8]) -> Option<Met> {
    let (tree, events) = read(alloc, input).ok()?;
    let script = Script { tree, events };
    let whole = sight_in_the_end(alloc, &script)?;
    let first = refuser.first();
    let mut met = Met::nothing();
    for nth in first..MOST_ALLOCATIONS {
        met.runs = met.runs.saturating_add(1);
        match open_and_run(alloc, refuser, &script, nth, &whole)? {
            Ended::Whole => return Some(met),
            Ended::Refused => met.refusals = met.refusals.saturating_add(1),
        }
    }
    None
}
