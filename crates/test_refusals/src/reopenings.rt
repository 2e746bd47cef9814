//! A tree that opens over the logs of an earlier run, of which one allocation is refused under that.

use crate::Met;
use crate::refuser::Refuser;
use log_script::{ProcessLogs, bytes_of};
use log_store::MemoryStore;
use protocol::{Event, Tree};
use reopen_script::read_reopen;
use std::alloc::Global;
use std::str;
use tree_engine::trace_text;
use tree_world::{TreeReopenError, World, copied_tree};

/// A script that begins its events with logs.
#[derive(Drop)]
struct Script {
    tree: Tree,
    logs: ProcessLogs,
    events: Vec<Event>,
}

/// What is seen of a tree when all events are made: the lines of its trace but those of records, which name
/// boots, and the number of live cases of each process.
#[derive(Drop, PartialEq, Eq)]
struct Course {
    lines: Vec<u8>,
    live: Vec<usize>,
}

/// How an opening with a refusal ended.
#[derive(Clone, Copy, PartialEq, Eq)]
enum Ended {
    /// No allocation was refused, and the tree opened and went on as one of which nothing was refused.
    Whole,
    /// One was, and all was as it has to be: the answer is Memory, or, if less room was enough, the tree
    /// opened; it went on so, at once or over the stores that were handed back.
    Refused,
}

type Opened = World<MemoryStore>;

type Refused = (TreeReopenError, Vec<MemoryStore>);

/// A store for each process, with its log.
fn stores_of(alloc: Global, script: &Script) -> Option<Vec<MemoryStore>> {
    let mut stores = Vec::new(alloc);
    for entry in script.tree.entries() {
        let bytes = bytes_of(script.logs.as_slice(), entry.id);
        let bytes = Vec::from_slice(alloc, bytes).ok()?;
        stores.push(MemoryStore::from_bytes(bytes)).ok()?;
    }
    Some(stores)
}

/// The lines of a trace but those of records.
fn lines_of(alloc: Global, trace: &[u8]) -> Option<Vec<u8>> {
    let mut out = Vec::new(alloc);
    for line in str::from_utf8(trace).ok()?.lines() {
        if !line.starts_with("log ") {
            out.extend_from_slice(line.as_bytes()).ok()?;
            out.push(b'\n').ok()?;
        }
    }
    Some(out)
}

fn course_of(alloc: Global, world: &Opened) -> Option<Course> {
    let (trace, _) = trace_text(alloc, world, None).ok()?;
    let mut live = Vec::new(alloc);
    for entry in world.tree().entries() {
        live.push(world.live(entry.id).unwrap_or(0)).ok()?;
    }
    let lines = lines_of(alloc, trace.as_slice())?;
    Some(Course { lines, live })
}

/// Makes the events in a tree that has opened, and answers what is seen of it then.
fn course_behind(alloc: Global, script: &Script, world: &mut Opened) -> Option<Course> {
    world.run(&script.events).ok()?;
    course_of(alloc, world)
}

/// The tree over these stores.
fn opened(
    alloc: Global,
    script: &Script,
    stores: Vec<MemoryStore>,
) -> Option<Result<Opened, Refused>> {
    let tree = copied_tree(alloc, script.tree.entries()).ok()?;
    tree.check().ok()?;
    Some(World::reopen(alloc, tree, stores))
}

/// What is seen in the end of a tree that has opened.
fn course_from(alloc: Global, script: &Script, world: Opened) -> Option<Course> {
    let mut world = world;
    let course = course_behind(alloc, script, &mut world);
    world.close();
    course
}

/// What is seen in the end of a tree over these stores, if nothing is refused.
fn course_over(alloc: Global, script: &Script, stores: Vec<MemoryStore>) -> Option<Course> {
    match opened(alloc, script, stores)? {
        Ok(world) => course_from(alloc, script, world),
        Err(_) => None,
    }
}

/// The tree over these stores, opened with the nth allocation refused; whether one was.
fn opened_refused(
    alloc: Global,
    refuser: &mut Refuser,
    script: &Script,
    nth: usize,
) -> Option<(Result<Opened, Refused>, bool)> {
    let stores = stores_of(alloc, script)?;
    let tree = copied_tree(alloc, script.tree.entries()).ok()?;
    tree.check().ok()?;
    refuser.refuse(nth);
    let made = World::reopen(alloc, tree, stores);
    let refused = refuser.has_refused();
    Some((made, refused))
}

/// Opens the tree with the nth allocation refused. None if that is not as it has to be.
fn open_refused(
    alloc: Global,
    refuser: &mut Refuser,
    script: &Script,
    nth: usize,
    whole: &Course,
) -> Option<Ended> {
    let (made, refused) = opened_refused(alloc, refuser, script, nth)?;
    let course = match made {
        Ok(world) => course_from(alloc, script, world)?,
        Err((TreeReopenError::Memory, stores)) if refused => course_over(alloc, script, stores)?,
        Err(_) => return None,
    };
    let ended = if refused {
        Ended::Refused
    } else {
        Ended::Whole
    };
    (course == *whole).then_some(ended)
}

/// More allocations than an opening makes.
const MOST_ALLOCATIONS: usize = 1 << 20;

/// Opens the tree of a script over its logs with the first allocation refused, the second, and so on, until
/// an opening meets no refusal; once, if there is nothing that refuses.
pub(crate) fn sweep_reopening(alloc: Global, refuser: &mut Refuser, input: &[u8]) -> Option<Met> {
    let (tree, logs, events) = read_reopen(alloc, input).ok()?;
    let script = Script {
        tree,
        logs: logs?,
        events,
    };
    let whole = course_over(alloc, &script, stores_of(alloc, &script)?)?;
    let first = refuser.first();
    let mut met = Met::nothing();
    for nth in first..MOST_ALLOCATIONS {
        met.runs = met.runs.saturating_add(1);
        match open_refused(alloc, refuser, &script, nth, &whole)? {
            Ended::Whole => return Some(met),
            Ended::Refused => met.refusals = met.refusals.saturating_add(1),
        }
    }
    None
}
