//! Where crashes are tried.

ghost use Rattle.std.specs.Prelude.{◌≡◌, ◌⊎◌, ◌≤◌, ◌^◌, ◌++◌, IfErr, IfOk, OnOk, sum};
ghost use Rattle.tree_world.specs.Worlds.{state};
ghost use Rattle.crash_engine.specs.Points.{AreTooLong, crash_of, points_at, points_in};

use log_store::MemoryStore;
use protocol::{Event, ProcessId};
use report_io::Failure;
use std::alloc::{AllocError, Global};
use tree_world::World;

/// Where in a script a crash is tried.
#[derive(Clone, Copy, PartialEq, Eq)]
pub struct CrashPlace {
    /// The event after which it is, or within which, by its number from 1.
    pub event: usize,
    /// Within a settle, after how many of its deliveries; 0 is after the whole event.
    pub delivery: usize,
}

/// A crash that is tried: this process restarts, and keeps N bytes after its forced front.
#[derive(Clone, Copy, PartialEq, Eq)]
pub struct Point {
    pub process: ProcessId,
    pub keep: u64,
}

/// The points of a process whose unforced records take N bytes: it keeps none of them, or the first,
/// and so on to all. Exhausted: they take 2^64 bytes or more.
fn push_points(points: &mut Vec<Point>, process: ProcessId, sizes: &[u64]) -> Result<(), Failure>
    ensures ok { OnOk result (points.new.items ≡ points.old.items ++ points_at process sizes.now) }
    ensures err { IfErr result (λ why. (why ≡ Failure.Memory)
        ⊎ ((why ≡ Failure.Exhausted) × (2 ^ 64 ≤ sum sizes.now))) }
{
    let mut keep: u64 = 0;
    for size in sizes {
        points.push(Point { process, keep })?;
        let Some(next) = keep.checked_add(*size) else {
            return Err(Failure::Exhausted);
        };
        keep = next;
    }
    points.push(Point { process, keep })?;
    Ok(())
}

/// The points of a tree as it is: for each process, in the order of the tree, each number of its
/// unforced records that a crash may leave. Exhausted: those of one take 2^64 bytes or more.
#[tactic(auto, unfolding(crate::specs::Points::points_in))]
pub fn points_of(alloc: Global, world: &World<MemoryStore>) -> Result<Vec<Point>, Failure>
    ensures ok { IfOk result (λ points. points.items ≡ points_in (state world.now)) }
    ensures err { IfErr result (λ why. (why ≡ Failure.Memory)
        ⊎ ((why ≡ Failure.Exhausted) × AreTooLong (state world.now))) }
{
    let mut points = Vec::new(alloc);
    for entry in world.tree().entries() {
        let sizes = world.unforced_sizes(entry.id)?;
        push_points(&mut points, entry.id, &sizes)?;
    }
    Ok(points)
}

/// The events of a crash: the restart, and all that comes of it; without one, all that comes.
pub(crate) fn crash_events(alloc: Global, point: Option<Point>) -> Result<Vec<Event>, AllocError>
    ensures { IfOk result (λ events. events.items ≡ crash_of point) }
{
    let mut events = Vec::new(alloc);
    if let Some(point) = point {
        events.push(Event::Restart(point.process, Some(point.keep)))?;
    }
    events.push(Event::Settle)?;
    Ok(events)
}
