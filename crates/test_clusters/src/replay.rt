//! A journal made again on one thread, by a whole tree.

ghost use Rattle.protocol.specs.Trees.{IsTree};

use crate::records::are_same_logs;
use cluster_turns::ClosedJournal;
use log_store::MemoryStore;
use protocol::{Event, Happening, Input, JournalEntry, LogRecord, StepError, Tree};
use std::alloc::{AllocError, Global};
use tree_world::World;

/// How many bytes the first N of these take.
fn bytes_of(sizes: &[u64], count: u64) -> u64 {
    let mut bytes: u64 = 0;
    for (place, size) in sizes.iter().enumerate() {
        if (place as u64) < count {
            bytes = bytes.saturating_add(*size);
        }
    }
    bytes
}

/// The event of an entry, if the tree has made those before it.
fn event_of(
    alloc: Global,
    world: &World<MemoryStore>,
    entry: &JournalEntry,
) -> Result<Event, AllocError> {
    let process = entry.step.process;
    match &entry.step.happening {
        Happening::Input(Input::Act(act)) => Ok(Event::Act(act.copied(alloc)?)),
        Happening::Input(Input::Message(number, _)) => Ok(Event::Deliver(*number)),
        Happening::Restart(kept) => {
            let sizes = world.unforced_sizes(process)?;
            Ok(Event::Restart(process, Some(bytes_of(&sizes, *kept))))
        }
        Happening::Trim => Ok(Event::Trim(process)),
    }
}

/// Makes the events of the journal. Whether none was refused, and the tree leaves these logs.
fn leaves(
    alloc: Global,
    world: &mut World<MemoryStore>,
    journal: &ClosedJournal,
    logs: &[Vec<LogRecord>],
) -> Result<bool, AllocError> {
    for turn in journal.turns() {
        for (_, entry) in turn {
            let event = event_of(alloc, world, entry)?;
            match world.apply(event) {
                Ok(()) => {}
                Err(StepError::Memory) => return Err(AllocError),
                Err(_) => return Ok(false),
            }
        }
    }
    let left = world.logs()?;
    Ok(are_same_logs(logs, &left))
}

/// Whether a tree on one thread that makes the events of the journal leaves these logs. The tree is one that
/// passed its check.
pub fn is_replayed(
    alloc: Global,
    tree: Tree,
    journal: &ClosedJournal,
    logs: &[Vec<LogRecord>],
) -> Result<bool, AllocError>
    requires { IsTree tree }
{
    let Ok(mut world) = World::new(alloc, tree) else {
        return Err(AllocError);
    };
    let same = leaves(alloc, &mut world, journal, logs);
    world.close();
    same
}
