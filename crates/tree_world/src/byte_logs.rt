//! The logs that the processes keep, as bytes.

ghost use Rattle.std.specs.Prelude.{◌≡◌, ◌<◌, All, IfOk};
ghost use Rattle.log_rules.specs.sound.Written.{AreBytes};
ghost use Rattle.tree_world.specs.LogsLeft.{AreByteLogs, AreLogs, LogsStand};
ghost use Rattle.tree_world.specs.Worlds.{state};

use crate::world::World;
use log_script::ProcessLog;
use log_store::LogStore;
use protocol::Sequence;
use std::alloc::{AllocError, Global};

/// What the type says of bytes: each is below 256. It does nothing.
pub(crate) fn are_bytes(bytes: &[u8])
    ensures all { All (λ b. b < 256) bytes.now }
    ensures each { AreBytes bytes.now }
{}

/// Each record of each log can be there, and those of a manager may follow one another. It does nothing.
fn logs_stand<L: LogStore>(world: &World<L>)
    ensures { LogsStand (state world.now) (state world.now).tree }
{
    for entry in world.tree().entries() {
        world.log_stands(entry.id);
    }
}

/// The log of each process, in the order of the tree.
pub fn logs_left<L: LogStore>(
    alloc: Global,
    world: &World<L>,
) -> Result<Vec<ProcessLog>, AllocError>
    ensures logs { IfOk result (λ logs. AreLogs (state world.now) (state world.now).tree logs.items) }
    ensures bytes { IfOk result (λ logs. AreByteLogs logs.items) }
    ensures stand { LogsStand (state world.now) (state world.now).tree }
{
    logs_stand(world);
    let mut logs = Vec::new(alloc);
    for entry in world.tree().entries() {
        let text = world.log_text(entry.id)?;
        are_bytes(&text);
        logs.push(ProcessLog {
            process: entry.id,
            bytes: Sequence::from_vec(text),
        })?;
    }
    Ok(logs)
}
