//! The logs that a run leaves, as text.

ghost use Rattle.std.specs.Prelude.{IfOk};
ghost use Rattle.tree_world.specs.Worlds.{state};
ghost use Rattle.tree_engine.specs.Logs.{LeavesLogs};

use log_script::logs_text;
use log_store::MemoryStore;
use std::alloc::{AllocError, Global};
use tree_world::{World, logs_left};

/// The processes and their logs, as `rstar log` reads them.
pub(crate) fn left_text(alloc: Global, world: &World<MemoryStore>) -> Result<Vec<u8>, AllocError>
    ensures { IfOk result (λ text. LeavesLogs (state world.now) text.items) }
{
    let logs = logs_left(alloc, world)?;
    logs_text(alloc, world.tree().entries(), &logs)
}
