//! The records of a process's log that are not forced, which a crash may take.

ghost use Rattle.std.specs.Prelude.{◌≡◌, IfOk, map};
ghost use Rattle.log_records.specs.Sights.{record_size};
ghost use Rattle.tree_world.specs.Nodes.{nodes_at};
ghost use Rattle.tree_world.specs.Unforced.{unforced_by};
ghost use Rattle.tree_world.specs.Worlds.{state};

use crate::nodes::Nodes;
use crate::world::World;
use log_store::LogStore;
use protocol::ProcessId;
use std::alloc::{AllocError, Global};

impl<L: LogStore> Nodes<L> {
    /// How many bytes each record of a process's log takes that is not forced, in order; none, if there is
    /// no such process.
    pub(crate) fn unforced_sizes(
        &self,
        alloc: Global,
        process: ProcessId,
    ) -> Result<Vec<u64>, AllocError>
        ensures { IfOk result (λ sizes. sizes.items
            ≡ map record_size (unforced_by (nodes_at self.now.nodes.entries process))) }
    {
        match self.nodes.get(&process) {
            None => Ok(Vec::new(alloc)),
            Some(node) => node.node().unforced_sizes(alloc),
        }
    }
}

impl<L: LogStore> World<L> {
    /// How many bytes each record of a process's log takes that is not forced, in order; none, where there
    /// is no such process. A crash keeps the first N of them that stand whole within the bytes that it
    /// keeps.
    pub fn unforced_sizes(&self, process: ProcessId) -> Result<Vec<u64>, AllocError>
        ensures { IfOk result (λ sizes. sizes.items
            ≡ map record_size (unforced_by ((state self.now).node_at process))) }
    {
        self.running
            .nodes
            .unforced_sizes(self.running.alloc, process)
    }
}
