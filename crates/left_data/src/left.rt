//! The data of all managers of a tree that runs.

ghost use Rattle.std.specs.Prelude.{◌≡◌, ◌++◌, IfOk, OnOk, map};
ghost use Rattle.left_data.specs.Texts.{data_lines, process_lines};
ghost use Rattle.tree_world.specs.Worlds.{logs_at, state};

use crate::lines::push_pairs;
use crate::pairs::pairs_in;
use log_store::MemoryStore;
use protocol::{Kind, LogRecord, TreeProcess};
use report_io::Failure;
use std::alloc::Global;
use tree_world::World;

/// The lines of a process whose log has these records; a coordinator has none.
fn push_process(
    alloc: Global,
    out: &mut Vec<u8>,
    entry: &TreeProcess,
    records: Vec<LogRecord>,
) -> Result<(), Failure>
    ensures { OnOk result (out.new.items ≡ out.old.items ++ process_lines entry.now records.items) }
{
    match entry.kind {
        Kind::Coordinator => Ok(()),
        Kind::Manager => {
            let pairs = pairs_in(alloc, records)?;
            Ok(push_pairs(alloc, out, entry.id, &pairs)?)
        }
    }
}

/// The lines of these processes, whose logs have these records, one of each.
fn push_all(
    alloc: Global,
    out: &mut Vec<u8>,
    entries: &[TreeProcess],
    logs: Vec<Vec<LogRecord>>,
) -> Result<(), Failure>
    ensures { OnOk result (out.new.items ≡ out.old.items
        ++ data_lines entries.now (map (λ log. log.items) logs.items)) }
{
    let mut rest = entries;
    for records in logs {
        let Some((entry, more)) = rest.split_first() else {
            return Ok(());
        };
        push_process(alloc, out, entry, records)?;
        rest = more;
    }
    Ok(())
}

/// A line `data P KEY VALUE` for each key of each manager, in the order of the tree, keys rising, as the tree
/// stands now. Exhausted: a manager's commits count 2^63.
pub fn data_left(alloc: Global, world: &World<MemoryStore>) -> Result<Vec<u8>, Failure>
    ensures { IfOk result (λ text. text.items ≡ data_lines (state world.now).tree
        (logs_at (state world.now) (state world.now).tree)) }
{
    let logs = world.logs()?;
    let mut out = Vec::new(alloc);
    push_all(alloc, &mut out, world.tree().entries(), logs)?;
    Ok(out)
}
