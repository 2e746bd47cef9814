//! What each parent says of its children's cases, from the root down: each process once, after its own
//! parent.

ghost use Rattle.std.specs.Prelude.{◌≡◌, IfOk, OnOk};
ghost use Rattle.std.specs.Map.{lookup};
ghost use Rattle.std.specs.Option.{option_copied};
ghost use Rattle.protocol.specs.Trees.{IsTree};
ghost use Rattle.audit_tree.specs.Tables.{Adds, SaidFor, Says, SaysAbove, above_of, same_id};

use crate::logs::TreeNotes;
use audit_cases::Sayings;
use indexmap::IndexMap;
use protocol::{ProcessId, Tree};
use std::alloc::{AllocError, Global};

/// What the parents say.
pub(crate) type TreeSayings = IndexMap<ProcessId, Sayings>;

/// What the parent says, if there is one.
pub(crate) fn above(said: &TreeSayings, parent: Option<ProcessId>) -> Option<&Sayings>
    ensures { option_copied result ≡ above_of said.now.entries parent }
{
    match parent {
        None => None,
        Some(parent) => said.get(&parent),
    }
}

/// What a process with this parent says, after what its parent did.
fn add(
    alloc: Global,
    notes: &TreeNotes,
    said: &mut TreeSayings,
    process: ProcessId,
    parent: Option<ProcessId>,
) -> Result<(), AllocError>
    ensures { OnOk result (Adds (above_of said.old.entries parent)
        (lookup (same_id process) notes.now.entries) process
        said.old.entries said.new.entries) }
{
    match notes.get(&process) {
        None => Ok(()),
        Some(own) => {
            let new = Sayings::of(alloc, above(said, parent), own)?;
            let _ = said.insert(process, new)?;
            Ok(())
        }
    }
}

/// What the process says, after what its parent does, within N steps up; nothing is done twice.
fn say(
    alloc: Global,
    tree: &Tree,
    notes: &TreeNotes,
    said: &mut TreeSayings,
    process: ProcessId,
    steps: usize,
) -> Result<(), AllocError>
    requires { IsTree tree.now }
    ensures { OnOk result (Says tree.now notes.now.entries process steps said.old.entries said.new.entries) }
{
    if steps == 0 || said.get(&process).is_some() {
        return Ok(());
    }
    match tree.parent(process) {
        None => add(alloc, notes, said, process, None),
        Some(parent) => {
            say(alloc, tree, notes, said, parent, steps - 1)?;
            add(alloc, notes, said, process, Some(parent))
        }
    }
}

/// What a parent says, if there is one.
fn say_above(
    alloc: Global,
    tree: &Tree,
    notes: &TreeNotes,
    said: &mut TreeSayings,
    parent: Option<ProcessId>,
) -> Result<(), AllocError>
    requires { IsTree tree.now }
    ensures { OnOk result (SaysAbove tree.now notes.now.entries parent said.old.entries said.new.entries) }
{
    match parent {
        None => Ok(()),
        Some(parent) => say(alloc, tree, notes, said, parent, tree.entries().len()),
    }
}

/// What each parent of the tree says.
pub(crate) fn all_sayings(
    alloc: Global,
    tree: &Tree,
    notes: &TreeNotes,
) -> Result<TreeSayings, AllocError>
    requires { IsTree tree.now }
    ensures { IfOk result (λ said. SaidFor tree.now notes.now.entries tree.now said.entries) }
{
    let mut said = IndexMap::new(alloc);
    let entries = tree.entries();
    for entry in entries {
        say_above(alloc, tree, notes, &mut said, entry.parent)?;
    }
    Ok(said)
}
