//! A cluster that opens: its processes, each over an empty store, and the passes of its callers.

ghost use Rattle.std.specs.Prelude.{◌≡◌, ◌+◌, ◌<◌, ◌≤◌, IfErr, IfOk, OnOk, get_or, length};
ghost use Rattle.resource_manager.specs.Data.{DataRests, no_data};
ghost use Rattle.protocol.specs.Trees.{IsTree};
ghost use Rattle.tree_process.specs.Nodes.{core_of, data_of};
ghost use Rattle.tree_process.specs.Openings.{OpenedAs};
ghost use Rattle.cluster_tree.specs.Opening.{IsTableOf, KeepsSeats, names_of};
ghost use Rattle.cluster_tree.specs.Passes.{new_passes};

use cluster_process::{Pass, Seated};
use cluster_ties::seats::{Opened, Place, Seats, Ties, give, open, seat};
use log_store::MemoryStore;
use protocol::{ProcessId, Tree, TreeProcess};
use std::alloc::{AllocError, Global};
use std::sync::Mutex;
use tree_process::{Process, ProcessOpenError, copied_tree, open_node};

/// The names of the processes, in the order of the tree.
fn names(alloc: Global, tree: &[TreeProcess]) -> Result<Vec<ProcessId>, AllocError>
    ensures { IfOk result (λ names. names.items ≡ names_of tree.now) }
{
    let mut names = Vec::new(alloc);
    for entry in tree {
        names.push(entry.id)?;
    }
    Ok(names)
}

/// A table of seats for the processes of a tree, and the journal's seat. It takes the place of no other: what
/// a cluster keeps is tied at one table alone.
pub fn seats(alloc: Global, tree: &Tree) -> Result<Opened, AllocError>
    requires { IsTree tree.now }
    ensures { IfOk result (λ opened. opened.ties.shared.key.items ≡ names_of tree.now) }
{
    let names = names(alloc, tree.entries())?;
    open(alloc, &names)
}

/// Opens the process of an entry over an empty store in memory, which a refusal lets go.
fn opened(
    alloc: Global,
    entry: &TreeProcess,
    tree: Tree,
) -> Result<Process<MemoryStore>, ProcessOpenError>
    ensures ok { IfOk result (λ node. OpenedAs tree entry.now (core_of node)) }
    ensures holdings { IfOk result (λ node. DataRests no_data (data_of node)) }
    ensures err { IfErr result (λ e. e ≡ ProcessOpenError.Memory) }
{
    match open_node(alloc, entry, tree, MemoryStore::new(alloc)) {
        Ok(node) => Ok(node),
        Err((error, store)) => {
            drop(store);
            Err(error)
        }
    }
}

/// Opens the process of the entry at this place of the tree over an empty store in memory, and gives it the
/// next seat.
fn open_seated<N: Seats>(
    alloc: Global,
    ties: &Ties,
    journal: &mut Place,
    tree: &[TreeProcess],
    entry: &TreeProcess,
    place: usize,
) -> Result<Seated<N>, ProcessOpenError>
    requires tree { IsTree tree.now × (tree.now ≡ N.tree) }
    requires table { IsTableOf N.table tree.now ties.now.shared.table_id ties.now.shared.key.items }
    requires journal { KeepsSeats N.table tree.now place journal.old.me.0.journal.given journal.old }
    requires entry { (place < length tree.now) × (entry.now ≡ get_or tree.now place entry.now) }
    ensures seats { OnOk result (KeepsSeats N.table tree.now (place + 1) journal.old.me.0.journal.given
        journal.new) }
    ensures err { IfErr result (λ e. e ≡ ProcessOpenError.Memory) }
{
    let copy = copied_tree(alloc, tree)?;
    let node = opened(alloc, entry, copy)?;
    Ok(Seated::new(entry.id, node, seat(ties, journal)))
}

/// Opens the processes of the tree, in its order.
fn open_each<N: Seats>(
    alloc: Global,
    ties: &Ties,
    journal: &mut Place,
    tree: &[TreeProcess],
    processes: &mut Vec<Mutex<Seated<N>>>,
) -> Result<(), ProcessOpenError>
    requires tree { IsTree tree.now × (tree.now ≡ N.tree) }
    requires table { IsTableOf N.table tree.now ties.now.shared.table_id ties.now.shared.key.items }
    requires journal { KeepsSeats N.table tree.now 0 journal.old.me.0.journal.given journal.old }
    ensures seats { OnOk result (KeepsSeats N.table tree.now (length tree.now) journal.old.me.0.journal.given
        journal.new) }
    ensures err { IfErr result (λ e. e ≡ ProcessOpenError.Memory) }
{
    for place in 0..tree.len() {
        let seated = open_seated::<N>(alloc, ties, journal, tree, &tree[place], place)?;
        if processes.push(Mutex::new(seated)).is_err() {
            return Err(ProcessOpenError::Memory);
        }
    }
    Ok(())
}

/// Lets go of processes.
fn discard<N: Seats>(_processes: Vec<Mutex<Seated<N>>>) {}

/// The processes of the tree, in its order, each under a lock.
pub(crate) fn open_all<N: Seats>(
    alloc: Global,
    ties: &Ties,
    journal: &mut Place,
    tree: &[TreeProcess],
) -> Result<Vec<Mutex<Seated<N>>>, ProcessOpenError>
    requires tree { IsTree tree.now × (tree.now ≡ N.tree) }
    requires table { IsTableOf N.table tree.now ties.now.shared.table_id ties.now.shared.key.items }
    requires journal { KeepsSeats N.table tree.now 0 journal.old.me.0.journal.given journal.old }
    ensures seats { OnOk result (KeepsSeats N.table tree.now (length tree.now) journal.old.me.0.journal.given
        journal.new) }
    ensures err { IfErr result (λ e. e ≡ ProcessOpenError.Memory) }
{
    let mut processes = Vec::new(alloc);
    match open_each::<N>(alloc, ties, journal, tree, &mut processes) {
        Ok(()) => Ok(processes),
        Err(error) => {
            discard(processes);
            Err(error)
        }
    }
}

/// A pass for each of N callers, whose numbers begin at 0.
pub(crate) fn give_passes<N: Seats>(
    alloc: Global,
    ties: &Ties,
    journal: &mut Place,
    tree: &[TreeProcess],
    callers: usize,
) -> Result<Vec<Pass<N>>, AllocError>
    requires table { IsTableOf N.table tree.now ties.now.shared.table_id ties.now.shared.key.items }
    requires words { 0 < N.table.words }
    requires journal { KeepsSeats N.table tree.now 0 0 journal.old }
    ensures passes { IfOk result (λ passes. passes.items ≡ new_passes callers) }
    ensures journal { OnOk result (KeepsSeats N.table tree.now 0 callers journal.new) }
{
    let _ = tree;
    let mut passes = Vec::new(alloc);
    for caller in 0..callers {
        passes.push(Pass::new(give(ties, journal), caller as u64))?;
    }
    Ok(passes)
}
