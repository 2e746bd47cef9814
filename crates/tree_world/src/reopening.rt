//! Opening a tree over the logs that an earlier run left.

ghost use Rattle.std.specs.Prelude.{◌≡◌, ◌≤◌, ℕ, List, None, [], true, IfErr, IfOk, OnErr, OnOk, drop, length, reverse};
ghost use Rattle.std.specs.Vec.{vec_capacity, vec_len};
ghost use Rattle.indexmap.specs.IndexMap.{spare};
ghost use Rattle.protocol.specs.Trees.{IsTree};
ghost use Rattle.protocol.specs.World.{IsRun, Made, World as ModelWorld};
ghost use Rattle.tree_process.specs.Nodes.{core_of, data_of};
ghost use Rattle.tree_process.specs.Reopenings.{kind_by};
ghost use Rattle.proof_reopened.specs.Reopened.{AreLogsLeft, GoesOnReopened, IsReopened};
ghost use Rattle.tree_world.specs.Nodes.{kept_at};
ghost use Rattle.tree_world.specs.Readied.{
  AllRestart,
  AreGivenBack,
  AreNotReadied,
  AreNotRestarted,
  AreReadied,
  AreReady,
  IsGivenBack,
  IsReadied,
  IsReady,
  NotReadied,
  TreeNotRestarted,
  RestartsIn,
};
ghost use Rattle.tree_world.specs.Reopenings.{
  AreReturned,
  IsReturned,
  TreeNotReopened,
  error_of_migration,
  error_of_node,
  first_fault,
  logs_in,
  reopen_error_number,
};
ghost use Rattle.tree_world.specs.Worlds.{state};

use crate::counted::CountedNode;
use crate::nodes::Nodes;
use crate::opening::{put_back, put_by_name};
use crate::own_names::fault_in;
use crate::running_tree::RunningTree;
use crate::world::World;
use indexmap::IndexMap;
use log_records::{MigrateError, RecLog};
use log_store::LogStore;
use protocol::{Happening, ProcessId, Tree, TreeProcess};
use std::alloc::Global;
use thiserror::Error;
use tree_faults::Faults;
use tree_journal::Journal;
use tree_process::{Process, ProcessReopenError as NodeError, copied_tree, reopen_over};

/// Why a tree was not opened over the logs that an earlier run left.
#[derive(Clone, Copy, Debug, PartialEq, Eq, Error)]
pub enum TreeReopenError {
    /// A growth was refused.
    #[error("no memory")]
    Memory,
    /// The device of this process's store failed.
    #[error("the device of process {0} failed")]
    Device(ProcessId),
    /// The log of this process is damaged, or is none of this process in this tree: the first byte of the
    /// first frame that is wrong, 0 for the header.
    #[error("the log of process {0} is damaged at byte {1}")]
    Damaged(ProcessId, usize),
}

impl TreeReopenError {
    /// The number of the error, 1 to 3.
    pub fn number(self) -> u8
        ensures { result ≡ reopen_error_number self }
    {
        match self {
            TreeReopenError::Memory => 1,
            TreeReopenError::Device(_) => 2,
            TreeReopenError::Damaged(_, _) => 3,
        }
    }
}

fn of_migration(process: ProcessId, error: MigrateError) -> TreeReopenError
    ensures { result ≡ error_of_migration process error }
{
    match error {
        MigrateError::Memory => TreeReopenError::Memory,
        MigrateError::Device => TreeReopenError::Device(process),
        MigrateError::Damaged(place) => TreeReopenError::Damaged(process, place),
    }
}

fn of_node(process: ProcessId, error: NodeError) -> TreeReopenError
    ensures { result ≡ error_of_node process error }
{
    match error {
        NodeError::Memory => TreeReopenError::Memory,
        NodeError::Device => TreeReopenError::Device(process),
        NodeError::Damaged(place) => TreeReopenError::Damaged(process, place),
        NodeError::Unfit | NodeError::OldFormat => TreeReopenError::Damaged(process, 0),
    }
}

/// A store with the log of this process in the second format, where each record of it may be in it.
fn ready<L: LogStore + Drop>(
    alloc: Global,
    tree: &Tree,
    entry: &TreeProcess,
    store: L,
) -> Result<L, (TreeReopenError, L)>
    requires { kind_by entry.now.kind entry.now.parent ≡ entry.now.kind }
    ensures ok { IfOk result (IsReadied L.bytes L.failures tree.now entry.now store) }
    ensures err { IfErr result (λ e. NotReadied L.bytes L.failures tree.now entry.now store e.0) }
    ensures handed_back { IfErr result (λ e. IsReturned L.bytes L.forced L.failures entry.now store e.1 e.0) }
{
    match fault_in(alloc, tree, entry, store.bytes()) {
        Ok(None) => {}
        Ok(Some(place)) => return Err((TreeReopenError::Damaged(entry.id, place), store)),
        Err(_) => return Err((TreeReopenError::Memory, store)),
    }
    match RecLog::migrate(alloc, store, entry.id, entry.kind) {
        Ok(store) => Ok(store),
        Err((error, store)) => Err((of_migration(entry.id, error), store)),
    }
}

/// Makes the stores of the processes from this place on ready, each the last of the list when its turn comes;
/// all of them are in the list again.
fn ready_from<L: LogStore + Drop>(
    alloc: Global,
    tree: &Tree,
    place: usize,
    stores: &mut Vec<L>,
) -> Result<(), TreeReopenError>
    requires tree { IsTree tree.now }
    requires place { place ≤ length tree.now }
    ensures ok { OnOk result (AreReadied L.bytes L.failures tree.now (drop place tree.now)
        (reverse stores.old.items) (reverse stores.new.items)) }
    ensures err { IfErr result (AreNotReadied L.bytes L.failures tree.now (drop place tree.now)
        (reverse stores.old.items)) }
    ensures handed_back { IfErr result (AreReturned L.bytes L.forced L.failures (drop place tree.now)
        (reverse stores.old.items) (reverse stores.new.items)) }
    ensures len { vec_len stores.new ≡ vec_len stores.old }
    ensures capacity { vec_capacity stores.old ≤ vec_capacity stores.new }
{
    let Some(entry) = tree.entries().get(place) else {
        return Ok(());
    };
    let Some(store) = stores.pop() else {
        return Err(TreeReopenError::Device(entry.id));
    };
    let store = match ready(alloc, tree, entry, store) {
        Ok(store) => store,
        Err((error, store)) => {
            put_back(stores, store);
            return Err(error);
        }
    };
    match ready_from(alloc, tree, place + 1, stores) {
        Ok(()) => {
            put_back(stores, store);
            Ok(())
        }
        Err(error) => {
            put_back(stores, store);
            Err(error)
        }
    }
}

/// Restarts the processes from this place on, each over the last store of the list, which leaves it; each
/// restart is entered. With a refusal all stores are in the list again, and none is open.
fn restart_from<L: LogStore + Drop>(
    alloc: Global,
    tree: &Tree,
    place: usize,
    stores: &mut Vec<L>,
    nodes: &mut IndexMap<ProcessId, CountedNode<L>>,
    journal: &mut Journal,
) -> Result<(), TreeReopenError>
    requires tree { IsTree tree.now }
    requires place { place ≤ length tree.now }
    requires empty { nodes.old.entries ≡ [] }
    requires room { length tree.now ≤ spare nodes.old }
    requires ready { AreReady L.bytes (drop place tree.now) (reverse stores.old.items) }
    ensures ok { OnOk result (AllRestart L.bytes tree.now (drop place tree.now) (reverse stores.old.items)
        (kept_at nodes.new.entries) journal.old journal.new) }
    ensures err { IfErr result (AreNotRestarted L.bytes L.failures tree.now (drop place tree.now)
        (reverse stores.old.items)) }
    ensures handed_back { IfErr result (AreGivenBack L.bytes L.forced L.failures (drop place tree.now)
        (reverse stores.old.items) (reverse stores.new.items)) }
    ensures spare { OnOk result (place ≤ spare nodes.new) }
    ensures len { OnErr result (vec_len stores.new ≡ vec_len stores.old) }
    ensures capacity { OnErr result (vec_capacity stores.old ≤ vec_capacity stores.new) }
{
    let Some(entry) = tree.entries().get(place) else {
        return Ok(());
    };
    let Some(store) = stores.pop() else {
        return Err(TreeReopenError::Device(entry.id));
    };
    let node = match restarted(alloc, tree, entry, store, journal) {
        Ok(node) => node,
        Err((error, store)) => {
            put_back(stores, store);
            return Err(error);
        }
    };
    match restart_from(alloc, tree, place + 1, stores, nodes, journal) {
        Ok(()) => {
            put_by_name(nodes, entry.id, CountedNode::new(node));
            Ok(())
        }
        Err(error) => {
            put_back(stores, node.into_store());
            Err(error)
        }
    }
}

/// The process of an entry, restarted over this store; its restart is entered. With a refusal the store is
/// handed back.
fn restarted<L: LogStore + Drop>(
    alloc: Global,
    tree: &Tree,
    entry: &TreeProcess,
    store: L,
    journal: &mut Journal,
) -> Result<Process<L>, (TreeReopenError, L)>
    requires { IsReady L.bytes entry.now store }
    ensures ok { IfOk result (λ node. RestartsIn L.bytes L.forced L.failures tree.now entry.now store
        (core_of node) (data_of node) journal.old journal.new) }
    ensures err { IfErr result (λ e. TreeNotRestarted L.bytes L.failures tree.now entry.now store e.0) }
    ensures handed_back { IfErr result (λ e. IsGivenBack L.bytes L.forced L.failures entry.now
        store e.1 e.0) }
{
    if journal.make_room().is_err() {
        return Err((TreeReopenError::Memory, store));
    }
    let Ok(copy) = copied_tree(alloc, tree.entries()) else {
        return Err((TreeReopenError::Memory, store));
    };
    match reopen_over(alloc, entry, copy, store) {
        Ok((node, reaction)) => {
            journal.enter(entry.id, Happening::Restart(0), reaction);
            Ok(node)
        }
        Err((error, store)) => Err((of_node(entry.id, error), store)),
    }
}

impl<L: LogStore + Drop> World<L> {
    /// A tree over the logs that an earlier run of it left, one for each process, in the order of the tree,
    /// of either format: each log is gone over and migrated where needed, and then each process restarts in
    /// the order of the tree. The journal has these restarts first, and the messages that they send are
    /// numbered from 1.
    ///
    /// From each run of the tree that left these logs, whichever version made each of its moves, the tree
    /// goes on: then every process went down by a crash, and each restarted. Of logs that no run left nothing
    /// is promised but that they have no fault. Stores that are left over are released.
    ///
    /// With a refusal the stores are handed back, each at its place with its log: as it was, or the same
    /// records in the second format, and after them those of a restart. Memory: a growth was refused. Device:
    /// the device of the store of this process failed, and that store is as the device left it; or there is
    /// no store for this process. Damaged: of all logs in the order of the tree the log of this process is
    /// the first with a fault, and this is the place of the first one in it: damage, or a record that may not
    /// be in the log of this process in this tree. If no log has a fault it is told at place 0 of the first
    /// process that cannot restart over its log, as where no number comes after those that it has. No run
    /// leaves such a log.
    pub fn reopen(
        alloc: Global,
        tree: Tree,
        stores: Vec<L>,
    ) -> Result<World<L>, (TreeReopenError, Vec<L>)>
        requires { IsTree tree }
        ensures reopened { IfOk result (λ world. IsReopened tree (logs_in L.bytes tree stores.items)
            (state world)) }
        ensures flag { IfOk result (λ world. world.reopened ≡ true) }
        ensures sound { IfOk result (λ _. first_fault L.bytes tree stores.items ≡ None) }
        ensures goes_on { IfOk result (λ world. (es : List Made) (w : ModelWorld) → IsRun tree es w
            → AreLogsLeft tree w (logs_in L.bytes tree stores.items) → GoesOnReopened es w (state world)) }
        ensures err { IfErr result (λ e. TreeNotReopened L.bytes L.failures tree stores.items e.0) }
        ensures handed_back { IfErr result (λ e. AreReturned L.bytes L.forced L.failures tree
            stores.items e.1.items e.0) }
    {
        let mut stores = stores;
        let mut nodes = match IndexMap::with_capacity(alloc, tree.entries().len()) {
            Ok(nodes) => nodes,
            Err(_) => return Err((TreeReopenError::Memory, stores)),
        };
        let mut journal = Journal::new(alloc);
        stores.reverse();
        if let Err(error) = ready_from(alloc, &tree, 0, &mut stores) {
            stores.reverse();
            return Err((error, stores));
        }
        if let Err(error) = restart_from(alloc, &tree, 0, &mut stores, &mut nodes, &mut journal) {
            stores.reverse();
            return Err((error, stores));
        }
        let nodes = Nodes { nodes };
        let faults = Faults::new(alloc);
        Ok(World {
            running: RunningTree {
                alloc,
                tree,
                nodes,
                journal,
                faults,
            },
            reopened: true,
        })
    }
}
