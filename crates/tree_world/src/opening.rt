//! Opening a tree over empty stores.

ghost use Rattle.std.specs.Prelude.{◌≡◌, ◌+◌, ◌<◌, ◌≤◌, ◌++◌, ◌∷◌, [], All, IfErr, IfOk, OnErr, OnOk, Some, false, drop, length, reverse};
ghost use Rattle.std.specs.Vec.{vec_capacity, vec_len};
ghost use Rattle.indexmap.specs.IndexMap.{spare};
ghost use Rattle.std.specs.Map.{lookup};
ghost use Rattle.protocol.specs.contracts.names.ProcessIdPartialEq.TheImpl as processes;
ghost use Rattle.protocol_words.specs.Types.{AnyProcess};
ghost use Rattle.protocol.specs.Names.{same_process};
ghost use Rattle.protocol.specs.Trees.{IsTree};
ghost use Rattle.tree_state.specs.Runs.{IsOpenedTree};
ghost use Rattle.proof_runs.specs.worlds.Modelled.{KeepsHeadline};
ghost use Rattle.log_store.specs.Memory.{memory_bytes};
ghost use Rattle.resource_manager.specs.Data.{DataRests, no_data};
ghost use Rattle.tree_process.specs.Nodes.{core_of, data_of};
ghost use Rattle.tree_process.specs.Openings.{HandsStoreBack, OpenedAs, ProcessNotOpened};
ghost use Rattle.tree_world.specs.Nodes.{kept_at};
ghost use Rattle.tree_world.specs.Openings.{AreHandedBack, AreOpened, TreeNotOpened};
ghost use Rattle.tree_world.specs.Worlds.{state, trace};

use crate::counted::CountedNode;
use crate::nodes::Nodes;
use crate::running_tree::RunningTree;
use crate::world::World;
use indexmap::IndexMap;
use log_store::{LogStore, MemoryStore};
use protocol::{ProcessId, Tree, TreeProcess};
use std::alloc::{AllocError, Global};
use tree_faults::Faults;
use tree_journal::Journal;
use tree_process::{Process, ProcessOpenError, copied_tree, open_node};

/// A value more, by its process's name, where there is room.
pub(crate) fn put_by_name<V: Drop>(values: &mut IndexMap<ProcessId, V>, name: ProcessId, value: V)
    requires { 0 < spare values.old }
    ensures own { lookup (processes.ghosts.eq name) values.new.entries ≡ Some value }
    ensures others { (q : AnyProcess) → same_process name q ≡ false
        → lookup (processes.ghosts.eq q) values.new.entries
        ≡ lookup (processes.ghosts.eq q) values.old.entries }
    ensures room { spare values.old ≤ spare values.new + 1 }
{
    let _ = values.insert(name, value).unwrap();
}

/// Puts a store back where it was taken from.
pub(crate) fn put_back<L>(stores: &mut Vec<L>, store: L)
    requires { vec_len stores.old < vec_capacity stores.old }
    ensures items { stores.new.items ≡ stores.old.items ++ store ∷ [] }
    ensures room { vec_capacity stores.old ≤ vec_capacity stores.new }
{
    stores.push(store).unwrap();
}

/// Opens the process of an entry over this store. With a refusal the store is handed back.
fn opened<L: LogStore + Drop>(
    alloc: Global,
    tree: &[TreeProcess],
    entry: &TreeProcess,
    store: L,
) -> Result<Process<L>, (ProcessOpenError, L)>
    ensures ok { IfOk result (λ node. OpenedAs tree.now entry.now (core_of node)) }
    ensures holdings { IfOk result (λ node. DataRests no_data (data_of node)) }
    ensures err { IfErr result (λ e. ProcessNotOpened L.bytes L.failures entry.now.id (Some store) e.0) }
    ensures handed_back { IfErr result (λ e. HandsStoreBack L.failures store e.1 e.0) }
{
    if !store.bytes().is_empty() {
        return Err((ProcessOpenError::Store(entry.id), store));
    }
    match copied_tree(alloc, tree) {
        Ok(copy) => open_node(alloc, entry, copy, store),
        Err(_) => Err((ProcessOpenError::Memory, store)),
    }
}

/// Opens the processes of a tree from this place on, each over the last store of the list, which leaves it.
/// With a refusal all stores are in the list again, and none is open.
fn open_from<L: LogStore + Drop>(
    alloc: Global,
    tree: &[TreeProcess],
    place: usize,
    stores: &mut Vec<L>,
    nodes: &mut IndexMap<ProcessId, CountedNode<L>>,
) -> Result<(), ProcessOpenError>
    requires tree { IsTree tree.now }
    requires place { place ≤ length tree.now }
    requires empty { nodes.old.entries ≡ [] }
    requires room { length tree.now ≤ spare nodes.old }
    ensures ok { OnOk result (AreOpened tree.now (drop place tree.now) (kept_at nodes.new.entries)) }
    ensures spare { OnOk result (place ≤ spare nodes.new) }
    ensures err { IfErr result (TreeNotOpened L.bytes L.failures (drop place tree.now)
        (reverse stores.old.items)) }
    ensures handed_back { IfErr result (AreHandedBack L.bytes L.forced L.failures (drop place tree.now)
        (reverse stores.old.items) (reverse stores.new.items)) }
    ensures len { OnErr result (vec_len stores.new ≡ vec_len stores.old) }
    ensures capacity { OnErr result (vec_capacity stores.old ≤ vec_capacity stores.new) }
{
    let Some(entry) = tree.get(place) else {
        return Ok(());
    };
    let Some(store) = stores.pop() else {
        return Err(ProcessOpenError::Store(entry.id));
    };
    let node = match opened(alloc, tree, entry, store) {
        Ok(node) => node,
        Err((error, store)) => {
            put_back(stores, store);
            return Err(error);
        }
    };
    match open_from(alloc, tree, place + 1, stores, nodes) {
        Ok(()) => {
            put_by_name(nodes, entry.id, CountedNode::new(node));
            Ok(())
        }
        Err(error) => {
            put_back(stores, node.into_store());
            Err(error)
        }
    }
}

/// N stores in memory, without bytes.
fn memory_stores(alloc: Global, count: usize) -> Result<Vec<MemoryStore>, AllocError>
    ensures count { IfOk result (λ stores. length stores.items ≡ count) }
    ensures empty { IfOk result (λ stores. All (λ store. memory_bytes store ≡ []) stores.items) }
{
    let mut stores = Vec::new(alloc);
    for _ in 0..count {
        stores.push(MemoryStore::new(alloc))?;
    }
    Ok(stores)
}

impl<L: LogStore + Drop> World<L> {
    /// A tree whose processes have opened empty logs: boot 1, forced. The tree is one that passed its check.
    /// Each process has a store without bytes, in the order of the tree; those that are left over are let
    /// go.
    ///
    /// With a refusal the stores are handed back, in the order of the tree: those of the processes that had
    /// opened with their first record, the others as they were. Memory: a growth was refused; of the store of
    /// the process that was opening a header may stand. Device: the device of the store of this process
    /// failed. Store: there is no store for this process, or bytes are in it.
    pub fn with_stores(
        alloc: Global,
        tree: Tree,
        stores: Vec<L>,
    ) -> Result<World<L>, (ProcessOpenError, Vec<L>)>
        requires { IsTree tree }
        ensures opened { IfOk result (λ world. IsOpenedTree (state world) tree) }
        ensures trace { IfOk result (λ world. trace world ≡ []) }
        ensures headline { IfOk result (λ world. KeepsHeadline (state world)) }
        ensures flag { IfOk result (λ world. world.reopened ≡ false) }
        ensures err { IfErr result (λ e. TreeNotOpened L.bytes L.failures tree stores.items e.0) }
        ensures handed_back { IfErr result (λ e. AreHandedBack L.bytes L.forced L.failures tree
            stores.items e.1.items e.0) }
    {
        let mut stores = stores;
        let mut nodes = match IndexMap::with_capacity(alloc, tree.entries().len()) {
            Ok(nodes) => nodes,
            Err(_) => return Err((ProcessOpenError::Memory, stores)),
        };
        stores.reverse();
        if let Err(error) = open_from(alloc, tree.entries(), 0, &mut stores, &mut nodes) {
            stores.reverse();
            return Err((error, stores));
        }
        let nodes = Nodes { nodes };
        let journal = Journal::new(alloc);
        let faults = Faults::new(alloc);
        Ok(World {
            running: RunningTree {
                alloc,
                tree,
                nodes,
                journal,
                faults,
            },
            reopened: false,
        })
    }
}

impl World<MemoryStore> {
    /// A tree whose processes have opened empty logs, over stores in memory. Memory is the only refusal
    /// that comes.
    pub fn new(alloc: Global, tree: Tree) -> Result<World<MemoryStore>, ProcessOpenError>
        requires { IsTree tree }
        ensures opened { IfOk result (λ world. IsOpenedTree (state world) tree) }
        ensures trace { IfOk result (λ world. trace world ≡ []) }
        ensures headline { IfOk result (λ world. KeepsHeadline (state world)) }
        ensures flag { IfOk result (λ world. world.reopened ≡ false) }
        ensures err { IfErr result (λ e. e ≡ ProcessOpenError.Memory) }
    {
        let stores = memory_stores(alloc, tree.entries().len())?;
        match World::with_stores(alloc, tree, stores) {
            Ok(world) => Ok(world),
            Err((error, stores)) => {
                drop(stores);
                Err(error)
            }
        }
    }
}
