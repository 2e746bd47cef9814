//! Opening a process over an empty store.

ghost use Rattle.log_text.specs.Forms.{log_form};
ghost use Rattle.std.specs.Prelude.{◌≡◌, [], false, IfErr, IfOk, Some};
ghost use Rattle.log_records.specs.Sights.{records_of};
ghost use Rattle.protocol_words.specs.kind;
ghost use Rattle.protocol.specs.Nodes.{Role, role_by};
ghost use Rattle.resource_manager.specs.Data.{DataRests, no_data};
ghost use Rattle.tree_process.specs.Nodes.{core_of, data_of};
ghost use Rattle.tree_process.specs.Openings.{
  HandsStoreBack,
  OpenedAs,
  OpenedAt,
  ProcessNotOpened,
  error_of_log,
  error_of_manager,
  error_of_step,
  open_error_number,
};

use crate::node::Process;
use coord_process::Coordinator;
use kv_manager::{KvManager, RecordsError, RestoreError};
use log_records::{LogOpenError, RecLog};
use log_store::LogStore;
use protocol::{Kind, ProcessId, StepError, Tree, TreeProcess};
use std::alloc::{AllocError, Global};
use sub_process::Subordinate;
use thiserror::Error;

/// Why a tree was not opened.
#[derive(Clone, Copy, Debug, PartialEq, Eq, Error)]
pub enum ProcessOpenError {
    /// A growth was refused.
    #[error("no memory")]
    Memory,
    /// The device of this process's store failed.
    #[error("the device of process {0} failed")]
    Device(ProcessId),
    /// There is no store for this process, or one in which bytes stand.
    #[error("process {0} has no empty store")]
    Store(ProcessId),
}

impl ProcessOpenError {
    /// The number of the error, 1 to 3.
    pub fn number(self) -> u8
        ensures { result ≡ open_error_number self }
    {
        match self {
            ProcessOpenError::Memory => 1,
            ProcessOpenError::Device(_) => 2,
            ProcessOpenError::Store(_) => 3,
        }
    }
}

impl From<AllocError> for ProcessOpenError {
    ghost use Rattle.std.specs.Prelude.{◌≡◌};
    ghost use Rattle.tree_process.specs.declared.opening.ProcessOpenError.TheVariants.{Memory};

    ghost from_gives = { λ _ e. e ≡ Memory };

    fn from(_e: AllocError) -> ProcessOpenError {
        ProcessOpenError::Memory
    }
}

fn of_log(me: ProcessId, error: LogOpenError) -> ProcessOpenError
    ensures { result ≡ error_of_log me error }
{
    match error {
        LogOpenError::Memory => ProcessOpenError::Memory,
        LogOpenError::Device => ProcessOpenError::Device(me),
        LogOpenError::Damaged(_) | LogOpenError::OldFormat => ProcessOpenError::Store(me),
    }
}

fn of_step(me: ProcessId, error: StepError) -> ProcessOpenError
    ensures { result ≡ error_of_step me error }
{
    match error {
        StepError::Memory => ProcessOpenError::Memory,
        _ => ProcessOpenError::Device(me),
    }
}

fn of_manager(me: ProcessId, error: RestoreError) -> ProcessOpenError
    ensures { result ≡ error_of_manager me error }
{
    match error {
        RestoreError::Log(error) => of_log(me, error),
        RestoreError::Records(RecordsError::Memory) => ProcessOpenError::Memory,
        RestoreError::Records(RecordsError::Device) => ProcessOpenError::Device(me),
        RestoreError::Records(_) => ProcessOpenError::Store(me),
    }
}

/// A process's entry once more.
fn copied_entry(alloc: Global, entry: &TreeProcess) -> Result<TreeProcess, AllocError>
    ensures { IfOk result (λ copy. copy ≡ entry.now) }
{
    Ok(TreeProcess {
        id: entry.id,
        kind: entry.kind,
        parent: entry.parent,
        info: match &entry.info {
            None => None,
            Some(info) => Some(info.copied(alloc)?),
        },
    })
}

/// The tree once more: each process keeps its own.
pub fn copied_tree(alloc: Global, tree: &[TreeProcess]) -> Result<Tree, AllocError>
    ensures { IfOk result (λ copy. copy ≡ tree.now) }
{
    let mut copy = Vec::new(alloc);
    for entry in tree {
        copy.push(copied_entry(alloc, entry)?)?;
    }
    Ok(Tree::from_vec(copy))
}

/// An empty log of a coordinator over an empty store.
fn empty_log<L: LogStore + Drop>(
    alloc: Global,
    me: ProcessId,
    store: L,
) -> Result<RecLog<L>, (ProcessOpenError, L)>
    requires { L.bytes store ≡ [] }
    ensures form { IfOk result (λ log. log.sight.form ≡ log_form me kind.Coordinator) }
    ensures works { IfOk result (λ log. log.sight.failed ≡ false) }
    ensures empty { IfOk result (λ log. records_of log.sight.kept ≡ []) }
    ensures failures { IfOk result (λ log. log.sight.failures ≡ L.failures store) }
    ensures err { IfErr result (λ e. ProcessNotOpened L.bytes L.failures me (Some store) e.0) }
    ensures handed_back { IfErr result (λ e. HandsStoreBack L.failures store e.1 e.0) }
{
    match RecLog::open(alloc, store, me, Kind::Coordinator) {
        Ok(log) => Ok(log),
        Err((error, store)) => Err((of_log(me, error), store)),
    }
}

/// Opens a coordinator of the tree over an empty store. Without a parent it is the root.
fn open_coordinator<L: LogStore + Drop>(
    alloc: Global,
    me: ProcessId,
    parent: Option<ProcessId>,
    tree: Tree,
    store: L,
) -> Result<Process<L>, (ProcessOpenError, L)>
    requires { L.bytes store ≡ [] }
    ensures ok { IfOk result (λ node. OpenedAt
        (record { me = me; role = role_by kind.Coordinator parent; tree = tree }) (core_of node)) }
    ensures holdings { IfOk result (λ node. DataRests no_data (data_of node)) }
    ensures err { IfErr result (λ e. ProcessNotOpened L.bytes L.failures me (Some store) e.0) }
    ensures handed_back { IfErr result (λ e. HandsStoreBack L.failures store e.1 e.0) }
{
    let log = empty_log(alloc, me, store)?;
    match Coordinator::open(alloc, me, parent, tree, log) {
        Ok(coordinator) => Ok(Process::Coordinator(coordinator)),
        Err((error, log)) => Err((of_step(me, error), log.into_store())),
    }
}

/// Opens a manager of the tree over an empty store.
fn open_manager<L: LogStore + Drop>(
    alloc: Global,
    me: ProcessId,
    parent: ProcessId,
    tree: Tree,
    store: L,
) -> Result<Process<L>, (ProcessOpenError, L)>
    requires { L.bytes store ≡ [] }
    ensures ok { IfOk result
        (λ node. OpenedAt (record { me = me; role = Role.AtLeaf parent; tree = tree }) (core_of node)) }
    ensures holdings { IfOk result (λ node. DataRests no_data (data_of node)) }
    ensures err { IfErr result (λ e. ProcessNotOpened L.bytes L.failures me (Some store) e.0) }
    ensures handed_back { IfErr result (λ e. HandsStoreBack L.failures store e.1 e.0) }
{
    match KvManager::create(alloc, store, me) {
        Ok(manager) => Ok(Process::Manager(Subordinate::open(alloc, me, parent, tree, manager))),
        Err((error, store)) => Err((of_manager(me, error), store)),
    }
}

/// Opens the process of an entry over an empty store. A process without a parent is the root, whatever its
/// kind.
///
/// With a refusal the store is handed back. Memory: a growth was refused; no record is in the store, though
/// a header may. Device: the device of the store failed.
pub fn open_node<L: LogStore + Drop>(
    alloc: Global,
    entry: &TreeProcess,
    tree: Tree,
    store: L,
) -> Result<Process<L>, (ProcessOpenError, L)>
    requires { L.bytes store ≡ [] }
    ensures ok { IfOk result (λ node. OpenedAs tree entry.now (core_of node)) }
    ensures holdings { IfOk result (λ node. DataRests no_data (data_of node)) }
    ensures err { IfErr result (λ e. ProcessNotOpened L.bytes L.failures entry.now.id (Some store) e.0) }
    ensures handed_back { IfErr result (λ e. HandsStoreBack L.failures store e.1 e.0) }
{
    match (entry.kind, entry.parent) {
        (Kind::Manager, Some(parent)) => open_manager(alloc, entry.id, parent, tree, store),
        (_, parent) => open_coordinator(alloc, entry.id, parent, tree, store),
    }
}
