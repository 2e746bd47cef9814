//! Opening a process over the log that an earlier one left, or over an empty store.

ghost use Rattle.log_text.specs.Forms.{log_form};
ghost use Rattle.std.specs.Prelude.{◌≡◌, IfErr, IfOk};
ghost use Rattle.protocol_words.specs.kind;
ghost use Rattle.protocol.specs.Nodes.{Role, role_by};
ghost use Rattle.protocol.specs.Views.{leaf_place};
ghost use Rattle.log_records.specs.Openings.{OpensLog};
ghost use Rattle.kv_manager.specs.Restarts.{RestoredFrom};
ghost use Rattle.tree_process.specs.Nodes.{core_of, data_of};
ghost use Rattle.tree_process.specs.Reopenings.{
  HandsLogBack,
  NotLeft,
  ProcessNotReopened,
  Reopens,
  ReopensAs,
  error_of_coordinator,
  error_of_log,
  error_of_manager,
  error_of_subordinate,
  form_by,
  place_by,
  reopen_error_number,
};

use crate::node::Process;
use coord_process::{Coordinator, CoordinatorReopenError as CoordinatorError};
use kv_manager::{KvManager, RecordsError, RestoreError};
use log_records::{LogOpenError, RecLog};
use log_store::LogStore;
use protocol::{Kind, ProcessId, Reaction, Tree, TreeProcess};
use std::alloc::Global;
use sub_branches::RebuildError;
use sub_process::Subordinate;
use thiserror::Error;

/// Why no process goes on over the log in a store.
#[derive(Clone, Copy, Debug, PartialEq, Eq, Error)]
pub enum ProcessReopenError {
    /// A growth was refused.
    #[error("no memory")]
    Memory,
    /// The device of the store failed.
    #[error("the device failed")]
    Device,
    /// The bytes are no log of such a process: the first byte of the first frame that is wrong, 0 for the
    /// header.
    #[error("damaged at byte {0}")]
    Damaged(usize),
    /// The records are those of no such process; or numbers are used up after them.
    #[error("the records are not those of such a process")]
    Unfit,
    /// The log is of the first format, and is to be migrated before.
    #[error("a log of the first format, which `rstar migrate --file LOG` converts")]
    OldFormat,
}

impl ProcessReopenError {
    /// The number of the error, 1 to 5.
    pub fn number(self) -> u8
        ensures { result ≡ reopen_error_number self }
    {
        match self {
            ProcessReopenError::Memory => 1,
            ProcessReopenError::Device => 2,
            ProcessReopenError::Damaged(_) => 3,
            ProcessReopenError::Unfit => 4,
            ProcessReopenError::OldFormat => 5,
        }
    }
}

fn of_log(error: LogOpenError) -> ProcessReopenError
    ensures { result ≡ error_of_log error }
{
    match error {
        LogOpenError::Memory => ProcessReopenError::Memory,
        LogOpenError::Device => ProcessReopenError::Device,
        LogOpenError::Damaged(place) => ProcessReopenError::Damaged(place),
        LogOpenError::OldFormat => ProcessReopenError::OldFormat,
    }
}

fn of_subordinate(error: RebuildError) -> ProcessReopenError
    ensures { result ≡ error_of_subordinate error }
{
    match error {
        RebuildError::Memory => ProcessReopenError::Memory,
        RebuildError::Unfit | RebuildError::Exhausted => ProcessReopenError::Unfit,
    }
}

fn of_coordinator(error: CoordinatorError) -> ProcessReopenError
    ensures { result ≡ error_of_coordinator error }
{
    match error {
        CoordinatorError::Memory => ProcessReopenError::Memory,
        CoordinatorError::Device => ProcessReopenError::Device,
        CoordinatorError::Exhausted => ProcessReopenError::Unfit,
    }
}

fn of_manager(error: RestoreError) -> ProcessReopenError
    ensures { result ≡ error_of_manager error }
{
    match error {
        RestoreError::Log(error) => of_log(error),
        RestoreError::Records(RecordsError::Memory) => ProcessReopenError::Memory,
        RestoreError::Records(RecordsError::Device) => ProcessReopenError::Device,
        RestoreError::Records(_) => ProcessReopenError::Unfit,
    }
}

/// The log of a coordinator in a store.
fn left_log<L: LogStore + Drop>(
    alloc: Global,
    me: ProcessId,
    store: L,
) -> Result<RecLog<L>, (ProcessReopenError, L)>
    ensures ok { IfOk result (OpensLog (log_form me kind.Coordinator) (L.bytes store) (L.forced store)
        (L.failures store)) }
    ensures err { IfErr result (λ e. NotLeft L.bytes L.forced L.failures
        (log_form me kind.Coordinator) store e.0) }
    ensures handed_back { IfErr result (λ e. HandsLogBack L.bytes L.forced L.failures
        (log_form me kind.Coordinator) store e.1 e.0) }
{
    match RecLog::open(alloc, store, me, Kind::Coordinator) {
        Ok(log) => Ok(log),
        Err((error, store)) => Err((of_log(error), store)),
    }
}

/// A key store over the log in a store.
fn left_manager<L: LogStore + Drop>(
    alloc: Global,
    me: ProcessId,
    store: L,
) -> Result<KvManager<L>, (ProcessReopenError, L)>
    ensures ok { IfOk result (RestoredFrom me (L.bytes store) (L.forced store) (L.failures store)) }
    ensures err { IfErr result (λ e. NotLeft L.bytes L.forced L.failures
        (log_form me kind.Manager) store e.0) }
    ensures handed_back { IfErr result (λ e. HandsLogBack L.bytes L.forced L.failures
        (log_form me kind.Manager) store e.1 e.0) }
{
    match KvManager::restore(alloc, store, me) {
        Ok(manager) => Ok(manager),
        Err((error, store)) => Err((of_manager(error), store)),
    }
}

/// A coordinator of the tree over the log in a store. Without a parent it is the root.
fn reopen_coordinator<L: LogStore + Drop>(
    alloc: Global,
    me: ProcessId,
    parent: Option<ProcessId>,
    tree: Tree,
    store: L,
) -> Result<(Process<L>, Reaction), (ProcessReopenError, L)>
    ensures ok { IfOk result (λ made. Reopens (log_form me kind.Coordinator)
        (record { me = me; role = role_by kind.Coordinator parent; tree = tree })
        (L.bytes store) (L.forced store) (L.failures store) (core_of made.0) (data_of made.0) made.1) }
    ensures err { IfErr result (λ e. NotLeft L.bytes L.forced L.failures
        (log_form me kind.Coordinator) store e.0) }
    ensures handed_back { IfErr result (λ e. HandsLogBack L.bytes L.forced L.failures
        (log_form me kind.Coordinator) store e.1 e.0) }
{
    let log = left_log(alloc, me, store)?;
    match Coordinator::reopen(alloc, me, parent, tree, log) {
        Ok((coordinator, reaction)) => Ok((Process::Coordinator(coordinator), reaction)),
        Err((error, log)) => Err((of_coordinator(error), log.into_store())),
    }
}

/// A manager of the tree over the log in a store.
fn reopen_manager<L: LogStore + Drop>(
    alloc: Global,
    me: ProcessId,
    parent: ProcessId,
    tree: Tree,
    store: L,
) -> Result<(Process<L>, Reaction), (ProcessReopenError, L)>
    ensures ok { IfOk result (λ made. Reopens (log_form me kind.Manager)
        (record { me = me; role = Role.AtLeaf parent; tree = tree })
        (L.bytes store) (L.forced store) (L.failures store) (core_of made.0) (data_of made.0) made.1) }
    ensures err { IfErr result (λ e. ProcessNotReopened L.bytes L.forced L.failures (log_form me kind.Manager)
        (leaf_place me parent tree) store e.0) }
    ensures handed_back { IfErr result (λ e. HandsLogBack L.bytes L.forced L.failures
        (log_form me kind.Manager) store e.1 e.0) }
{
    let manager = match left_manager(alloc, me, store) {
        Ok(manager) => manager,
        Err(refused) => return Err(refused),
    };
    match Subordinate::reopen(alloc, me, parent, tree, manager) {
        Ok((subordinate, reaction)) => Ok((Process::Manager(subordinate), reaction)),
        Err((error, manager)) => Err((of_subordinate(error), manager.into_store())),
    }
}

/// The process of an entry over the log in a store: it restarts as whatever process left that log would, and
/// a log without a record is that of a process which never opened. What it logs and sends as it restarts
/// comes with it. A process without a parent is the root, whatever its kind.
///
/// Memory: a growth was refused. Device: the device of the store failed. Damaged: the bytes are no log of
/// such a process. OldFormat: they are a log of the first format. Unfit: the records leave no manager, or no
/// subordinate can have written them; or numbers are used up after them. With a refusal the store is handed
/// back.
pub fn reopen_over<L: LogStore + Drop>(
    alloc: Global,
    entry: &TreeProcess,
    tree: Tree,
    store: L,
) -> Result<(Process<L>, Reaction), (ProcessReopenError, L)>
    ensures ok { IfOk result (λ made. ReopensAs tree entry.now
        (L.bytes store) (L.forced store) (L.failures store) (core_of made.0) (data_of made.0) made.1) }
    ensures err { IfErr result (λ e. ProcessNotReopened L.bytes L.forced L.failures
        (form_by entry.now) (place_by tree entry.now) store e.0) }
    ensures handed_back { IfErr result (λ e. HandsLogBack L.bytes L.forced L.failures (form_by entry.now)
        store e.1 e.0) }
{
    match (entry.kind, entry.parent) {
        (Kind::Manager, Some(parent)) => reopen_manager(alloc, entry.id, parent, tree, store),
        (_, parent) => reopen_coordinator(alloc, entry.id, parent, tree, store),
    }
}

/// The process of an entry over the log in a store, with what it logs and sends as it restarts. With a
/// refusal the store is let go. The errors are those of `reopen_over`.
pub fn reopen_node<L: LogStore + Drop>(
    alloc: Global,
    entry: &TreeProcess,
    tree: Tree,
    store: L,
) -> Result<(Process<L>, Reaction), ProcessReopenError>
    ensures ok { IfOk result (λ made. ReopensAs tree entry.now
        (L.bytes store) (L.forced store) (L.failures store) (core_of made.0) (data_of made.0) made.1) }
    ensures err { IfErr result (ProcessNotReopened L.bytes L.forced L.failures
        (form_by entry.now) (place_by tree entry.now) store) }
{
    match reopen_over(alloc, entry, tree, store) {
        Ok(made) => Ok(made),
        Err((error, _store)) => Err(error),
    }
}
