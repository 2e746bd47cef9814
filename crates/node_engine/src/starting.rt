//! Starting a node over a log.

ghost use Rattle.std.specs.Prelude.{◌≡◌, IfErr, IfOk, OnOk};
ghost use Rattle.std.specs.List.{list_all};
ghost use Rattle.log_records.specs.Sights.{records_of};
ghost use Rattle.tree_process.specs.Reopenings.{form_by, kind_by};
ghost use Rattle.protocol.specs.Records.{record_case};
ghost use Rattle.node_engine.specs.Starts.{CopyOpens, IsStart, NamesOwn, NoStart, NotHome, is_of_child, is_own_record, names_children, owns};

use crate::serving::Serving;
use coord_records::is_own;
use log_records::{LogOpenError, RecLog};
use log_store::{LogStore, MemoryStore};
use protocol::{Kind, LogRecord, ProcessId, Reaction, Record, Ticket, Tree, TreeProcess};
use std::alloc::{AllocError, Global};
use thiserror::Error;
use tree_process::{ProcessReopenError, copied_tree, reopen_node};

/// Why no node was started.
#[derive(Clone, Copy, Debug, PartialEq, Eq, Error)]
pub enum StartError {
    /// The log has a record of a case of another process's or of another tree's, or one that names a ticket
    /// of no child in this tree.
    #[error("it is the log of another process or of another tree")]
    Stranger,
    /// The process does not go on over the log.
    #[error("{0}")]
    Reopen(ProcessReopenError),
}

impl From<AllocError> for StartError {
    ghost use Rattle.tree_process.specs.declared.reopening.ProcessReopenError.TheVariants.{Memory};
    ghost use Rattle.node_engine.specs.declared.starting.StartError.TheVariants.{Reopen};
    ghost use Rattle.std.specs.Prelude.{◌≡◌};

    ghost from_gives = { λ _ e. e ≡ Reopen Memory };

    fn from(_e: AllocError) -> StartError {
        StartError::Reopen(ProcessReopenError::Memory)
    }
}

/// The kind of the log of a process of this kind below this parent: the root's is a coordinator's.
fn kind_of(kind: Kind, parent: Option<ProcessId>) -> Kind
    ensures { result ≡ kind_by kind parent }
{
    match (kind, parent) {
        (Kind::Manager, Some(_)) => Kind::Manager,
        _ => Kind::Coordinator,
    }
}

/// Whether a ticket is of a child of this process.
#[tactic(auto, unfolding(protocol::specs::Names::same_process))]
fn is_of_child(tree: &Tree, me: ProcessId, ticket: &Ticket) -> bool
    ensures { result ≡ is_of_child tree.now me ticket.now }
{
    match tree.parent(ticket.child) {
        None => false,
        Some(parent) => parent == me,
    }
}

/// Whether each ticket is of a child of this process.
fn are_of_children(tree: &Tree, me: ProcessId, tickets: &[Ticket]) -> bool
    ensures { result ≡ list_all (is_of_child tree.now me) tickets.now }
{
    tickets.iter().all(|ticket| is_of_child(tree, me, ticket))
}

/// Whether the tickets that a record names are of children of this process.
fn names_children(tree: &Tree, me: ProcessId, record: &Record) -> bool
    ensures { result ≡ names_children tree.now me record.now }
{
    match record {
        Record::Collecting(_, tickets)
        | Record::Prepare(_, tickets)
        | Record::Commit(_, tickets)
        | Record::Abort(_, tickets) => are_of_children(tree, me, tickets.as_slice()),
        _ => true,
    }
}

/// Whether a record names no case, or one of the process's own.
fn names_own_case(me: ProcessId, parent: Option<ProcessId>, tree: &Tree, kept: &LogRecord) -> bool
    ensures { result ≡ owns me parent tree.now kept.now.parent (record_case kept.now.entry) }
{
    match kept.entry.case() {
        None => true,
        Some(case) => is_own(me, parent, tree, kept.parent, &case),
    }
}

/// Whether a record names no case, or one of the process's own, and no ticket but of its children.
fn names_own(me: ProcessId, parent: Option<ProcessId>, tree: &Tree, kept: &LogRecord) -> bool
    ensures { result ≡ is_own_record me parent tree.now kept.now }
{
    names_own_case(me, parent, tree, kept) && names_children(tree, me, &kept.entry)
}

/// Whether each of these records does.
fn name_own(me: ProcessId, parent: Option<ProcessId>, tree: &Tree, records: &[LogRecord]) -> bool
    ensures { result ≡ list_all (is_own_record me parent tree.now) records.now }
{
    records
        .iter()
        .all(|record| names_own(me, parent, tree, record))
}

/// The log of the process that these bytes are, over a copy of them in memory; None, if they are none.
#[tactic(auto, using(crate::proofs::Homes::damaged_is_none, crate::proofs::Homes::old_is_none))]
fn copied_log(
    alloc: Global,
    entry: &TreeProcess,
    bytes: &[u8],
) -> Result<Option<RecLog<MemoryStore>>, AllocError>
    ensures { IfOk result (CopyOpens (form_by entry.now) bytes.now) }
{
    let copy = MemoryStore::from_bytes(Vec::from_slice(alloc, bytes)?);
    match RecLog::open(alloc, copy, entry.id, kind_of(entry.kind, entry.parent)) {
        Ok(log) => Ok(Some(log)),
        Err((LogOpenError::Damaged(_), _)) => Ok(None),
        Err((LogOpenError::OldFormat, _)) => Ok(None),
        // A store in memory has no device that fails.
        Err((LogOpenError::Memory | LogOpenError::Device, _)) => Err(AllocError),
    }
}

/// Whether each record of a log is the process's own.
fn is_own_log(
    alloc: Global,
    tree: &Tree,
    entry: &TreeProcess,
    log: &RecLog<MemoryStore>,
) -> Result<bool, AllocError>
    ensures { IfOk result (λ own. own ≡ list_all (is_own_record entry.now.id entry.now.parent tree.now)
        (records_of log.now.sight.kept)) }
{
    let records = log.records(alloc)?;
    Ok(name_own(entry.id, entry.parent, tree, &records))
}

/// That the log which these bytes are is the process's own, as far as its records tell; bytes that are none
/// name nobody.
#[tactic(auto, using(crate::proofs::Homes::none_names_own, crate::proofs::Homes::opened_names_own, crate::proofs::Homes::opened_names_others,))]
fn check_home(
    alloc: Global,
    tree: &Tree,
    entry: &TreeProcess,
    bytes: &[u8],
) -> Result<(), StartError>
    ensures ok { OnOk result (NamesOwn tree.now entry.now bytes.now) }
    ensures err { IfErr result (NotHome tree.now entry.now bytes.now) }
{
    let Some(log) = copied_log(alloc, entry, bytes)? else {
        return Ok(());
    };
    if is_own_log(alloc, tree, entry, &log)? {
        Ok(())
    } else {
        Err(StartError::Stranger)
    }
}

/// The process of an entry as a node, over the log in a store, and what it did as it opened (`reopen_node`).
/// Stranger: the log has a record of a case that is not the process's own in this tree, or one that names a
/// ticket of no child of it, as where the tree was changed; nothing was written. After a refusal the store is
/// let go.
#[tactic(auto, using(crate::proofs::Homes::not_started))]
pub fn start<L: LogStore + Drop>(
    alloc: Global,
    tree: &Tree,
    entry: &TreeProcess,
    store: L,
) -> Result<(Serving<L>, Reaction), StartError>
    ensures ok { IfOk result (λ made. IsStart tree.now entry.now
        (L.bytes store) (L.forced store) (L.failures store) made.0 made.1) }
    ensures err { IfErr result (NoStart L.bytes L.forced L.failures tree.now entry.now store) }
{
    check_home(alloc, tree, entry, store.bytes())?;
    let copy = copied_tree(alloc, tree.entries())?;
    let own = copied_tree(alloc, tree.entries())?;
    match reopen_node(alloc, entry, copy, store) {
        Ok((node, opening)) => Ok((Serving::new(alloc, own, entry.id, node), opening)),
        Err(error) => Err(StartError::Reopen(error)),
    }
}
