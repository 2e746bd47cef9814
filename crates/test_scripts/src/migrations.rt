//! A device that stops as a log is migrated, with each number of the new bytes done: what is left is the log
//! as it was or the migrated one, each of which migrates to the same bytes.

use log_records::{MigrateError, RecLog};
use log_script::{bytes_of, read_logs};
use log_store::{FaultStore, LogStore, MemoryStore, StoreCall};
use protocol::TreeProcess;
use std::alloc::Global;

/// The bytes of a store after a migration, and whether the device stopped under it.
#[derive(Drop)]
struct Left {
    bytes: Vec<u8>,
    is_forced: bool,
    stopped: bool,
}

impl Left {
    fn of(alloc: Global, store: &FaultStore, stopped: bool) -> Option<Left> {
        Some(Left {
            bytes: Vec::from_slice(alloc, store.bytes()).ok()?,
            is_forced: store.forced() == store.bytes().len(),
            stopped,
        })
    }

    /// Whether these bytes are there, all of them forced.
    fn holds(&self, bytes: &[u8]) -> bool {
        self.is_forced && self.bytes.as_slice() == bytes
    }
}

/// What a migration leaves of these bytes whose nth replace stops, of which the first `keep` bytes are done;
/// no replace stops where it is 0.
fn left_of(
    alloc: Global,
    entry: &TreeProcess,
    bytes: &[u8],
    nth: u64,
    keep: usize,
) -> Option<Left> {
    let store = MemoryStore::from_bytes(Vec::from_slice(alloc, bytes).ok()?);
    let store = FaultStore::new(store, StoreCall::Replace, nth, keep);
    match RecLog::migrate(alloc, store, entry.id, entry.kind) {
        Ok(store) => Left::of(alloc, &store, false),
        Err((MigrateError::Device, store)) => Left::of(alloc, &store, true),
        Err(_) => None,
    }
}

/// Whether a stop with N bytes done leaves the log as it was or the migrated one, and the next
/// migration goes on from there.
fn goes_on(
    alloc: Global,
    entry: &TreeProcess,
    bytes: &[u8],
    migrated: &[u8],
    keep: usize,
) -> Option<bool> {
    let left = left_of(alloc, entry, bytes, 1, keep)?;
    let standing = if keep == 0 { bytes } else { migrated };
    let again = left_of(alloc, entry, left.bytes.as_slice(), 0, 0)?;
    Some(left.stopped && left.holds(standing) && again.holds(migrated))
}

/// A migration that stops with each number of its bytes done: how many bytes the migrated log has.
fn sweep_log(alloc: Global, entry: &TreeProcess, bytes: &[u8]) -> Option<usize> {
    let whole = left_of(alloc, entry, bytes, 0, 0)?;
    if whole.stopped || !whole.is_forced {
        return None;
    }
    let migrated = whole.bytes.as_slice();
    for keep in 0..=migrated.len() {
        if !goes_on(alloc, entry, bytes, migrated, keep)? {
            return None;
        }
    }
    Some(migrated.len())
}

/// Migrates each log of a tree with a stop at its replace, once with each number of its bytes done, and
/// writes how many bytes each migrated log has. None if something else is left than the log as it was or
/// the migrated one, or the next migration does not go on from there.
pub(crate) fn run_migrations(alloc: Global, input: &[u8], out: &mut Vec<u8>) -> Option<()> {
    let (tree, logs) = read_logs(alloc, input).ok()?;
    for entry in tree.entries() {
        let size = sweep_log(alloc, entry, bytes_of(logs.as_slice(), entry.id))?;
        let (process, stops) = (entry.id.0, size.saturating_add(1));
        let line = format!(in alloc; "{process}: {size} bytes, {stops} stops\n");
        out.extend_from_slice(line.ok()?.as_bytes()).ok()?;
    }
    Some(())
}
