//! A tree that opens over the logs of an earlier run, and a device that stops at each of its calls under
//! that.

use crate::stops::{CALLS, cases_in_doubt, has_one_outcome_each};
use audit_tree::audit;
use log_script::{ProcessLogs, bytes_of, read_logs};
use log_store::{FaultStore, LogStore, MemoryStore, StoreCall};
use protocol::{Event, ProcessId, Tree};
use std::alloc::Global;
use tree_world::{TreeReopenError, World, copied_tree, logs_left};

/// A root, a coordinator and a manager below it, by the first format: the root has committed, and the manager
/// has promised.
const LEFT: &str = "\
[[process]]
id = 1
kind = \"coordinator\"
[[process]]
id = 2
kind = \"coordinator\"
parent = 1
[[process]]
id = 3
kind = \"manager\"
parent = 2
---
log 1 524c4f4701010008000000000000000104002f00000fa114000000000100000000000000010000000000000001010000000200000000000000010000000000000001
log 2 524c4f4701010008000000000000000103004700000fa11418000000010000000000000001000000000000000100000001000000020000000000000001000000000000000101000000030000000000000001000000000000000104004700000fa114180000000100000000000000010000000000000001000000010000000200000000000000010000000000000001010000000300000000000000010000000000000001
log 3 524c4f4701010008000000000000000111003900000fa11418000000010000000000000001000000000000000100000002000000030000000000000001000000000000000101016b01000176
";

/// A stop of a process's device: at the nth call of a kind, of which the first `keep` bytes are done.
#[derive(Clone, Copy)]
struct Stop {
    process: ProcessId,
    call: StoreCall,
    nth: u64,
    keep: usize,
}

/// The logs that an earlier run left, and their tree.
#[derive(Drop)]
struct Left {
    tree: Tree,
    logs: ProcessLogs,
}

/// How a tree opened whose device was to stop.
#[derive(Clone, Copy, PartialEq, Eq)]
enum Start {
    /// The device came to no such call.
    Whole,
    /// It stopped, and after it the tree opened over what was left, and committed.
    After,
}

/// A store with these bytes, all of them forced, whose device stops so.
fn store_of(
    alloc: Global,
    bytes: &[u8],
    call: StoreCall,
    nth: u64,
    keep: usize,
) -> Option<FaultStore> {
    let store = MemoryStore::from_bytes(Vec::from_slice(alloc, bytes).ok()?);
    Some(FaultStore::new(store, call, nth, keep))
}

/// The stores of the logs; the device of one of them stops.
fn stores(alloc: Global, left: &Left, stop: Stop) -> Option<Vec<FaultStore>> {
    let mut stores = Vec::new(alloc);
    for entry in left.tree.entries() {
        let nth = if entry.id == stop.process {
            stop.nth
        } else {
            0
        };
        let bytes = bytes_of(left.logs.as_slice(), entry.id);
        let store = store_of(alloc, bytes, stop.call, nth, stop.keep)?;
        stores.push(store).ok()?;
    }
    Some(stores)
}

/// What a crash leaves of the stores that were handed back: all bytes of each, or those that are forced.
fn left_of(alloc: Global, stores: &[FaultStore], is_whole: bool) -> Option<Vec<FaultStore>> {
    let mut left = Vec::new(alloc);
    for store in stores {
        let count = if is_whole {
            store.bytes().len()
        } else {
            store.forced()
        };
        let bytes = store.bytes().get(..count)?;
        left.push(store_of(alloc, bytes, StoreCall::Append, 0, 0)?)
            .ok()?;
    }
    Some(left)
}

/// The tree over stores.
fn opened(
    alloc: Global,
    tree: &Tree,
    stores: Vec<FaultStore>,
) -> Option<Result<World<FaultStore>, (TreeReopenError, Vec<FaultStore>)>> {
    let tree = copied_tree(alloc, tree.entries()).ok()?;
    tree.check().ok()?;
    Some(World::reopen(alloc, tree, stores))
}

/// Lets all messages be delivered, and answers whether the logs then show no case in doubt, no mismatch and
/// one outcome of each transaction.
fn settles(alloc: Global, tree: &Tree, world: &mut World<FaultStore>) -> Option<bool> {
    world.apply(Event::Settle).ok()?;
    tree.check().ok()?;
    let logs = logs_left(alloc, world).ok()?;
    let report = audit(alloc, tree, &logs).ok()?;
    let in_doubt = cases_in_doubt(alloc, &report).ok()?;
    Some(in_doubt.is_empty() && report.mismatches == 0 && has_one_outcome_each(&report))
}

/// Whether the tree opens over these stores, and settles.
fn goes_on(alloc: Global, tree: &Tree, stores: Vec<FaultStore>) -> Option<bool> {
    match opened(alloc, tree, stores)? {
        Ok(world) => {
            let mut world = world;
            let settled = settles(alloc, tree, &mut world);
            world.close();
            settled
        }
        Err(_) => None,
    }
}

/// How the tree opens with this stop. None if it is refused otherwise than for the device, or does not go on
/// over what is left.
fn opens_after(alloc: Global, left: &Left, stop: Stop) -> Option<Start> {
    match opened(alloc, &left.tree, stores(alloc, left, stop)?)? {
        Ok(world) => {
            world.close();
            Some(Start::Whole)
        }
        Err((TreeReopenError::Device(process), stores)) => {
            let whole = left_of(alloc, &stores, true)?;
            let forced = left_of(alloc, &stores, false)?;
            let goes_on = process == stop.process
                && goes_on(alloc, &left.tree, whole)?
                && goes_on(alloc, &left.tree, forced)?;
            goes_on.then_some(Start::After)
        }
        Err(_) => None,
    }
}

/// More bytes than a call writes, and more calls of one kind than an opening makes.
const MOST_BYTES: usize = 260;

const MOST_CALLS: u64 = 8;

/// The calls of one kind of a process's device, each stopped with each number of its bytes done: how many
/// calls there are.
fn sweep(alloc: Global, left: &Left, process: ProcessId, call: StoreCall) -> Option<usize> {
    let mut calls = 0usize;
    for nth in 1u64..MOST_CALLS {
        for keep in 0..MOST_BYTES {
            let stop = Stop {
                process,
                call,
                nth,
                keep,
            };
            if opens_after(alloc, left, stop)? == Start::Whole {
                return (keep == 0).then_some(calls);
            }
        }
        calls = calls.saturating_add(1);
    }
    None
}

/// How many calls the devices make as the tree opens, each of which was stopped.
fn sweep_all(alloc: Global, left: &Left) -> Option<usize> {
    let mut calls = 0usize;
    for entry in left.tree.entries() {
        for call in CALLS {
            calls = calls.saturating_add(sweep(alloc, left, entry.id, call)?);
        }
    }
    Some(calls)
}

/// A tree opens over logs of the first format while one of its devices stops at each of its calls, with each
/// number of the call's bytes done: it is refused for that device, and the stores that are handed back hold
/// logs over which it opens and settles, whether a crash leaves all their bytes or those that are forced.
/// Each process migrates its log, appends its Opened, and forces it.
pub(crate) fn a_reopening_that_stops_at_each_write(alloc: Global) -> Option<bool> {
    let (tree, logs) = read_logs(alloc, LEFT.as_bytes()).ok()?;
    let calls = sweep_all(alloc, &Left { tree, logs })?;
    Some(calls == 9)
}
