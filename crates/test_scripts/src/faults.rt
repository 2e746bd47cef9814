//! The steps in which a device failed, in the trace of a tree.

use crate::worlds::{CHILD, ROOT, first_txn, joining, opened, put, runs, sound_store};
use log_store::{FaultStore, MemoryStore, StoreCall};
use protocol::{
    Act, Event, Fault, Happening, Input, JournalEntry, Presumption, ProcessId, StepError, Txn,
};
use std::alloc::{AllocError, Global};
use tree_world::World;

/// A store without bytes, whose device fails at the nth call of this kind, and leaves the first `keep` bytes
/// of it.
fn breaking(alloc: Global, call: StoreCall, nth: u64, keep: usize) -> FaultStore {
    FaultStore::new(MemoryStore::new(alloc), call, nth, keep)
}

/// A root over this store, with one manager over that one.
fn tree_over(alloc: Global, root: FaultStore, child: FaultStore) -> Option<World<FaultStore>> {
    match opened(alloc, vec![in alloc; root, child].ok()?)? {
        Ok(world) => Some(world),
        Err(_) => None,
    }
}

/// Whether an entry is of a step at this process with this fault, and shows nothing.
fn is_fault(entry: &JournalEntry, process: ProcessId, appended: u64, forced: u64) -> bool {
    entry.step.process == process
        && entry.step.fault == Some(Fault { appended, forced })
        && entry.reaction.written.len() == 0
        && entry.reaction.messages.len() == 0
        && entry.reaction.told.is_none()
}

/// What the last entry of a trace is to be: a fault at this process, with these numbers.
#[derive(Drop)]
struct Wanted {
    process: ProcessId,
    appended: u64,
    forced: u64,
}

/// Whether a device fails in this event, and the trace then ends with that step, after all steps that were
/// made.
fn shows(world: &mut World<FaultStore>, event: Event, wanted: &Wanted) -> Option<bool> {
    let fails = world.apply(event) == Err(StepError::Device);
    let trace = world.trace().ok()?;
    let whole = trace.len() == world.made().saturating_add(1);
    let last = match trace.last() {
        Some(entry) => is_fault(entry, wanted.process, wanted.appended, wanted.forced),
        None => false,
    };
    Some(fails && whole && last)
}

/// The tree once its first transaction, of this presumption, has a child that wrote.
fn written(
    alloc: Global,
    presumption: Presumption,
    root: FaultStore,
    child: FaultStore,
) -> Option<(World<FaultStore>, Txn)> {
    let txn = first_txn(presumption);
    let mut world = tree_over(alloc, root, child)?;
    let write = put(alloc, txn).ok()?;
    if runs(&mut world, &joining(txn)) && runs(&mut world, &[write, Event::Settle]) {
        Some((world, txn))
    } else {
        None
    }
}

/// An act: the root's device fails under its Collecting, of which nothing, the record, or the record forced
/// is left.
fn acts(alloc: Global, call: StoreCall, keep: usize, wanted: &Wanted) -> Option<bool> {
    let root = breaking(alloc, call, 2, keep);
    let (mut world, txn) = written(alloc, Presumption::PresumeCommit, root, sound_store(alloc))?;
    let shown = shows(&mut world, Event::Act(Act::Commit(txn)), wanted);
    world.close();
    shown
}

/// A delivery, alone or within a settle: the child's device fails under its promise.
fn deliveries(alloc: Global, settles: bool) -> Option<bool> {
    let child = breaking(alloc, StoreCall::Force, 2, 0);
    let (mut world, txn) = written(alloc, Presumption::PresumeAbort, sound_store(alloc), child)?;
    let asked = runs(&mut world, &[Event::Act(Act::Commit(txn))]);
    let last = world.sent().ok()?.len() as u64;
    let event = if settles {
        Event::Settle
    } else {
        Event::Deliver(last)
    };
    let wanted = Wanted {
        process: CHILD,
        appended: 1,
        forced: 0,
    };
    let shown = shows(&mut world, event, &wanted);
    world.close();
    Some(asked && shown == Some(true))
}

/// A restart: the root's device fails under its second Opened, of which nothing or the record is left.
fn restarts(alloc: Global, call: StoreCall, appended: u64) -> Option<bool> {
    let mut world = tree_over(alloc, breaking(alloc, call, 2, 0), sound_store(alloc))?;
    let wanted = Wanted {
        process: ROOT,
        appended,
        forced: 0,
    };
    let shown = shows(&mut world, Event::Restart(ROOT, None), &wanted);
    world.close();
    shown
}

/// A trim, after the transaction ended: the child's device leaves the old log or the trimmed one.
fn trims(alloc: Global, keep: usize, appended: u64) -> Option<bool> {
    let child = breaking(alloc, StoreCall::Replace, 2, keep);
    let (mut world, txn) = written(alloc, Presumption::PresumeAbort, sound_store(alloc), child)?;
    let ended = runs(&mut world, &[Event::Act(Act::Commit(txn)), Event::Settle]);
    let wanted = Wanted {
        process: CHILD,
        appended,
        forced: 0,
    };
    let shown = shows(&mut world, Event::Trim(CHILD), &wanted);
    world.close();
    Some(ended && shown == Some(true))
}

/// A fault of each kind is at the end of the trace, with what it left.
pub(crate) fn faults_stand_in_the_trace(alloc: Global) -> Option<bool> {
    let nothing = Wanted {
        process: ROOT,
        appended: 0,
        forced: 0,
    };
    let record = Wanted {
        process: ROOT,
        appended: 1,
        forced: 0,
    };
    let forced = Wanted {
        process: ROOT,
        appended: 1,
        forced: 1,
    };
    Some(
        acts(alloc, StoreCall::Append, 0, &nothing) == Some(true)
            && acts(alloc, StoreCall::Force, 0, &record) == Some(true)
            && acts(alloc, StoreCall::Force, 1000, &forced) == Some(true)
            && deliveries(alloc, false) == Some(true)
            && deliveries(alloc, true) == Some(true)
            && restarts(alloc, StoreCall::Append, 0) == Some(true)
            && restarts(alloc, StoreCall::Force, 1) == Some(true)
            && trims(alloc, 0, 0) == Some(true)
            && trims(alloc, 1, 1) == Some(true),
    )
}

/// Whether the step at this place of a trace is a fault, and the next one the restart after it.
fn restarts_after(trace: &[JournalEntry], place: usize) -> bool {
    match (trace.get(place), trace.get(place.saturating_add(1))) {
        (Some(fault), Some(restart)) => {
            is_fault(fault, ROOT, 1, 0)
                && matches!(fault.step.happening, Happening::Input(Input::Act(_)))
                && matches!(restart.step.happening, Happening::Restart(_))
        }
        _ => false,
    }
}

/// What the trace of a tree is to be that went on after a fault: the fault is before the steps made since.
fn goes_on(world: &World<FaultStore>, before: usize) -> Result<bool, AllocError> {
    let trace = world.trace()?;
    Ok(trace.len() == world.made().saturating_add(1) && restarts_after(&trace, before))
}

/// After a fault the root restarts, and the tree goes on: the fault is in the trace where it was.
pub(crate) fn a_run_goes_on_after_a_fault(alloc: Global) -> Option<bool> {
    let root = breaking(alloc, StoreCall::Force, 2, 0);
    let (mut world, txn) = written(alloc, Presumption::PresumeCommit, root, sound_store(alloc))?;
    let before = world.made();
    let fails = world.apply(Event::Act(Act::Commit(txn))) == Err(StepError::Device);
    let refused = world.apply(Event::Act(Act::Commit(txn))) == Err(StepError::Failed);
    let on = runs(&mut world, &[Event::Restart(ROOT, None), Event::Settle]);
    let stands = goes_on(&world, before);
    world.close();
    Some(fails && refused && on && stands == Ok(true))
}
