//! A tree that runs over stores: what is refused, and each public call once, with ample memory: none of them
//! answers want of memory.

use log_store::{FaultStore, LogStore, MemoryStore, StoreCall};
use protocol::{
    Act, Bytes, Case, Event, Happening, Input, Kind, Message, Op, Presumption, ProcessId,
    StepError, Tree, TreeProcess, Txn,
};
use std::alloc::{AllocError, Global};
use tree_world::{ProcessOpenError, World};

pub(crate) const ROOT: ProcessId = ProcessId(1);

pub(crate) const CHILD: ProcessId = ProcessId(2);

fn listed(id: ProcessId, kind: Kind, parent: Option<ProcessId>) -> TreeProcess {
    TreeProcess {
        id,
        kind,
        parent,
        info: None,
    }
}

/// Why a tree does not open, and the stores that it hands back.
type Refusal = (ProcessOpenError, Vec<FaultStore>);

/// A root with one manager below it, over these stores, or why they are refused.
pub(crate) fn opened(
    alloc: Global,
    stores: Vec<FaultStore>,
) -> Option<Result<World<FaultStore>, Refusal>> {
    let entries = vec![in alloc;
        listed(ROOT, Kind::Coordinator, None),
        listed(CHILD, Kind::Manager, Some(ROOT)),
    ];
    let tree = Tree::from_vec(entries.ok()?);
    tree.check().ok()?;
    Some(World::with_stores(alloc, tree, stores))
}

/// A store that begins with these bytes, and whose device does not fail.
fn store_of(alloc: Global, bytes: &[u8]) -> Result<FaultStore, AllocError> {
    let bytes = Vec::from_slice(alloc, bytes)?;
    Ok(FaultStore::new(MemoryStore::from_bytes(bytes), StoreCall::Append, 0, 0))
}

/// A store without bytes, whose device does not fail.
pub(crate) fn sound_store(alloc: Global) -> FaultStore {
    FaultStore::new(MemoryStore::new(alloc), StoreCall::Append, 0, 0)
}

/// A store without bytes, whose device fails at the nth force, of which it makes the first `keep` bytes
/// durable.
fn failing_store(alloc: Global, nth: u64, keep: usize) -> FaultStore {
    FaultStore::new(MemoryStore::new(alloc), StoreCall::Force, nth, keep)
}

/// Whether a tree does not open over these stores for this error, and hands back stores of N bytes.
fn is_refused(
    alloc: Global,
    stores: Vec<FaultStore>,
    why: ProcessOpenError,
    sizes: &[usize],
) -> bool {
    match opened(alloc, stores) {
        Some(Err((refusal, stores))) => {
            refusal == why
                && stores.len() == sizes.len()
                && stores
                    .iter()
                    .zip(sizes)
                    .all(|(store, size)| store.bytes().len() == *size)
        }
        _ => false,
    }
}

/// A process without a store is refused, and one with bytes, and one whose device fails. The stores are
/// handed back: one whose process had opened has its header and its first record, 23 bytes.
pub(crate) fn stores_are_refused(alloc: Global) -> Result<bool, AllocError> {
    let one = vec![in alloc; sound_store(alloc)]?;
    let written = vec![in alloc; store_of(alloc, b"x")?, sound_store(alloc)]?;
    let failing = vec![in alloc; sound_store(alloc), failing_store(alloc, 1, 0)]?;
    Ok(
        is_refused(alloc, one, ProcessOpenError::Store(CHILD), &[23])
            && is_refused(alloc, written, ProcessOpenError::Store(ROOT), &[1, 0])
            && is_refused(alloc, failing, ProcessOpenError::Device(CHILD), &[23, 23]),
    )
}

/// The root's transaction of this number.
fn txn_of(sequence: u64, presumption: Presumption) -> Txn {
    Txn {
        root: ROOT,
        boot: 1,
        sequence,
        presumption,
    }
}

/// The first transaction of the root.
pub(crate) fn first_txn(presumption: Presumption) -> Txn {
    txn_of(1, presumption)
}

/// The transaction begins, the child is invited, and joins.
pub(crate) fn joining(txn: Txn) -> [Event; 3] {
    [
        Event::Act(Act::Begin(txn.presumption)),
        Event::Act(Act::Join(Case { txn, ticket: None }, CHILD)),
        Event::Settle,
    ]
}

/// A root over this store, with one manager below it.
fn world_of(alloc: Global, root: FaultStore) -> Option<World<FaultStore>> {
    match opened(alloc, vec![in alloc; root, sound_store(alloc)].ok()?)? {
        Ok(world) => Some(world),
        Err(_) => None,
    }
}

/// Makes these events, and answers whether each was made.
pub(crate) fn runs(world: &mut World<FaultStore>, events: &[Event]) -> bool {
    world.run(events).is_ok()
}

/// Whether the fourth step is the delivery of the second message, as it was sent.
fn handles_second_message(world: &World<FaultStore>) -> Result<bool, AllocError> {
    Ok(match world.entry(3)? {
        Some(entry) => {
            entry.step.process == ROOT
                && matches!(
                    entry.step.happening,
                    Happening::Input(Input::Message(2, Message::Joined(_, _)))
                )
        }
        None => false,
    })
}

/// Whether a world in which the child has joined shows that.
fn shows_joining(world: &World<FaultStore>) -> Result<bool, AllocError> {
    let counts = world.tree().entries().len() == 2
        && world.made() == 4
        && world.trace()?.len() == 4;
    let sent = world.sent()?.len() == 2;
    let logs = world.logs()?.len() == 2;
    Ok(counts && sent && logs && handles_second_message(world)? && world.live(ROOT) == Some(1))
}

/// A world runs a list of events, and shows its messages, its trace and its logs: with ample memory no call
/// answers want of it.
pub(crate) fn a_world_runs(alloc: Global) -> Option<bool> {
    let txn = first_txn(Presumption::PresumeAbort);
    let mut world = world_of(alloc, sound_store(alloc))?;
    let ran = runs(&mut world, &joining(txn));
    let shown = shows_joining(&world);
    world.close();
    Some(ran && shown == Ok(true))
}

/// The root's device fails under its first record after Opened: the act is refused so, and from then on the
/// root has failed.
pub(crate) fn a_root_fails_with_its_device(alloc: Global) -> Option<bool> {
    let txn = first_txn(Presumption::PresumeCommit);
    let mut world = world_of(alloc, failing_store(alloc, 2, 0))?;
    let ran = runs(&mut world, &joining(txn));
    let first = world.apply(Event::Act(Act::Commit(txn)));
    let second = world.apply(Event::Act(Act::Commit(txn)));
    world.close();
    Some(ran && first == Err(StepError::Device) && second == Err(StepError::Failed))
}

/// A child's write of a transaction of the root.
pub(crate) fn put(alloc: Global, txn: Txn) -> Result<Event, AllocError> {
    let key = Bytes::from_slice(alloc, b"k")?;
    let value = Bytes::from_slice(alloc, b"v")?;
    let case = Case { txn, ticket: None };
    Ok(Event::Act(Act::Work(case, CHILD, Op::Put(key, value))))
}

/// Commits a transaction that wrote, to its end, and answers whether each event was made.
fn commits(alloc: Global, world: &mut World<FaultStore>, txn: Txn) -> Result<bool, AllocError> {
    let write = put(alloc, txn)?;
    let ending = [Event::Settle, Event::Act(Act::Commit(txn)), Event::Settle];
    Ok(runs(world, &joining(txn)) && world.apply(write).is_ok() && runs(world, &ending))
}

/// Commits N transactions, one after another, and answers whether each event was made.
fn commits_each(
    alloc: Global,
    world: &mut World<FaultStore>,
    count: u64,
) -> Result<bool, AllocError> {
    for sequence in 1..=count {
        if !commits(alloc, world, txn_of(sequence, Presumption::PresumeAbort))? {
            return Ok(false);
        }
    }
    Ok(true)
}

/// After a thousand transactions that wrote and committed no process has a live case.
pub(crate) fn nothing_is_left_live(alloc: Global) -> Option<bool> {
    let mut world = world_of(alloc, sound_store(alloc))?;
    let ran = commits_each(alloc, &mut world, 1000);
    let live = (world.live(ROOT), world.live(CHILD));
    world.close();
    Some(ran == Ok(true) && live == (Some(0), Some(0)))
}
