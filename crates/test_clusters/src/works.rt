//! Works of one case at one manager keep their order.

ghost use Rattle.std.specs.Prelude.{◌≡◌, ◌<◌, ◌≤◌};
ghost use Rattle.cluster_tree.specs.Opening.{SeatsTree};

use crate::opening::{begin, close, deliver_by, tree};
use cluster_process::{Open, Pass};
use cluster_ties::seats::{Opened, Seats};
use cluster_tree::{Cluster, seats};
use cluster_turns::ClosedJournal;
use protocol::{Act, Bytes, Case, Conclusion, Event, JournalEntry, Op, ProcessId, Tree};
use std::alloc::Global;
use std::marker::Brand;
use std::sync::Wait;
use std::thread::Threads;

/// N managers a transaction has.
const MANAGERS: u32 = 2;

/// So often transactions are made at once.
const ROUNDS: u32 = 6;

/// N transactions are made at once.
const AT_ONCE: u32 = 100;

/// N works each manager has in a transaction.
const WORKS: u32 = 16;

/// A write of a key of its own.
fn write(alloc: Global, case: Case, manager: u32, work: u32) -> Option<Op> {
    let sequence = case.txn.sequence;
    let key = format!(in alloc; "{sequence}.{manager}.{work}").ok()?;
    let key = Bytes::from_slice(alloc, key.as_bytes()).ok()?;
    let value = Bytes::from_slice(alloc, b"v").ok()?;
    Some(Op::Put(key, value))
}

/// The root invites each manager.
fn invite<N: Seats, R: Wait>(
    rt: &R,
    cluster: &Cluster<N>,
    pass: &mut Pass<N>,
    case: Case,
) -> Option<()> {
    for place in 0..MANAGERS {
        let join = Event::Act(Act::Join(case, ProcessId(place.saturating_add(2))));
        cluster.post(rt, join, pass, &Open).ok()?;
    }
    Some(())
}

/// Each manager is given all its works at once: no settle comes between them.
fn work<N: Seats, R: Wait>(
    rt: &R,
    alloc: Global,
    cluster: &Cluster<N>,
    pass: &mut Pass<N>,
    case: Case,
) -> Option<()> {
    for number in 0..WORKS {
        for place in 0..MANAGERS {
            let manager = place.saturating_add(2);
            let write = write(alloc, case, manager, number)?;
            let work = Event::Act(Act::Work(case, ProcessId(manager), write));
            cluster.post(rt, work, pass, &Open).ok()?;
        }
    }
    Some(())
}

/// Makes N transactions at once.
fn make_round<N: Seats + Send + Sync, R: Threads + Wait + Sync>(
    rt: &R,
    alloc: Global,
    cluster: &Cluster<N>,
    passes: &mut [Pass<N>],
) -> Option<()> {
    let mut cases = Vec::new(alloc);
    for _ in 0..AT_ONCE {
        let case = begin(rt, cluster, passes.first_mut()?)?;
        invite(rt, cluster, passes.first_mut()?, case)?;
        cases.push(case).ok()?;
    }
    deliver_by(rt, cluster, passes, &Open)?;
    for case in &cases {
        work(rt, alloc, cluster, passes.first_mut()?, *case)?;
    }
    deliver_by(rt, cluster, passes, &Open)?;
    for case in &cases {
        let commit = Event::Act(Act::Commit(case.txn));
        cluster.post(rt, commit, passes.first_mut()?, &Open).ok()?;
    }
    deliver_by(rt, cluster, passes, &Open)
}

/// Makes all of them.
fn make_all<N: Seats + Send + Sync, R: Threads + Wait + Sync>(
    rt: &R,
    alloc: Global,
    cluster: &Cluster<N>,
    passes: &mut [Pass<N>],
) -> Option<()> {
    for _ in 0..ROUNDS {
        make_round(rt, alloc, cluster, passes)?;
    }
    Some(())
}

/// Whether this entry told the application that a transaction is committed.
fn is_commit(entry: &JournalEntry) -> bool {
    match entry.reaction.told {
        None => false,
        Some(told) => told.conclusion == Conclusion::Committed,
    }
}

/// How many transactions the application was told to be committed.
fn committed(journal: &ClosedJournal) -> u32 {
    let mut count: u32 = 0;
    for turn in journal.turns() {
        for (_, entry) in turn {
            if is_commit(entry) {
                count = count.saturating_add(1);
            }
        }
    }
    count
}

/// Transactions with many works at each manager, whose messages N workers deliver. Whether all commit.
fn commit_by<N: Seats + Send + Sync, R: Threads + Wait + Sync>(
    rt: &R,
    alloc: Global,
    tree: Tree,
    opened: Opened,
    workers: usize,
) -> Option<bool>
    requires workers { (0 < workers) × (workers ≤ 16) }
    requires seats { SeatsTree N.table N.tree tree opened.ties.shared.table_id opened.ties.shared.key.items }
    requires callers { workers ≡ N.callers }
{
    let Ok((cluster, mut passes)) = Cluster::<N>::new(alloc, tree, opened, workers) else {
        return None;
    };
    let made = make_all(rt, alloc, &cluster, passes.as_mut_slice());
    let (journal, _) = close(cluster, passes.as_mut_slice())?;
    Some(made.is_some() && committed(&journal) == AT_ONCE.saturating_mul(ROUNDS))
}

/// Whether 600 transactions of 16 works a manager commit: a work that overtakes another has its manager vote
/// NO.
pub fn works_keep_their_order<R: Threads + Wait + Sync>(
    rt: &R,
    alloc: Global,
    workers: usize,
) -> Option<bool>
    requires { (0 < workers) × (workers ≤ 16) }
{
    let tree = tree(alloc, MANAGERS)?;
    let opened = seats(alloc, &tree).ok()?;
    commit_by::<Brand, R>(rt, alloc, tree, opened, workers)
}
