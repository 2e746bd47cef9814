//! A journal that is full.

ghost use Rattle.std.specs.Prelude.{◌≡◌};
ghost use Rattle.cluster_tree.specs.Opening.{SeatsTree};

use crate::opening::{begin, close, deliver_by, length, tree};
use cluster_process::{MOST_ENTRIES, Open, Pass, PostError};
use cluster_ties::seats::{Opened, Seats};
use cluster_tree::{Cluster, seats};
use protocol::{Act, Event, ProcessId, Tree};
use std::alloc::Global;
use std::marker::Brand;
use std::sync::Wait;
use std::thread::Threads;

/// Delivers message 2, the answer to an invitation, again and again: the place of the last entry, and why
/// no other came.
fn flood<N: Seats, R: Wait>(
    rt: &R,
    cluster: &Cluster<N>,
    pass: &mut Pass<N>,
) -> Option<(usize, PostError)> {
    let mut last = 0;
    for _ in 0..=MOST_ENTRIES {
        match cluster.post(rt, Event::Deliver(2), pass, &Open) {
            Ok((number, _)) => last = number,
            Err(why) => return Some((last, why)),
        }
    }
    None
}

/// A manager is invited, and its answer delivered until no other entry comes.
fn invite_and_flood<N: Seats + Send + Sync, R: Threads + Wait + Sync>(
    rt: &R,
    cluster: &Cluster<N>,
    passes: &mut [Pass<N>],
) -> Option<(usize, PostError)> {
    let case = begin(rt, cluster, passes.first_mut()?)?;
    let join = Event::Act(Act::Join(case, ProcessId(2)));
    cluster.post(rt, join, passes.first_mut()?, &Open).ok()?;
    deliver_by(rt, cluster, passes, &Open)?;
    flood(rt, cluster, passes.first_mut()?)
}

/// A journal is filled. Whether the last entry that it takes is its 1,000,000th.
fn fill<N: Seats + Send + Sync, R: Threads + Wait + Sync>(
    rt: &R,
    alloc: Global,
    tree: Tree,
    opened: Opened,
) -> Option<bool>
    requires seats { SeatsTree N.table N.tree tree opened.ties.shared.table_id opened.ties.shared.key.items }
    requires callers { 1 ≡ N.callers }
{
    let Ok((cluster, mut passes)) = Cluster::<N>::new(alloc, tree, opened, 1) else {
        return None;
    };
    let flooded = invite_and_flood(rt, &cluster, passes.as_mut_slice());
    let (journal, _) = close(cluster, passes.as_mut_slice())?;
    let (last, why) = flooded?;
    Some(last == MOST_ENTRIES && why == PostError::JournalFull && length(&journal) == MOST_ENTRIES)
}

/// Whether the entry after the last that a journal takes is refused, and the journal stands.
pub fn journal_is_full<R: Threads + Wait + Sync>(rt: &R, alloc: Global) -> Option<bool> {
    let tree = tree(alloc, 1)?;
    let opened = seats(alloc, &tree).ok()?;
    fill::<Brand, R>(rt, alloc, tree, opened)
}
