//! Restarts under way.

ghost use Rattle.std.specs.Prelude.{◌≡◌};
ghost use Rattle.cluster_tree.specs.Opening.{SeatsTree};

use crate::deliveries::{MANAGERS, invite};
use crate::opening::{begin, close, deliver_by, tree};
use crate::replay::is_replayed;
use cluster_process::{Open, Pass};
use cluster_ties::seats::{Opened, Seats};
use cluster_tree::{Cluster, seats};
use protocol::{Act, Event, ProcessId, Tree};
use std::alloc::Global;
use std::marker::Brand;
use std::sync::Wait;
use std::thread;
use std::thread::Threads;
use tree_process::copied_tree;

/// N times each process restarts.
const TIMES: u32 = 100;

/// Restarts each process again and again; each other time the unforced records are lost.
fn restart_all<N: Seats, R: Wait>(rt: &R, cluster: &Cluster<N>, pass: &mut Pass<N>) -> bool {
    for time in 0..TIMES {
        let kept = if time % 2 == 0 { None } else { Some(0) };
        for place in 0..=MANAGERS {
            let restart = Event::Restart(ProcessId(place.saturating_add(1)), kept);
            if cluster.post(rt, restart, pass, &Open).is_err() {
                return false;
            }
        }
    }
    true
}

/// Begins and commits transactions, and delivers what is sent. What a restart undid is refused.
fn commit_all<N: Seats + Send + Sync, R: Threads + Wait + Sync>(
    rt: &R,
    cluster: &Cluster<N>,
    passes: &mut [Pass<N>],
) -> Option<()> {
    for _ in 0..TIMES {
        let first = passes.first_mut()?;
        let case = begin(rt, cluster, first)?;
        invite(rt, cluster, first, case);
        deliver_by(rt, cluster, passes, &Open)?;
        let commit = Event::Act(Act::Commit(case.txn));
        let _ = cluster.post(rt, commit, passes.first_mut()?, &Open);
        deliver_by(rt, cluster, passes, &Open)?;
    }
    Some(())
}

/// Commits with these workers while another caller restarts each process. Whether both come to their end.
fn commit_and_restart<'a, N: Seats + Send + Sync, R: Threads + Wait + Sync>(
    rt: &'a R,
    cluster: &'a Cluster<N>,
    caller: &'a mut Pass<N>,
    workers: &'a mut [Pass<N>],
) -> bool {
    let (committed, restarted) = thread::join_mut(
        rt,
        &mut || commit_all(rt, cluster, workers),
        &mut || restart_all(rt, cluster, caller),
    );
    committed.is_some() && restarted
}

/// Four workers deliver while another caller restarts each process.
fn restart_under_way<N: Seats + Send + Sync, R: Threads + Wait + Sync>(
    rt: &R,
    alloc: Global,
    tree: Tree,
    opened: Opened,
) -> Option<bool>
    requires seats { SeatsTree N.table N.tree tree opened.ties.shared.table_id opened.ties.shared.key.items }
    requires callers { 5 ≡ N.callers }
{
    let copy = copied_tree(alloc, tree.entries()).ok()?;
    let Ok((cluster, mut passes)) = Cluster::<N>::new(alloc, copy, opened, 5) else {
        return None;
    };
    let ended = match passes.as_mut_slice().split_first_mut() {
        None => false,
        Some((caller, workers)) => commit_and_restart(rt, &cluster, caller, workers),
    };
    let (journal, logs) = close(cluster, passes.as_mut_slice())?;
    let replayed = is_replayed(alloc, tree, &journal, &logs).ok()?;
    Some(ended && replayed)
}

/// Whether the journal, run again on one thread, leaves the same logs.
pub fn restarts_under_way<R: Threads + Wait + Sync>(rt: &R, alloc: Global) -> Option<bool> {
    let tree = tree(alloc, MANAGERS)?;
    let opened = seats(alloc, &tree).ok()?;
    restart_under_way::<Brand, R>(rt, alloc, tree, opened)
}
