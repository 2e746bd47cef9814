//! Workers deliver each message, and none twice.

ghost use Rattle.std.specs.Prelude.{◌≡◌, ◌<◌, ◌≤◌};
ghost use Rattle.cluster_tree.specs.Opening.{SeatsTree};

use crate::opening::{begin, close, deliver_by, tree};
use cluster_process::{Open, Pass};
use cluster_ties::seats::{Opened, Seats};
use cluster_tree::{Cluster, seats};
use cluster_turns::ClosedJournal;
use protocol::{Act, Case, Event, Happening, Input, JournalEntry, ProcessId, Tree};
use std::alloc::{AllocError, Global};
use std::marker::Brand;
use std::sync::Wait;
use std::thread::Threads;

/// N managers a transaction has.
pub const MANAGERS: u32 = 6;

/// The root invites each manager.
pub fn invite<N: Seats, R: Wait>(rt: &R, cluster: &Cluster<N>, pass: &mut Pass<N>, case: Case) {
    for place in 0..MANAGERS {
        let join = Event::Act(Act::Join(case, ProcessId(place.saturating_add(2))));
        let _ = cluster.post(rt, join, pass, &Open);
    }
}

/// How many messages a journal sent.
fn messages(journal: &ClosedJournal) -> usize {
    let mut sent: usize = 0;
    for turn in journal.turns() {
        for (_, entry) in turn {
            sent = sent.saturating_add(entry.reaction.messages.len());
        }
    }
    sent
}

/// Counts the message that this entry delivers, if it delivers one.
fn count(counts: &mut [u64], entry: &JournalEntry) {
    if let Happening::Input(Input::Message(number, _)) = &entry.step.happening {
        let place = number.saturating_sub(1) as usize;
        if let Some(count) = counts.get_mut(place) {
            *count = count.saturating_add(1);
        }
    }
}

/// How often each message was delivered, in order of sending.
fn times_delivered(alloc: Global, journal: &ClosedJournal) -> Result<Vec<u64>, AllocError> {
    let mut counts = Vec::new(alloc);
    counts.resize(messages(journal), 0u64)?;
    for turn in journal.turns() {
        for (_, entry) in turn {
            count(counts.as_mut_slice(), entry);
        }
    }
    Ok(counts)
}

/// Whether each of these is one.
fn are_ones(counts: &[u64]) -> bool {
    counts.iter().all(|count| *count == 1)
}

/// Begins transactions of many managers and commits them, and delivers what is sent.
fn commit_all<N: Seats + Send + Sync, R: Threads + Wait + Sync>(
    rt: &R,
    cluster: &Cluster<N>,
    passes: &mut [Pass<N>],
) -> Option<()> {
    for _ in 0..20u32 {
        let case = begin(rt, cluster, passes.first_mut()?)?;
        invite(rt, cluster, passes.first_mut()?, case);
        deliver_by(rt, cluster, passes, &Open)?;
        let commit = Event::Act(Act::Commit(case.txn));
        cluster.post(rt, commit, passes.first_mut()?, &Open).ok()?;
        deliver_by(rt, cluster, passes, &Open)?;
    }
    Some(())
}

/// Transactions of many managers, whose messages N workers deliver.
fn deliver_all<N: Seats + Send + Sync, R: Threads + Wait + Sync>(
    rt: &R,
    alloc: Global,
    tree: Tree,
    opened: Opened,
    workers: usize,
) -> Option<bool>
    requires workers { (0 < workers) × (workers ≤ 16) }
    requires seats { SeatsTree N.table N.tree tree opened.ties.shared.table_id opened.ties.shared.key.items }
    requires callers { workers ≡ N.callers }
{
    let Ok((cluster, mut passes)) = Cluster::<N>::new(alloc, tree, opened, workers) else {
        return None;
    };
    let committed = commit_all(rt, &cluster, passes.as_mut_slice());
    let (journal, _) = close(cluster, passes.as_mut_slice())?;
    let counts = times_delivered(alloc, &journal).ok()?;
    Some(committed.is_some() && counts.len() > 200 && are_ones(&counts))
}

/// Whether workers deliver each message, and none twice.
pub fn each_message_once<R: Threads + Wait + Sync>(
    rt: &R,
    alloc: Global,
    workers: usize,
) -> Option<bool>
    requires { (0 < workers) × (workers ≤ 16) }
{
    let tree = tree(alloc, MANAGERS)?;
    let opened = seats(alloc, &tree).ok()?;
    deliver_all::<Brand, R>(rt, alloc, tree, opened, workers)
}
