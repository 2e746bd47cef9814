//! A small tree, opened as a cluster.

ghost use Rattle.std.specs.Prelude.{IfSome};
ghost use Rattle.protocol.specs.Trees.{IsTree};

use cluster_process::{Gate, Open, Pass};
use cluster_ties::seats::Seats;
use cluster_tree::Cluster;
use cluster_turns::ClosedJournal;
use protocol::{Act, Case, Event, Kind, LogRecord, Presumption, ProcessId, Tree, TreeProcess};
use std::alloc::{AllocError, Global};
use std::sync::Wait;
use std::thread::Threads;

/// An entry of the tree.
fn entry(id: u32, kind: Kind, parent: Option<u32>) -> TreeProcess {
    TreeProcess {
        id: ProcessId(id),
        kind,
        parent: match parent {
            None => None,
            Some(parent) => Some(ProcessId(parent)),
        },
        info: None,
    }
}

/// The entries of a root with N managers, whose names begin at 2.
fn entries(alloc: Global, managers: u32) -> Result<Vec<TreeProcess>, AllocError> {
    let mut entries = Vec::new(alloc);
    entries.push(entry(1, Kind::Coordinator, None))?;
    for place in 0..managers {
        entries.push(entry(place.saturating_add(2), Kind::Manager, Some(1)))?;
    }
    Ok(entries)
}

/// Such a tree, where it passes its check.
pub fn tree(alloc: Global, managers: u32) -> Option<Tree>
    ensures { IfSome result (λ tree. IsTree tree) }
{
    let tree = Tree::from_vec(entries(alloc, managers).ok()?);
    match tree.check() {
        Ok(()) => Some(tree),
        Err(_) => None,
    }
}

/// Delivers all messages, by as many workers as there are passes. None if a delivery was refused, or
/// there are no passes, or more than 16.
pub fn deliver_by<N: Seats + Send + Sync, R: Threads + Wait + Sync, G: Gate + Sync>(
    rt: &R,
    cluster: &Cluster<N>,
    passes: &mut [Pass<N>],
    gate: &G,
) -> Option<()> {
    if passes.is_empty() || passes.len() > 16 {
        return None;
    }
    cluster.run_workers(rt, passes, gate).ok()
}

/// What a cluster leaves that is closed: its journal, and the log of each process.
pub type Left = (ClosedJournal, Vec<Vec<LogRecord>>);

/// Closes a cluster. None if memory is refused.
pub fn close<N: Seats>(cluster: Cluster<N>, passes: &mut [Pass<N>]) -> Option<Left> {
    match cluster.close(passes) {
        Ok(left) => Some(left),
        Err((cluster, _)) => {
            let_go(cluster);
            None
        }
    }
}

/// How many entries a journal has.
pub fn length(journal: &ClosedJournal) -> usize {
    let mut length: usize = 0;
    for turn in journal.turns() {
        length = length.saturating_add(turn.len());
    }
    length
}

/// Lets go of a cluster. One function does it: what letting go of one means is proved once.
fn let_go<N: Seats>(_cluster: Cluster<N>) {}

/// Begins a transaction, under Presumed Abort: the root's case of it.
pub fn begin<N: Seats, R: Wait>(rt: &R, cluster: &Cluster<N>, pass: &mut Pass<N>) -> Option<Case> {
    let begin = Event::Act(Act::Begin(Presumption::PresumeAbort));
    let (_, begun) = cluster.post(rt, begin, pass, &Open).ok()?;
    Some(Case {
        txn: begun?,
        ticket: None,
    })
}
