//! Two processes step at the same time.

ghost use Rattle.std.specs.Prelude.{◌≡◌, ◌<◌, ◌≤◌};
ghost use Rattle.cluster_tree.specs.Opening.{SeatsTree};

use crate::opening::{begin, close, deliver_by, tree};
use cluster_process::{Gate, Open, Pass};
use cluster_ties::seats::{Opened, Seats};
use cluster_tree::{Cluster, seats};
use protocol::{Act, Event, ProcessId, Tree};
use std::alloc::Global;
use std::marker::Brand;
use std::sync::Wait;
use std::sync::atomic::{AtomicBool, AtomicU64, Ordering};
use std::thread;
use std::thread::Threads;

/// How often a step that is held looks whether the other was made.
const TURNS: u32 = 10_000;

/// How often the other threads are let go on in a turn: enough that on a busy machine each of them runs, too.
const YIELDS: u32 = 300;

/// A turn of a thread that waits.
fn wait_a_turn() {
    for _ in 0..YIELDS {
        thread::yield_now();
    }
}

/// A gate that holds a step of process 2 until process 3 has stepped, and a step of process 3 until process 2
/// has.
#[derive(Drop)]
struct Meeting {
    first: AtomicBool,
    second: AtomicBool,
    met: AtomicU64,
}

impl Meeting {
    /// A process has stepped, and waits for the other.
    fn meet(&self, mine: &AtomicBool, other: &AtomicBool) {
        mine.store(true, Ordering::SeqCst);
        for _ in 0..TURNS {
            if other.load(Ordering::SeqCst) {
                self.met.fetch_add(1, Ordering::SeqCst);
                return;
            }
            wait_a_turn();
        }
    }
}

impl Gate for Meeting {
    fn before<R: Wait>(&self, _rt: &R, process: ProcessId) {
        if process.0 == 2 {
            self.meet(&self.first, &self.second);
        }
        if process.0 == 3 {
            self.meet(&self.second, &self.first);
        }
    }

    fn holds(&self) -> bool {
        true
    }
}

/// The root invites two managers, and workers deliver: the step of each is held until that of the other is
/// made.
fn deliver_two<N: Seats + Send + Sync, R: Threads + Wait + Sync>(
    rt: &R,
    cluster: &Cluster<N>,
    gate: &Meeting,
    passes: &mut [Pass<N>],
) -> Option<()> {
    let case = begin(rt, cluster, passes.first_mut()?)?;
    for child in [2, 3] {
        let join = Event::Act(Act::Join(case, ProcessId(child)));
        cluster.post(rt, join, passes.first_mut()?, &Open).ok()?;
    }
    deliver_by(rt, cluster, passes, gate)
}

/// Whether the two steps meet, by N workers.
fn meet<N: Seats + Send + Sync, R: Threads + Wait + Sync>(
    rt: &R,
    alloc: Global,
    tree: Tree,
    opened: Opened,
    workers: usize,
) -> Option<bool>
    requires workers { (0 < workers) × (workers ≤ 16) }
    requires seats { SeatsTree N.table N.tree tree opened.ties.shared.table_id opened.ties.shared.key.items }
    requires callers { workers ≡ N.callers }
{
    let Ok((cluster, mut passes)) = Cluster::<N>::new(alloc, tree, opened, workers) else {
        return None;
    };
    let gate = Meeting {
        first: AtomicBool::new(false),
        second: AtomicBool::new(false),
        met: AtomicU64::new(0),
    };
    let delivered = deliver_two(rt, &cluster, &gate, passes.as_mut_slice());
    let closed = close(cluster, passes.as_mut_slice());
    Some(delivered.is_some() && closed.is_some() && gate.met.load(Ordering::SeqCst) == 2)
}

/// Whether they meet.
pub fn two_steps_meet<R: Threads + Wait + Sync>(
    rt: &R,
    alloc: Global,
    workers: usize,
) -> Option<bool>
    requires { (0 < workers) × (workers ≤ 16) }
{
    let tree = tree(alloc, 2)?;
    let opened = seats(alloc, &tree).ok()?;
    meet::<Brand, R>(rt, alloc, tree, opened, workers)
}
