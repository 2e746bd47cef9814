//! The events of a script, made by one caller; the others deliver.

ghost use Rattle.std.specs.Prelude.{◌≡◌, ◌<◌, ℕ, IfErr, IfSome, OnOk, length, slice_index_or};
ghost use Rattle.cluster_process.specs.Passes.{PassState};
ghost use Rattle.cluster_tree.specs.Passes.{IsLonger};
ghost use Rattle.cluster_tree.specs.Refusals.{IsRefusedPost};
ghost use Rattle.cluster_engine.specs.Made.{AreLonger, AreMade, FirstMade, FirstStops, IsMade, IsPosted, NotMade, StopsAt};

use cluster_process::{Gate, Pass, PostError};
use cluster_ties::seats::Seats;
use cluster_tree::{Cluster, Rounds};
use protocol::Event;
use std::alloc::Global;
use std::sync::Wait;
use std::thread;
use std::thread::Threads;

/// How many events were made, and why the next was refused; or none was.
pub(crate) type PostRefusal = Option<(usize, PostError)>;

/// Posts an event.
fn post<N: Seats, R: Wait, G: Gate>(
    rt: &R,
    alloc: Global,
    cluster: &Cluster<N>,
    event: &Event,
    gate: &G,
    pass: &mut Pass<N>,
) -> Result<(), PostError>
    ensures ok { OnOk result (IsPosted N.tree event.now pass.old pass.new) }
    ensures err { IfErr result (IsRefusedPost N.tree event.now pass.old) }
{
    let copy = event.copied(alloc)?;
    cluster.post(rt, copy, pass, gate)?;
    Ok(())
}

/// Makes an event: a settle is a round of all workers.
fn make<N: Seats, R: Wait, G: Gate>(
    rt: &R,
    alloc: Global,
    cluster: &Cluster<N>,
    rounds: &Rounds<N>,
    event: &Event,
    gate: &G,
    pass: &mut Pass<N>,
) -> Result<(), PostError>
    ensures ok { OnOk result (IsMade N.tree event.now pass.old pass.new) }
    ensures err { IfErr result (NotMade N.tree event.now pass.old) }
{
    match event {
        Event::Settle => cluster.settle(rt, rounds, pass, gate),
        _ => post(rt, alloc, cluster, event, gate, pass),
    }
}

/// Makes these events, in order, up to the first that is refused.
fn make_all<N: Seats, R: Wait, G: Gate>(
    rt: &R,
    alloc: Global,
    cluster: &Cluster<N>,
    rounds: &Rounds<N>,
    events: &[Event],
    gate: &G,
    pass: &mut Pass<N>,
) -> PostRefusal
    ensures made { result ≡ None → AreMade N.tree events.now pass.old pass.new }
    ensures stopped { IfSome result (λ r. StopsAt N.tree events.now pass.old r.0 r.1) }
    ensures within { IfSome result (λ r. r.0 < length events.now) }
{
    for (made, event) in events.iter().enumerate() {
        if let Err(why) = make(rt, alloc, cluster, rounds, event, gate, pass) {
            return Some((made, why));
        }
    }
    None
}

/// The call that leads a run: it makes the script's events, and lets the workers go.
fn lead<N: Seats, R: Wait, G: Gate>(
    rt: &R,
    alloc: Global,
    cluster: &Cluster<N>,
    rounds: &Rounds<N>,
    events: &[Event],
    gate: &G,
    pass: &mut Pass<N>,
) -> PostRefusal
    ensures made { result ≡ None → AreMade N.tree events.now pass.old pass.new }
    ensures stopped { IfSome result (λ r. StopsAt N.tree events.now pass.old r.0 r.1) }
    ensures within { IfSome result (λ r. r.0 < length events.now) }
{
    cluster.lead(rounds);
    let refusal = make_all(rt, alloc, cluster, rounds, events, gate, pass);
    cluster.dismiss(rt, rounds);
    refusal
}

/// A worker for each of these passes, of which there are some: they deliver messages, and do nothing else.
fn serve_each<N: Seats + Send + Sync, R: Threads + Wait + Sync, G: Gate + Sync>(
    rt: &R,
    cluster: &Cluster<N>,
    rounds: &Rounds<N>,
    gate: &G,
    passes: &mut [Pass<N>],
)
    requires { 0 < length passes.old }
    ensures longer { (i : ℕ) (d : PassState) → i < length passes.old
        → IsLonger (slice_index_or passes.old i d) (slice_index_or passes.new i d) }
    ensures long { length passes.new ≡ length passes.old }
{
    let threads = passes.len();
    thread::for_each_mut(
        rt,
        passes,
        threads,
        &|_place, pass: &mut Pass<N>|
            ensures { IsLonger pass.old pass.new }
        { cluster.serve(rt, rounds, pass, gate) },
    );
}

/// The workers of a run, if it has any.
fn serve<N: Seats + Send + Sync, R: Threads + Wait + Sync, G: Gate + Sync>(
    rt: &R,
    cluster: &Cluster<N>,
    rounds: &Rounds<N>,
    gate: &G,
    passes: &mut [Pass<N>],
)
    ensures { AreLonger passes.old passes.new }
{
    if passes.is_empty() {
        return;
    }
    serve_each(rt, cluster, rounds, gate, passes);
}

/// Makes these events with the first pass, while workers with the others deliver.
fn lead_and_serve<'a, N: Seats + Send + Sync, R: Threads + Wait + Sync, G: Gate + Sync>(
    rt: &'a R,
    alloc: Global,
    cluster: &'a Cluster<N>,
    rounds: &'a Rounds<N>,
    events: &'a [Event],
    gate: &'a G,
    first: &'a mut Pass<N>,
    others: &'a mut [Pass<N>],
) -> PostRefusal
    ensures made { result ≡ None → AreMade N.tree events.now first.old first.new }
    ensures stopped { IfSome result (λ r. StopsAt N.tree events.now first.old r.0 r.1) }
    ensures others { AreLonger others.old others.new }
    ensures within { IfSome result (λ r. r.0 < length events.now) }
{
    let (_, refusal) = thread::join_mut(
        rt,
        &mut || serve(rt, cluster, rounds, gate, others),
        &mut || lead(rt, alloc, cluster, rounds, events, gate, first),
    );
    refusal
}

/// Makes these events with the first pass; each other pass is a worker's, and where there is none no thread
/// is made.
fn play_first<N: Seats + Send + Sync, R: Threads + Wait + Sync, G: Gate + Sync>(
    rt: &R,
    alloc: Global,
    cluster: &Cluster<N>,
    rounds: &Rounds<N>,
    events: &[Event],
    gate: &G,
    first: &mut Pass<N>,
    others: &mut [Pass<N>],
) -> PostRefusal
    ensures made { result ≡ None → AreMade N.tree events.now first.old first.new }
    ensures stopped { IfSome result (λ r. StopsAt N.tree events.now first.old r.0 r.1) }
    ensures others { AreLonger others.old others.new }
    ensures within { IfSome result (λ r. r.0 < length events.now) }
{
    if others.is_empty() {
        lead(rt, alloc, cluster, rounds, events, gate, first)
    } else {
        lead_and_serve(rt, alloc, cluster, rounds, events, gate, first, others)
    }
}

/// Makes the script's events, by one caller; each other pass is a worker's. Threads are made once.
pub(crate) fn play<N: Seats + Send + Sync, R: Threads + Wait + Sync, G: Gate + Sync>(
    rt: &R,
    alloc: Global,
    cluster: &Cluster<N>,
    events: &[Event],
    gate: &G,
    passes: &mut [Pass<N>],
) -> PostRefusal
    requires { 0 < length passes.old }
    ensures made { result ≡ None → FirstMade N.tree events.now passes.old passes.new }
    ensures stopped { IfSome result (λ r. FirstStops N.tree events.now passes.old r.0 r.1) }
    ensures within { IfSome result (λ r. r.0 < length events.now) }
{
    let rounds = Rounds::<N>::new();
    let Some((first, others)) = passes.split_first_mut() else {
        unreachable!()
    };
    play_first(rt, alloc, cluster, &rounds, events, gate, first, others)
}
