//! The engine of `rstar run`.

ghost use Rattle.std.specs.Prelude.{◌≡◌, ◌⊎◌, ◌<◌, ◌≤◌, ℕ, List, IfErr, IfOk};
ghost use Rattle.std.specs.Io.KnownBytes.{Appends, Keeps};
ghost use Rattle.report_io.specs.declared.status.Status.{Status as AnyStatus};
ghost use Rattle.report_io.specs.Streams.{IsInput, IsOfRun, WritesFront};
ghost use Rattle.protocol.specs.Trees.{IsTree};
ghost use Rattle.cluster_tree.specs.Opening.{SeatsTree};
ghost use Rattle.tree_engine.specs.Failures.{IsStop};
ghost use Rattle.cluster_engine.specs.Reports.{CannotReport, CannotWrite, IsClusterReport, WritesReport};

use crate::ending::{closed_text, let_go, refused_line};
use crate::player::play;
use cluster_process::Gate;
use cluster_ties::seats::{Opened, Seats};
use cluster_tree::{Cluster, seats};
use protocol::{Event, Tree};
use report_io::{Failure, Status, read_all, write_all};
use std::alloc::Global;
use std::io::{Read, Write};
use std::marker::Brand;
use std::sync::Wait;
use std::thread::Threads;
use tree_engine::refusal;
use tree_process::copied_tree;
use tree_script::{ScriptError, read};

/// What is written of a run.
#[derive(Clone, Copy, PartialEq, Eq)]
pub enum ClusterOutput {
    /// What the application was told, by transaction.
    Told,
    /// The journal as a trace.
    Trace,
}

/// Reads a tree script, posts its events to processes that run at the same time, and writes what the
/// application was told, in order of boot and sequence; then whether a tree on one thread that makes the
/// events of the journal leaves the same logs. Or it writes the journal, as a trace. A settle delivers
/// every message by N workers. A refused event is the only line; so is one that says why the script
/// is refused.
///
/// What is told is that of a journal which is a run of the script's tree in the model, of which the headline
/// holds, and in which mismatches are reported; it has the script's events in order, each under one caller's
/// number, and besides deliveries alone. An event is refused as its process stood, once those before it were
/// made. After a failed read, or where memory is refused, a device fails or numbers are used up, nothing was
/// written; after a failed write, a beginning of the text. The call may wait.
pub fn run_cluster<R: Threads + Wait + Sync, G: Gate + Sync, I: Read, W: Write>(
    rt: &R,
    alloc: Global,
    output: ClusterOutput,
    workers: usize,
    gate: &G,
    reader: &mut I,
    writer: &mut W,
) -> Result<Status, Failure>
    requires { (0 < workers) × (workers ≤ 16) }
    ensures written { IfOk result (λ status. (input : List ℕ) × (text : List ℕ)
        × IsInput (I.remaining reader.old) input × IsClusterReport output status input text
        × Appends (W.contents writer.old) (W.contents writer.new) text) }
    ensures cut { IfErr result (λ e. e ≡ Failure.Write → (input : List ℕ)
        × (text : List ℕ) × (status : AnyStatus)
        × IsInput (I.remaining reader.old) input × IsClusterReport output status input text
        × WritesFront (W.contents writer.old) (W.contents writer.new) text) }
    ensures unread { IfErr result (λ e. e ≡ Failure.Read
        → Keeps (W.contents writer.old) (W.contents writer.new)) }
    ensures unmade { IfErr result (λ e. IsOfRun e
        → Keeps (W.contents writer.old) (W.contents writer.new)) }
    ensures stopped { IfErr result (λ e. IsStop e → (input : List ℕ)
        × IsInput (I.remaining reader.old) input × CannotReport input e) }
{
    let input = read_all(alloc, reader)?;
    let (text, status) = report(rt, alloc, output, workers, gate, &input)?;
    match write_all(writer, &text) {
        Ok(()) => Ok(status),
        Err(failure) => Err(failure),
    }
}

/// The answer to an input.
fn report<R: Threads + Wait + Sync, G: Gate + Sync>(
    rt: &R,
    alloc: Global,
    output: ClusterOutput,
    workers: usize,
    gate: &G,
    input: &[u8],
) -> Result<(Vec<u8>, Status), Failure>
    requires { (0 < workers) × (workers ≤ 16) }
    ensures report { IfOk result (λ r. IsClusterReport output r.1 input.now r.0.items) }
    ensures err { IfErr result (λ e. (e ≡ Failure.Memory) ⊎ CannotReport input.now e) }
    ensures why { IfErr result IsOfRun }
{
    match read(alloc, input) {
        Ok((tree, events)) => run_script(rt, alloc, output, workers, gate, tree, &events),
        Err(ScriptError::Fault(fault)) => Ok((refusal(alloc, fault)?, Status::Refused)),
        Err(ScriptError::Memory) => Err(Failure::Memory),
    }
}

/// Opens a table of seats for the tree, and runs the events over it.
fn run_script<R: Threads + Wait + Sync, G: Gate + Sync>(
    rt: &R,
    alloc: Global,
    output: ClusterOutput,
    workers: usize,
    gate: &G,
    tree: Tree,
    events: &[Event],
) -> Result<(Vec<u8>, Status), Failure>
    requires workers { (0 < workers) × (workers ≤ 16) }
    requires tree { IsTree tree }
    ensures text { IfOk result (λ r. WritesReport output r.1 tree events.now r.0.items) }
    ensures err { IfErr result (λ e. (e ≡ Failure.Memory) ⊎ CannotWrite tree events.now e) }
    ensures why { IfErr result IsOfRun }
{
    let opened = seats(alloc, &tree)?;
    run_seated::<Brand, R, G>(rt, alloc, output, workers, gate, tree, opened, events)
}

/// Runs these events on the tree, whose processes have seats at this table.
fn run_seated<N: Seats + Send + Sync, R: Threads + Wait + Sync, G: Gate + Sync>(
    rt: &R,
    alloc: Global,
    output: ClusterOutput,
    workers: usize,
    gate: &G,
    tree: Tree,
    opened: Opened,
    events: &[Event],
) -> Result<(Vec<u8>, Status), Failure>
    requires workers { (0 < workers) × (workers ≤ 16) }
    requires seats { SeatsTree N.table N.tree tree opened.ties.shared.table_id opened.ties.shared.key.items }
    requires callers { workers ≡ N.callers }
    ensures text { IfOk result (λ r. WritesReport output r.1 tree events.now r.0.items) }
    ensures err { IfErr result (λ e. (e ≡ Failure.Memory) ⊎ CannotWrite tree events.now e) }
    ensures why { IfErr result IsOfRun }
{
    let copy = copied_tree(alloc, tree.entries())?;
    let Ok((cluster, mut passes)) = Cluster::<N>::new(alloc, copy, opened, workers) else {
        return Err(Failure::Memory);
    };
    let passes = passes.as_mut_slice();
    match play(rt, alloc, &cluster, events, gate, passes) {
        None => closed_text(alloc, output, cluster, passes, tree),
        Some((made, why)) => {
            let_go(cluster);
            refused_line(alloc, made, why)
        }
    }
}
