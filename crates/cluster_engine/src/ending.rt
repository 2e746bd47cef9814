//! What is written of a run that has ended.

ghost use Rattle.std.specs.Prelude.{◌≡◌, ◌⊎◌, ◌+◌, ◌<◌, ◌^◌, IfErr, IfOk, Some};
ghost use Rattle.report_io.specs.declared.status.Status.TheVariants as ends;
ghost use Rattle.report_io.specs.Streams.{IsOfRun};
ghost use Rattle.cluster_engine.specs.Reports.{ClosesUnnumbered, IsPostFailure, IsUnnumbered, RefusesBehind, Tells, TellsClosed, TellsJournal, refusal_number, same_line};

use crate::engine::ClusterOutput;
use crate::told::push_told;
use crate::trace::push_trace;
use cluster_process::{Pass, PostError};
use cluster_ties::seats::Seats;
use cluster_tree::Cluster;
use cluster_turns::ClosedJournal;
use protocol::{LogRecord, StepError, Tree, TreeProcess};
use report_io::{Failure, Status};
use std::alloc::{AllocError, Global};
use tree_engine::{own_refusal, push_refused};

/// The number of a refusal as it is printed: a step's own; 9 for what the journal has not; 10 where it is
/// full.
fn refusal_number(why: PostError) -> Result<u8, Failure>
    ensures number { IfOk result (λ number. refusal_number why ≡ Some number) }
    ensures err { IfErr result (IsPostFailure why) }
    ensures why { IfErr result IsOfRun }
{
    match why {
        PostError::Stranger => Ok(StepError::NoSuch.number()),
        PostError::JournalFull => Ok(10),
        PostError::Step(error) => Ok(own_refusal(error)?.number()),
        PostError::Memory => Err(Failure::Memory),
    }
}

/// The line of an event that was refused after N that were made.
pub(crate) fn refused_line(
    alloc: Global,
    made: usize,
    why: PostError,
) -> Result<(Vec<u8>, Status), Failure>
    requires { made + 1 < 2 ^ 64 }
    ensures line { IfOk result (λ r. RefusesBehind made why r.0.items) }
    ensures status { IfOk result (λ r. r.1 ≡ ends.Stopped) }
    ensures err { IfErr result (λ e. (e ≡ Failure.Memory) ⊎ IsPostFailure why e) }
    ensures why { IfErr result IsOfRun }
{
    let number = refusal_number(why)?;
    let mut out = Vec::new(alloc);
    push_refused(alloc, &mut out, made as u64 + 1, number)?;
    Ok((out, Status::Stopped))
}

/// Closes the cluster, and tells what its journal is.
pub(crate) fn closed_text<N: Seats>(
    alloc: Global,
    output: ClusterOutput,
    cluster: Cluster<N>,
    passes: &mut [Pass<N>],
    tree: Tree,
) -> Result<(Vec<u8>, Status), Failure>
    requires { tree ≡ N.tree }
    ensures text { IfOk result (λ r. TellsClosed output tree N.callers passes.old r.0.items) }
    ensures status { IfOk result (λ r. r.1 ≡ ends.Ended) }
    ensures err { IfErr result (λ e. (e ≡ Failure.Memory)
        ⊎ ((e ≡ Failure.Exhausted) × ClosesUnnumbered tree)) }
    ensures why { IfErr result IsOfRun }
{
    match cluster.close(passes) {
        Ok((journal, logs)) => {
            let told = journal_told(alloc, output, tree.entries(), &journal);
            discard(journal, logs);
            Ok((told?, Status::Ended))
        }
        Err((cluster, _)) => {
            let_go(cluster);
            Err(Failure::Memory)
        }
    }
}

/// Lets go of a cluster that was not closed.
pub(crate) fn let_go<N: Seats>(_cluster: Cluster<N>) {}

/// Lets go of a journal and of logs.
fn discard(_journal: ClosedJournal, _logs: Vec<Vec<LogRecord>>) {}

/// What a journal tells.
fn journal_told(
    alloc: Global,
    output: ClusterOutput,
    tree: &[TreeProcess],
    journal: &ClosedJournal,
) -> Result<Vec<u8>, Failure>
    ensures text { IfOk result (λ text. Tells output tree.now journal.now text.items) }
    ensures err { IfErr result (λ e. (e ≡ Failure.Memory)
        ⊎ ((e ≡ Failure.Exhausted) × IsUnnumbered journal.now)) }
    ensures why { IfErr result IsOfRun }
{
    match output {
        ClusterOutput::Trace => {
            let mut out = Vec::new(alloc);
            push_trace(alloc, &mut out, tree, journal)?;
            Ok(out)
        }
        ClusterOutput::Told => Ok(told_text(alloc, journal)?),
    }
}

/// The lines of what was told, and after them that a tree on one thread which makes the events of the journal
/// leaves the same logs. It is so of each cluster that closes (`Cluster::close`), so it is not tried.
fn told_text(alloc: Global, journal: &ClosedJournal) -> Result<Vec<u8>, AllocError>
    ensures { IfOk result (λ text. TellsJournal journal.now same_line text.items) }
{
    let mut out = Vec::new(alloc);
    push_told(alloc, &mut out, journal)?;
    out.extend_from_slice(b"replay same\n")?;
    Ok(out)
}
