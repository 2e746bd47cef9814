//! The command `rstar run`.

ghost use Rattle.std.specs.Prelude.{◌<◌, ◌≤◌};

use crate::{explaining, flag, source};
use clap::{Arg, ArgMatches, Command, value_parser};
use cluster_engine::{ClusterOutput, run_cluster};
use cluster_process::Open;
use report_io::{Failure, Status};
use std::alloc::{AllocError, Global};
use std::io::{Read, Write};
use std::sync::Wait;
use std::thread::Threads;

/// What is written of a run, and by how many workers it is made.
#[derive(Clone, Copy, PartialEq, Eq)]
pub(crate) struct RunWords {
    output: ClusterOutput,
    workers: u8,
}

/// What `rstar run --help` says below its usage.
const HELP: &str = "\
Where it refuses, --explain tells on standard error what is wrong, and what is wanted there.

In: a tree script, as 'rstar tree' reads it. Each process of the tree lies under a lock of its own,
and so does the journal. The events are posted in order by one thread; at a settle it and the
other workers deliver every message, each as soon as its process is free. Out: the line 'told TXN
committed|aborted|readonly' of each transaction of which the application was told, in order of
boot and sequence; then 'replay same': a tree on one thread that makes the events of the journal
leaves the same logs. 'refused N E' alone where event N is refused, 'error ..' where the script is
(docs/ERRORS.md). With --trace, in place of that, the journal as a trace; its order may be
another at each run, since processes that told each other nothing have no order.

Examples: rstar run < examples/commit.tree
          rstar run --workers 16 < examples/presumed_commit.tree
          rstar run --trace < examples/commit.tree";

/// The option `--workers`.
fn workers<'a>(alloc: Global) -> Arg<'a> {
    Arg::new(alloc, "workers")
        .long("workers")
        .value_name("N")
        .help("How many threads deliver messages at a settle")
        .value_parser(value_parser!(u8).range(1..=16))
        .default_value("4")
}

/// Its words.
pub(crate) fn words<'a>(alloc: Global) -> Result<Command<'a>, AllocError> {
    explaining(
        alloc,
        "run",
        "Runs a transaction script on processes that run at the same time, and writes what was told",
        HELP,
    )?
    .arg(workers(alloc))?
    .arg(flag(
        alloc,
        "trace",
        "Writes the journal as a trace, in place of what was told",
    ))?
    .arg(source::word(alloc))
}

/// What these words ask for. The number of workers has a default, and its range was checked.
pub(crate) fn asked(matches: &ArgMatches) -> RunWords {
    RunWords {
        output: if matches.get_flag("trace") {
            ClusterOutput::Trace
        } else {
            ClusterOutput::Told
        },
        workers: matches.get_one::<u8>("workers").unwrap_or(4),
    }
}

/// N workers, of 1 to 16.
fn count(workers: u8) -> usize
    ensures { (0 < result) × (result ≤ 16) }
{
    if workers == 0 || workers > 16 {
        4
    } else {
        usize::from(workers)
    }
}

/// Runs it.
pub(crate) fn start<T: Threads + Wait + Sync, R: Read, W: Write>(
    alloc: Global,
    threads: &T,
    run: RunWords,
    reader: &mut R,
    writer: &mut W,
) -> Result<Status, Failure> {
    run_cluster(
        threads,
        alloc,
        run.output,
        count(run.workers),
        &Open,
        reader,
        writer,
    )
}
