//! The command `rstar judge`.

ghost use Rattle.std.specs.Prelude.{◌≤◌, IfOk};

use crate::files::{End, failed, refused, status_of};
use crate::source::{self, Source, bytes_in, source_of, tell_waiting};
use crate::{flag, subcommand};
use clap::{Arg, ArgAction, ArgMatches, Command};
use judge_engine::{Extent, run_judge, run_plan};
use report_io::Failure;
use spellings::numeral::number_of;
use std::alloc::{AllocError, Global};
use std::io;
use std::io::Read;

/// What it is asked for.
#[derive(Clone, Copy)]
pub enum JudgeWords<'a> {
    /// The verdict on a transcript.
    Transcript(Extent, Source<'a>),
    /// A script of N calls, by this seed.
    Plan(&'a str, &'a str),
}

/// What `rstar judge --help` says below its usage.
const HELP: &str = "\
In: lines of what the manager promises and lacks, if it does, and then its calls, one a line, each with
its answer:
  never heuristics|failures|rollback ..
  lacks join|suspend|migrate|threads|scan|count|open|forced|isolation|emptybqual ..
  CALL -> ANSWER
CALL is a request of 'rstar xa' or 'disconnect T', ANSWER one of 'rstar xa', 'hung', or a refusal
without a code, as 'refused 22001'. Empty lines and lines that begin with # are skipped.

Out: 'conforms N calls' if a manager that keeps to XA may have answered so; else the first line that none
may have answered, how thread and branch stand there, what is admitted, and the rule; the status is 3.
With --all it goes on after a fault as if the answer had been admitted, and counts the faults by sort.
'error 3 N': line N asks for nothing; 'error 4': no UTF-8; 'error 5': more states are possible than
it goes through. docs/XA_MANAGERS.md has the rules, and what managers do.

With --plan SEED N a script of N calls for 'rstar xa' or a driver of another manager, which walks every
row of XA's tables, legal and illegal calls mixed; the same for the same SEED.

Examples: rstar judge < transcript
          rstar judge --plan 1 200 | rstar xa";

/// Its words.
pub(crate) fn words<'a>(alloc: Global) -> Result<Command<'a>, AllocError> {
    subcommand(
        alloc,
        "judge",
        "Judges the answers of an XA resource manager, call by call",
        HELP,
    )
    .arg(flag(
        alloc,
        "all",
        "Goes on after a fault, and counts the faults by sort",
    ))?
    .arg(
        Arg::new(alloc, "plan")
            .long("plan")
            .value_names(&["SEED", "N"])
            .num_args(2..=2)
            .help("Writes a script of N calls")
            .action(ArgAction::Set)
            .conflicts_with("all")?
            .conflicts_with("FILE")?,
    )?
    .arg(source::word(alloc))
}

/// What these words ask for.
pub(crate) fn asked<'a>(matches: &ArgMatches<'a>) -> JudgeWords<'a> {
    if let Some([seed, count]) = matches.get_strs("plan") {
        return JudgeWords::Plan(*seed, *count);
    }
    let extent = if matches.get_flag("all") {
        Extent::All
    } else {
        Extent::First
    };
    JudgeWords::Transcript(extent, source_of(matches))
}

/// Why it could not go on.
fn told(alloc: Global, failure: Failure) -> Result<String, AllocError> {
    format!(in alloc; "{failure}")
}

/// The number of a word, at most this.
fn number_in(alloc: Global, word: &str, most: u64) -> Result<u64, End>
    ensures { IfOk result (λ number. number ≤ most) }
{
    match number_of(word) {
        Some(number) if number <= most => Ok(number),
        _ => Err(refused(format!(in alloc; "{word} is not a number up to {most}"))),
    }
}

/// Writes a plan.
fn planned(rt: &HostRuntime, seed: &str, count: &str) -> Result<u8, End> {
    let alloc = rt.alloc();
    let seed = number_in(alloc, seed, u64::MAX)?;
    let count = number_in(alloc, count, 100_000)?;
    match run_plan(alloc, seed, count as u32, &mut io::writer(rt)) {
        Ok(()) => Ok(0),
        Err(failure) => Err(failed(told(alloc, failure))),
    }
}

/// Judges a transcript.
fn judged<R: Read>(rt: &HostRuntime, extent: Extent, reader: &mut R) -> Result<u8, End> {
    let alloc = rt.alloc();
    match run_judge(alloc, extent, reader, &mut io::writer(rt)) {
        Ok(ending) => Ok(ending.number()),
        Err(failure) => Err(failed(told(alloc, failure))),
    }
}

/// Judges the transcript that is to be read.
fn judged_in(rt: &HostRuntime, extent: Extent, source: Source<'_>) -> Result<u8, End> {
    match source {
        Source::Standard => {
            tell_waiting(rt);
            judged(rt, extent, &mut rt.reader())
        }
        Source::File(path) => match bytes_in(rt, path) {
            Some(bytes) => judged(rt, extent, &mut bytes.as_slice()),
            None => Ok(4),
        },
    }
}

/// Runs it: the exit status. Why it ended early stands on standard error.
pub(crate) fn run(rt: &HostRuntime, words: JudgeWords<'_>) -> u8 {
    let ended = match words {
        JudgeWords::Plan(seed, count) => planned(rt, seed, count),
        JudgeWords::Transcript(extent, source) => judged_in(rt, extent, source),
    };
    match ended {
        Ok(status) => status,
        Err(end) => status_of(rt, "judge", Err(end)),
    }
}
