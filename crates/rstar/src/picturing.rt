//! `rstar tree --picture`, of a whole run or of a part of it.

use crate::tell;
use clap::{Arg, ArgAction, ArgMatches};
use picture_parts::{PartFault, PicturePart, picture_of, range_of, whole_fault};
use protocol::ProcessId;
use report_io::{Failure, read_all, write_all};
use std::alloc::{AllocError, Global};
use std::io;
use std::io::Read;
use tree_engine::{TreeOutput, run_tree};
use tree_script::txn_of;

/// A word that names no part of a run.
#[derive(Clone, Copy)]
pub(crate) enum NoPart<'a> {
    /// No transaction.
    Case(&'a str),
    /// No two numbers of events, the second not below the first.
    Events(&'a str),
}

/// How the request for a picture ended.
#[derive(Clone, Copy)]
pub(crate) enum Drawn {
    /// With this exit status: it was drawn, or its script was refused.
    Ended(u8),
    /// It was not drawn, and standard error says why.
    Refused,
}

/// The option `--case` of `rstar tree`.
pub(crate) fn case<'a>(alloc: Global) -> Result<Arg<'a>, AllocError> {
    Arg::new(alloc, "case")
        .long("case")
        .value_name("TXN")
        .help("Draws the steps of one transaction; with --picture")
        .action(ArgAction::Set)
        .requires_arg("picture")?
        .conflicts_with("events")
}

/// The part of a run that these words name; none, if all of it is to be drawn.
pub(crate) fn part_of<'a>(matches: &ArgMatches<'a>) -> Result<Option<PicturePart>, NoPart<'a>> {
    if let Some(word) = matches.get_str("case") {
        // The root is the tree's, which is not read yet.
        return match txn_of(ProcessId(0), word) {
            Some(txn) => Ok(Some(PicturePart::Case(txn))),
            None => Err(NoPart::Case(word)),
        };
    }
    if !matches.contains_id("events") {
        return Ok(None);
    }
    let word = matches.get_str("events").unwrap_or("");
    match range_of(word) {
        Some(range) => Ok(Some(PicturePart::Events(range))),
        None => Err(NoPart::Events(word)),
    }
}

/// What is said of a word that names no part.
fn text_of(alloc: Global, word: NoPart<'_>) -> Result<String, AllocError> {
    match word {
        NoPart::Case(word) => {
            format!(in alloc; "rstar: --case takes a transaction, as a1.1: not `{word}`\n")
        }
        NoPart::Events(word) => {
            format!(in alloc;
                "rstar: --events takes two numbers, as 3-7, and only with --picture: not `{word}`\n"
            )
        }
    }
}

/// Says that a word names no part.
pub(crate) fn tell_no_part(rt: &HostRuntime, word: NoPart<'_>) {
    tell(rt, text_of(rt.alloc(), word).ok());
}

/// Why a picture is not drawn, as a line.
fn why(alloc: Global, fault: PartFault) -> Result<String, AllocError> {
    format!(in alloc; "rstar: {fault}\n")
}

/// Says why a picture is not drawn.
fn refused(rt: &HostRuntime, fault: PartFault) -> Drawn {
    tell(rt, why(rt.alloc(), fault).ok());
    Drawn::Refused
}

/// Draws the whole run of a script; of one that is refused its line is written.
fn perform_whole(rt: &HostRuntime, mut input: &[u8]) -> Result<Drawn, Failure> {
    let alloc = rt.alloc();
    let status = run_tree(alloc, TreeOutput::Picture, &mut input, &mut io::writer(rt))?;
    Ok(Drawn::Ended(status.number()))
}

/// Draws a part of the run of a script; of one that is refused its line is written.
fn perform_part(rt: &HostRuntime, input: &[u8], part: PicturePart) -> Result<Drawn, Failure> {
    match picture_of(rt.alloc(), input, &part)? {
        None => perform_whole(rt, input),
        Some(Ok((text, status))) => {
            write_all(&mut io::writer(rt), &text)?;
            Ok(Drawn::Ended(status.number()))
        }
        Some(Err(fault)) => Ok(refused(rt, fault)),
    }
}

/// Draws the run of a script, or a part of it, if that is small enough.
pub(crate) fn perform<R: Read>(
    rt: &HostRuntime,
    part: Option<PicturePart>,
    reader: &mut R,
) -> Result<Drawn, Failure> {
    let input = read_all(rt.alloc(), reader)?;
    if let Some(part) = part {
        return perform_part(rt, &input, part);
    }
    match whole_fault(rt.alloc(), &input)? {
        Some(fault) => Ok(refused(rt, fault)),
        None => perform_whole(rt, &input),
    }
}
