//! `rstar expand`, and `--expand` of the commands that run a tree script.

use crate::source::{self, Source, bytes_in, tell_waiting};
use crate::{explaining, tell};
use clap::{Arg, ArgAction, ArgMatches, Command};
use expand_engine::{ExpandFault, expand};
use explain_events::failure_text;
use log_script::{damaged, refusal};
use protocol::ProcessId;
use report_io::{Failure, read_all, write_all};
use std::alloc::{AllocError, Global};
use std::io;
use std::io::{IsTerminal, Read};
use tree_script::ScriptFault;

/// Of which words a script is.
#[derive(Clone, Copy, PartialEq, Eq)]
pub(crate) enum Vocabulary {
    /// Those of the grammar of scripts.
    Specified,
    /// Those that name messages, too.
    Named,
}

/// What `rstar expand --help` says below its usage.
const EXPAND_HELP: &str = "\
In: a tree script, as 'rstar tree --help' has it, with more words:
  deliver KIND P, deliver F->T         the oldest message of this kind to process P, or from F to T,
                                       that waits; KIND as the trace has it: PREPARE, YES ..
  drop N, drop KIND P, drop F->T       this message is never delivered by a settle
  settle until N (KIND P, F->T)        the messages that wait before this one, which is next then
  repeat                               the message that was delivered last, once more
Blanks at the ends of a line, several blanks between words, and comments after ' #' are left out.

Out: the script of the specified events that it comes to, by running it: messages by their numbers, and
after a drop each settle as the deliveries that it makes. After an event that is refused nothing more is
written. 'error ..' if a line asks for nothing, or for a message that does not wait (--explain tells
which), 'damaged P PLACE' if a log that it begins with is. 'tree --expand' and 'crash --expand' run such a
script at once.

Example: rstar expand < examples/names.words";

/// The words of `rstar expand`.
pub(crate) fn words<'a>(alloc: Global) -> Result<Command<'a>, AllocError> {
    explaining(
        alloc,
        "expand",
        "Writes a script that names messages by what they are as one that names them by number",
        EXPAND_HELP,
    )?
    .arg(source::word(alloc))
}

/// The flag `--expand` of a command that runs a tree script.
pub(crate) fn flag<'a>(alloc: Global) -> Arg<'a> {
    Arg::new(alloc, "expand")
        .long("expand")
        .help("Takes the words of 'rstar expand', too")
        .action(ArgAction::SetTrue)
}

/// Of which words the script is that is read.
pub(crate) fn asked(matches: &ArgMatches) -> Vocabulary {
    if matches.get_flag("expand") {
        Vocabulary::Named
    } else {
        Vocabulary::Specified
    }
}

/// The line of a script that cannot be expanded.
fn line_of(alloc: Global, fault: ExpandFault) -> Result<Vec<u8>, AllocError> {
    match fault {
        ExpandFault::Script(fault) => refusal(alloc, fault),
        ExpandFault::NoMessage(number) => refusal(alloc, ScriptFault::Line(number)),
        ExpandFault::Damaged(process, place) => damaged(alloc, ProcessId(process), place),
    }
}

/// Writes the line of a script that cannot be expanded, and on standard error why, if it is to be told or
/// that is a terminal; answers the exit status.
fn refused(rt: &HostRuntime, is_told: bool, fault: ExpandFault) -> u8 {
    let Ok(line) = line_of(rt.alloc(), fault) else {
        return 4;
    };
    if write_all(&mut io::writer(rt), &line).is_err() {
        return 4;
    }
    if is_told || rt.stderr().is_terminal() {
        tell(rt, why(rt.alloc(), fault).ok());
    }
    1
}

/// Why a script cannot be expanded, as a line.
fn why(alloc: Global, fault: ExpandFault) -> Result<String, AllocError> {
    format!(in alloc; "rstar: {fault}\n")
}

/// What a script read from here comes to.
fn script_of<R: Read>(
    alloc: Global,
    reader: &mut R,
) -> Result<Result<Vec<u8>, ExpandFault>, Failure> {
    let input = read_all(alloc, reader)?;
    expand(alloc, &input)
}

/// The script of specified events to which one read from here comes; or the exit status, if there is none:
/// then all is told.
pub(crate) fn expanded<R: Read>(
    rt: &HostRuntime,
    is_told: bool,
    reader: &mut R,
) -> Result<Vec<u8>, u8> {
    match script_of(rt.alloc(), reader) {
        Ok(Ok(text)) => Ok(text),
        Ok(Err(fault)) => Err(refused(rt, is_told, fault)),
        Err(failure) => {
            if is_told {
                tell(rt, failure_text(rt.alloc(), failure).ok());
            }
            Err(4)
        }
    }
}

/// Writes what a script read from here comes to, and answers the exit status.
fn write_expanded<R: Read>(rt: &HostRuntime, is_told: bool, reader: &mut R) -> u8 {
    match expanded(rt, is_told, reader) {
        Ok(text) => match write_all(&mut io::writer(rt), &text) {
            Ok(()) => 0,
            Err(_) => 4,
        },
        Err(status) => status,
    }
}

/// Runs `rstar expand`, and answers the exit status.
pub(crate) fn run(rt: &HostRuntime, is_told: bool, source: Source<'_>) -> u8 {
    match source {
        Source::Standard => {
            tell_waiting(rt);
            write_expanded(rt, is_told, &mut rt.reader())
        }
        Source::File(path) => match bytes_in(rt, path) {
            Some(bytes) => write_expanded(rt, is_told, &mut bytes.as_slice()),
            None => 4,
        },
    }
}
