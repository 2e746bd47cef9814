//! What a command reads: the file that its words name, or standard input; and what it says to a person at a
//! terminal.

use crate::tell;
use clap::{Arg, ArgAction, ArgMatches};
use std::alloc::Global;
use std::io::IsTerminal;
use std::{fs, io};

/// Where a script stands.
#[derive(Clone, Copy)]
pub(crate) enum Source<'a> {
    /// On standard input.
    Standard,
    /// In the file with this name.
    File(&'a str),
}

/// The word of a command that names the file to be read.
pub(crate) fn word<'a>(alloc: Global) -> Arg<'a> {
    Arg::new(alloc, "FILE")
        .help("The file of the script; standard input, if none is named")
        .action(ArgAction::Set)
}

/// What these words name.
pub(crate) fn source_of<'a>(matches: &ArgMatches<'a>) -> Source<'a> {
    match matches.get_str("FILE") {
        Some(path) => Source::File(path),
        None => Source::Standard,
    }
}

/// The bytes of a file. Where it cannot be read, standard error tells why.
pub(crate) fn bytes_in(rt: &HostRuntime, path: &str) -> Option<Vec<u8>> {
    match fs::read(rt, path) {
        Ok(bytes) => Some(bytes),
        Err(error) => {
            tell(rt, told_of(rt, path, error).ok());
            None
        }
    }
}

/// Why a file cannot be read.
fn told_of(
    rt: &HostRuntime,
    path: &str,
    error: io::Error,
) -> Result<String, std::alloc::AllocError> {
    let alloc = rt.alloc();
    format!(in alloc; "rstar: {path}: {error}\n")
}

/// Says at a terminal what is waited for.
pub(crate) fn tell_waiting(rt: &HostRuntime) {
    if rt.reader().is_terminal() && rt.stderr().is_terminal() {
        tell_line(rt, "rstar: reading standard input; Ctrl-D ends it\n");
    }
}

/// Says at a terminal how to learn why an input was refused.
pub(crate) fn tell_refused(rt: &HostRuntime) {
    if rt.stderr().is_terminal() {
        tell_line(rt, "rstar: --explain tells why\n");
    }
}

/// Writes a line to standard error, as far as it takes it.
fn tell_line(rt: &HostRuntime, line: &str) {
    let _ = report_io::write_all(&mut rt.stderr(), line.as_bytes());
}
