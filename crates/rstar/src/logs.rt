//! `rstar log --file` and `rstar audit --file`: the logs of a tree out of the files in which its processes
//! have them. Nothing is locked and nothing is written, so the processes may be running.

use crate::files::{End, entry_of, no_memory, not_opened, refused, tree_in};
use clap::{Arg, ArgAction, ArgMatches};
use log_file::read;
use log_script::{ProcessLog, logs_text};
use protocol::{ProcessId, Sequence, Tree};
use std::alloc::{AllocError, Global};

/// What help says of `--file`.
const HELP: &str = "Reads the logs in files: of the tree, and then each process and its log";

/// The option `--file`: the file of the tree, and then the number of each process and the file of its log.
pub(crate) fn file<'a>(alloc: Global) -> Arg<'a> {
    Arg::new(alloc, "file")
        .long("file")
        .value_names(&["TREE", "P LOG"])
        .num_args(3..)
        .help(HELP)
        .action(ArgAction::Set)
}

/// The words after `--file`, if it is there.
pub(crate) fn words_of<'a>(
    alloc: Global,
    matches: &ArgMatches<'a>,
) -> Result<Option<Vec<&'a str>>, AllocError> {
    match matches.get_strs("file") {
        None => Ok(None),
        Some(words) => Ok(Some(Vec::from_slice(alloc, words)?)),
    }
}

/// Whether one of these logs is the process's.
fn is_listed(logs: &[ProcessLog], process: ProcessId) -> bool {
    logs.iter().any(|log| log.process == process)
}

/// The log of a process of the tree, which these logs do not have yet.
fn log_of(
    rt: &HostRuntime,
    tree: &Tree,
    logs: &[ProcessLog],
    me: &str,
    path: &str,
) -> Result<ProcessLog, End> {
    let alloc = rt.alloc();
    let entry = entry_of(alloc, tree, me)?;
    if is_listed(logs, entry.id) {
        return Err(refused(format!(in alloc; "process {me} is given twice")));
    }
    match read(rt, alloc, path) {
        Ok(bytes) => Ok(ProcessLog {
            process: entry.id,
            bytes: Sequence::from_vec(bytes),
        }),
        Err(error) => Err(not_opened(alloc, path, error)),
    }
}

/// The logs of these words, a process and a file in turn: one of each process of the tree.
fn logs_of(rt: &HostRuntime, tree: &Tree, words: &[&str]) -> Result<Vec<ProcessLog>, End> {
    let alloc = rt.alloc();
    let mut logs = Vec::new(alloc);
    let mut process = None;
    for word in words {
        process = match process {
            None => Some(*word),
            Some(me) => {
                let log = log_of(rt, tree, &logs, me, word)?;
                if logs.push(log).is_err() {
                    return Err(no_memory(alloc, word));
                }
                None
            }
        };
    }
    if let Some(me) = process {
        return Err(refused(format!(in alloc; "process {me} is given without a log")));
    }
    Ok(logs)
}

/// Refuses logs of which one of a process of the tree is missing.
fn all_given(alloc: Global, tree: &Tree, logs: &[ProcessLog]) -> Result<(), End> {
    for entry in tree.entries() {
        if !is_listed(logs, entry.id) {
            let ProcessId(number) = entry.id;
            return Err(refused(format!(in alloc; "process {number} is given no log")));
        }
    }
    Ok(())
}

/// The text of a tree and logs of it.
fn text_of(alloc: Global, path: &str, tree: &Tree, logs: &[ProcessLog]) -> Result<Vec<u8>, End> {
    match logs_text(alloc, tree.entries(), logs) {
        Ok(text) => Ok(text),
        Err(_) => Err(no_memory(alloc, path)),
    }
}

/// The file of the tree among these words, and the rest of them.
fn cut_tree<'a, 'b>(alloc: Global, words: &'b [&'a str]) -> Result<(&'a str, &'b [&'a str]), End> {
    match words.split_first() {
        Some((path, rest)) => Ok((path, rest)),
        None => Err(refused(format!(in alloc; "no tree is given"))),
    }
}

/// The text of the tree and the logs of these words, as `rstar tree --logs` writes it and `rstar log` reads
/// it.
pub(crate) fn input_of(rt: &HostRuntime, words: &[&str]) -> Result<Vec<u8>, End> {
    let alloc = rt.alloc();
    let (path, rest) = cut_tree(alloc, words)?;
    let tree = tree_in(rt, path)?;
    let logs = logs_of(rt, &tree, rest)?;
    all_given(alloc, &tree, &logs)?;
    text_of(alloc, path, &tree, &logs)
}

/// The text of the tree and the logs of these words, of which those of some processes may be missing.
pub(crate) fn some_input_of(rt: &HostRuntime, words: &[&str]) -> Result<Vec<u8>, End> {
    let alloc = rt.alloc();
    let (path, rest) = cut_tree(alloc, words)?;
    let tree = tree_in(rt, path)?;
    let logs = logs_of(rt, &tree, rest)?;
    text_of(alloc, path, &tree, &logs)
}
