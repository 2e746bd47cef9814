//! `rstar migrate`: the logs of a tree, or the log of one process in a file, by the second format.

use crate::explaining;
use crate::files::{
    End, entry_of, failed, log_in, no_memory, not_opened, not_own, status_of, tree_in,
};
use clap::{Arg, ArgAction, ArgMatches, Command};
use log_records::{MigrateError, RecLog};
use log_store::{LogStore, MemoryStore};
use protocol::{Tree, TreeProcess};
use std::alloc::{AllocError, Global};

/// The words after `rstar migrate --file`: the file of the log, the file of the tree, and the process.
#[derive(Clone, Copy)]
pub struct FileWords<'a> {
    log: &'a str,
    tree: &'a str,
    me: &'a str,
}

/// What `rstar migrate --help` says below its usage.
const HELP: &str = "\
Where it refuses, --explain tells on standard error what is wrong, and what is wanted there.

In: as 'rstar log' reads it, and 'rstar tree --logs' writes it. Out: the same tree, and each log in
the second format, in the order of the tree: the same records, without a torn tail; an empty log as
its header alone. What is migrated is not changed by a second migration. 'damaged P PLACE' alone
where a log is damaged, 'error ..' where the input is refused.

With --file nothing is read or written but files: LOG is the log of process ME of the tree in the
file TREE, as 'rstar node TREE ME LOG' has it. It is migrated in place, by one replace: where that
is cut short, LOG holds the old log or the new one. A log of the second format without a torn tail is
not written at all.

Examples: rstar migrate < examples/commit.logs
          rstar migrate --file 1.log tree.toml 1";

/// A word after `--file`, and what help says of it.
fn word<'a>(alloc: Global, name: &'a str, help: &'a str) -> Result<Arg<'a>, AllocError> {
    Arg::new(alloc, name)
        .help(help)
        .action(ArgAction::Set)
        .requires_arg("file")
}

/// The option `--file`, which wants the tree and the process after it.
fn file<'a>(alloc: Global) -> Result<Arg<'a>, AllocError> {
    Arg::new(alloc, "file")
        .long("file")
        .value_name("LOG")
        .help("Migrates the log of one process in a file, in place")
        .action(ArgAction::Set)
        .requires_arg("TREE")?
        .requires_arg("ME")
}

/// Its words.
pub(crate) fn words<'a>(alloc: Global) -> Result<Command<'a>, AllocError> {
    explaining(
        alloc,
        "migrate",
        "Writes the logs of a tree in the second format, with the same records",
        HELP,
    )?
    .arg(file(alloc)?)?
    .arg(word(alloc, "TREE", "The file of the processes")?)?
    .arg(word(alloc, "ME", "The number of the process")?)
}

/// The words after `--file`, if it is there.
pub(crate) fn file_of<'a>(matches: &ArgMatches<'a>) -> Option<FileWords<'a>> {
    Some(FileWords {
        log: matches.get_str("file")?,
        tree: matches.get_str("TREE")?,
        me: matches.get_str("ME")?,
    })
}

/// Why the log at this path was not migrated, which has these bytes.
fn not_migrated(
    alloc: Global,
    path: &str,
    tree: &Tree,
    me: &TreeProcess,
    bytes: &[u8],
    error: MigrateError,
) -> End {
    match error {
        MigrateError::Memory => no_memory(alloc, path),
        MigrateError::Device => failed(format!(in alloc; "{path}: {error}")),
        MigrateError::Damaged(place) => not_own(alloc, path, tree, me, bytes, place),
    }
}

/// The bytes in a store; None, if they are these.
fn changed(
    alloc: Global,
    path: &str,
    store: &MemoryStore,
    bytes: &[u8],
) -> Result<Option<Vec<u8>>, End> {
    if store.bytes() == bytes {
        return Ok(None);
    }
    match Vec::from_slice(alloc, store.bytes()) {
        Ok(new) => Ok(Some(new)),
        Err(_) => Err(no_memory(alloc, path)),
    }
}

/// These bytes of a process's log, migrated in memory. None: nothing changes.
fn migrated(
    alloc: Global,
    path: &str,
    tree: &Tree,
    me: &TreeProcess,
    bytes: &[u8],
) -> Result<Option<Vec<u8>>, End> {
    let Ok(copy) = Vec::from_slice(alloc, bytes) else {
        return Err(no_memory(alloc, path));
    };
    match RecLog::migrate(alloc, MemoryStore::from_bytes(copy), me.id, me.kind) {
        Ok(store) => changed(alloc, path, &store, bytes),
        Err((error, _store)) => Err(not_migrated(alloc, path, tree, me, bytes, error)),
    }
}

/// Migrates the log of a process in a file. It is written only if that changes it.
fn migrate(rt: &HostRuntime, words: FileWords<'_>) -> Result<(), End> {
    let alloc = rt.alloc();
    let tree = tree_in(rt, words.tree)?;
    let entry = entry_of(alloc, &tree, words.me)?;
    let seen = log_in(rt, words.log, false)?;
    let Some(new) = migrated(alloc, words.log, &tree, entry, seen.bytes())? else {
        return Ok(());
    };
    match seen.settle_as(new) {
        Ok(_store) => Ok(()),
        Err(error) => Err(not_opened(alloc, words.log, error)),
    }
}

/// Migrates the log of a process in a file, and answers the exit status. Why it did not stands on standard
/// error.
pub fn run(rt: &HostRuntime, words: FileWords<'_>) -> u8 {
    status_of(rt, "migrate", migrate(rt, words))
}
