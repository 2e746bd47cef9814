//! What a command over files begins with: the tree in a file, a process of it, and the file of that process's
//! log.

use crate::tell;
use coord_records::are_numbered;
use log_file::{FileOpenError, FileStore, HostFile, SeenLog, Trouble, look, look_new};
use log_records::RecLog;
use log_store::MemoryStore;
use node_engine::{Serving, StartError, start};
use protocol::{Tree, TreeProcess};
use std::alloc::{AllocError, Global};
use std::fs;
use tree_process::ProcessReopenError;
use tree_script::{Front, ScriptError, ScriptFault, process_of, read_front};

/// Why a command did not start, or ended early: the exit status, and a sentence, if there was memory for it.
#[derive(Drop)]
pub(crate) struct End {
    status: u8,
    told: Result<String, AllocError>,
}

/// An end for what the command was given.
pub(crate) fn refused(told: Result<String, AllocError>) -> End {
    End { status: 1, told }
}

/// An end for want of memory, since numbers are used up, or since reading, writing or the device failed.
pub(crate) fn failed(told: Result<String, AllocError>) -> End {
    End { status: 4, told }
}

/// The exit status of a command of this name. Why it ended early stands on standard error.
pub(crate) fn status_of(rt: &HostRuntime, name: &str, ended: Result<(), End>) -> u8 {
    match ended {
        Ok(()) => 0,
        Err(End { status, told }) => {
            let alloc = rt.alloc();
            if let Ok(told) = told {
                tell(rt, format!(in alloc; "rstar {name}: {told}\n").ok());
            }
            status
        }
    }
}

/// An end for want of memory.
pub(crate) fn no_memory(alloc: Global, path: &str) -> End {
    failed(format!(in alloc; "{path}: no memory"))
}

/// Why a file is no tree's.
fn no_tree(alloc: Global, path: &str, error: ScriptError) -> End {
    match error {
        ScriptError::Memory => no_memory(alloc, path),
        ScriptError::Fault(ScriptFault::Utf8) => {
            refused(format!(in alloc; "{path}: the tree text is not UTF-8"))
        }
        ScriptError::Fault(ScriptFault::Tree(cause)) => {
            refused(format!(in alloc; "{path}: the processes are not a tree: {cause}"))
        }
        ScriptError::Fault(_) => refused(format!(in alloc; "{path}: the tree text cannot be read")),
    }
}

/// The tree of a front that was read of a file's text and a line of three dashes after it; None, if the file
/// has such a line of its own.
fn tree_of(front: Front<'_>) -> Option<Tree> {
    if front.lines.iter().any(|line| *line == "---") {
        None
    } else {
        Some(front.tree)
    }
}

/// The tree in a file.
pub(crate) fn tree_in(rt: &HostRuntime, path: &str) -> Result<Tree, End> {
    let alloc = rt.alloc();
    let mut text = match fs::read(rt, path) {
        Ok(text) => text,
        Err(error) => return Err(failed(format!(in alloc; "{path}: {error}"))),
    };
    if text.extend_from_slice(b"\n---\n").is_err() {
        return Err(no_memory(alloc, path));
    }
    match read_front(alloc, &text) {
        Ok(front) => match tree_of(front) {
            Some(tree) => Ok(tree),
            None => Err(no_tree(alloc, path, ScriptError::Fault(ScriptFault::TreeText))),
        },
        Err(error) => Err(no_tree(alloc, path, error)),
    }
}

/// The process of this tree that a word names.
pub(crate) fn entry_of<'a>(
    alloc: Global,
    tree: &'a Tree,
    me: &str,
) -> Result<&'a TreeProcess, End> {
    let Some(number) = process_of(me) else {
        return Err(refused(format!(in alloc; "{me} is not the number of a process")));
    };
    match tree.entry(number) {
        Some(entry) => Ok(entry),
        None => Err(refused(format!(in alloc; "the tree has no process {me}"))),
    }
}

/// Why the log at this path was not opened.
pub(crate) fn not_opened(alloc: Global, path: &str, error: FileOpenError) -> End {
    let told = format!(in alloc; "{path}: {error}");
    match error {
        FileOpenError::Memory | FileOpenError::Io(_) => failed(told),
        FileOpenError::Busy
        | FileOpenError::Missing
        | FileOpenError::Exists
        | FileOpenError::Damaged
        | FileOpenError::NoFile
        | FileOpenError::Linked => refused(told),
    }
}

/// The log at this path, locked and read. Nothing is written yet, and nothing is left if it ends here.
pub(crate) fn log_in(rt: &HostRuntime, path: &str, is_new: bool) -> Result<SeenLog, End> {
    let alloc = rt.alloc();
    let seen = if is_new {
        look_new(rt, alloc, path)
    } else {
        look(rt, alloc, path)
    };
    match seen {
        Ok(seen) => Ok(seen),
        Err(error) => Err(not_opened(alloc, path, error)),
    }
}

/// The store over a log that was judged, which is written again, and the reason of whatever fails under it.
pub(crate) fn settled(
    alloc: Global,
    path: &str,
    seen: SeenLog,
) -> Result<(FileStore<HostFile>, Trouble), End> {
    let Ok(trouble) = seen.file().trouble().shared() else {
        return Err(no_memory(alloc, path));
    };
    match seen.settle() {
        Ok(store) => Ok((store, trouble)),
        Err(error) => Err(not_opened(alloc, path, error)),
    }
}

/// An end since the device of the log at this path failed: what the system said of it.
pub(crate) fn device_failed(alloc: Global, path: &str, trouble: &Trouble) -> End {
    failed(match trouble.last() {
        Some(error) => format!(in alloc; "{path}: {error}"),
        None => format!(in alloc; "{path}: the device failed"),
    })
}

/// Whether these bytes begin as the log of this process: with a header and a record of its own.
fn begins_as(
    alloc: Global,
    entry: &TreeProcess,
    store: MemoryStore,
) -> (bool, Option<MemoryStore>) {
    match RecLog::open(alloc, store, entry.id, entry.kind) {
        Ok(_) => (true, None),
        Err((log_records::LogOpenError::Damaged(place), store)) => (
            place > FIRST_FRAME,
            Some(store),
        ),
        Err((_, store)) => (false, Some(store)),
    }
}

/// Where the first record of a log stands.
const FIRST_FRAME: usize = 5;

/// Whether these bytes, which are no log of this process, begin as that of another process of the tree.
pub(crate) fn is_of_another(
    alloc: Global,
    tree: &Tree,
    me: &TreeProcess,
    bytes: &[u8],
) -> Result<bool, AllocError> {
    let mut store = MemoryStore::from_bytes(Vec::from_slice(alloc, bytes)?);
    for entry in tree.entries() {
        if entry.id == me.id {
            continue;
        }
        match begins_as(alloc, entry, store) {
            (true, _) => return Ok(true),
            (false, Some(back)) => store = back,
            (false, None) => return Ok(false),
        }
    }
    Ok(false)
}

/// The end for a log at this path that is damaged, or the log of another process, by these bytes.
pub(crate) fn not_own(
    alloc: Global,
    path: &str,
    tree: &Tree,
    me: &TreeProcess,
    bytes: &[u8],
    place: usize,
) -> End {
    match is_of_another(alloc, tree, me, bytes) {
        Ok(true) => refused(format!(in alloc; "{path}: {}", StartError::Stranger)),
        Ok(false) => refused(format!(in alloc; "{path}: damaged at byte {place}")),
        Err(_) => no_memory(alloc, path),
    }
}

/// Releases a node over a copy in memory.
fn let_go(_node: Serving<MemoryStore>) {}

/// Starts a node over a copy of these bytes in memory: what refuses it refuses it before the file is written.
fn tried(alloc: Global, tree: &Tree, me: &TreeProcess, bytes: &[u8]) -> Result<(), StartError> {
    let copy = MemoryStore::from_bytes(Vec::from_slice(alloc, bytes)?);
    let (node, _) = start(alloc, tree, me, copy)?;
    let_go(node);
    Ok(())
}

/// Judges the log at this path, which has these bytes: Ok, if this process goes on over it.
pub(crate) fn judged(
    alloc: Global,
    path: &str,
    tree: &Tree,
    me: &TreeProcess,
    bytes: &[u8],
) -> Result<(), End> {
    let Err(error) = tried(alloc, tree, me, bytes) else {
        return Ok(());
    };
    let told = format!(in alloc; "{path}: {error}");
    Err(match error {
        StartError::Reopen(ProcessReopenError::Memory | ProcessReopenError::Device) => failed(told),
        StartError::Reopen(ProcessReopenError::Damaged(place)) => {
            not_own(alloc, path, tree, me, bytes, place)
        }
        StartError::Stranger
        | StartError::Reopen(ProcessReopenError::Unfit | ProcessReopenError::OldFormat) => {
            refused(told)
        }
    })
}

/// Whether the log that these bytes are, over which this process goes on, has a case of a boot that it had
/// not reached.
fn is_ahead(alloc: Global, me: &TreeProcess, bytes: &[u8]) -> Result<bool, AllocError> {
    let copy = MemoryStore::from_bytes(Vec::from_slice(alloc, bytes)?);
    match RecLog::open(alloc, copy, me.id, me.kind) {
        Ok(log) => {
            let records = log.records(alloc)?;
            Ok(!are_numbered(&records))
        }
        Err(_) => Ok(false),
    }
}

/// Says to the operator what no run leaves: that the log at this path has a case of a boot that it had not
/// reached. The process goes on over it all the same.
pub(crate) fn warn(rt: &HostRuntime, path: &str, me: &TreeProcess, bytes: &[u8]) {
    let alloc = rt.alloc();
    if let Ok(true) = is_ahead(alloc, me, bytes) {
        tell(
            rt,
            format!(in alloc;
                "rstar node: {path}: it has a case of a boot that it had not reached, as no run leaves one\n"
            ).ok(),
        );
    }
}
