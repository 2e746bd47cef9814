//! Opening a node over the bytes of its log's file.

ghost use Rattle.std.specs.Prelude.{◌≡◌, IfOk, length};
ghost use Rattle.log_file.specs.Stores.{file_bytes, file_failures, file_forced};
ghost use Rattle.linked_node.specs.Openings.{Boxes, FoundIn, IsTreeOf, Opened, ServesAfter};

use crate::kept::{FileNode, Kept, KeptLife};
use crate::numbers::{
    EXHAUSTED, MEMORY, NO_PROCESS, TREE, TREE_TEXT, TREE_UTF8, failure_number, file_number,
    start_number,
};
use file_calls::{CalledFile, Calls};
use log_file::{FileStore, found_in};
use log_records::RecLog;
use log_store::MemoryStore;
use node_engine::{StartError, start};
use protocol::{ProcessId, Reaction, Tree, TreeProcess};
use std::alloc::{AllocError, Global};
use std::io::ErrorKind;
use tree_process::ProcessReopenError;
use tree_script::{ScriptError, ScriptFault, read_front};

/// The number of why a text is no tree's.
fn tree_number(error: ScriptError) -> u32 {
    match error {
        ScriptError::Memory => MEMORY,
        ScriptError::Fault(ScriptFault::Utf8) => TREE_UTF8,
        ScriptError::Fault(ScriptFault::Tree(_)) => TREE,
        ScriptError::Fault(_) => TREE_TEXT,
    }
}

/// The tree of a text, which has no line of three dashes.
fn tree_of(alloc: Global, text: &[u8]) -> Result<Tree, u32>
    ensures { IfOk result (λ tree. IsTreeOf text.now tree) }
{
    let Ok(mut bytes) = Vec::from_slice(alloc, text) else {
        return Err(MEMORY);
    };
    if bytes.extend_from_slice(b"\n---\n").is_err() {
        return Err(MEMORY);
    }
    match read_front(alloc, &bytes) {
        Ok(front) => {
            if front.lines.iter().any(|line| *line == "---") {
                Err(TREE_TEXT)
            } else {
                Ok(front.tree)
            }
        }
        Err(error) => Err(tree_number(error)),
    }
}

/// The number of the file that these bytes are, and the bytes of the log in it; of a new one, nothing.
fn found(alloc: Global, file: &[u8], is_new: bool) -> Result<(u64, Vec<u8>), u32>
    ensures { IfOk result (λ found. FoundIn is_new file.now found.1.items) }
{
    if is_new {
        return Ok((0, Vec::new(alloc)));
    }
    match found_in(alloc, Some(file)) {
        Ok(found) => Ok((found.number, found.bytes)),
        Err(error) => Err(file_number(error)),
    }
}

/// A store over a file of which these bytes were found. They are to be written again first.
fn store_of(
    alloc: Global,
    calls: &Calls,
    number: u64,
    bytes: Vec<u8>,
) -> Result<FileStore<CalledFile>, u32>
    ensures text { IfOk result (λ store. file_bytes store ≡ bytes.items) }
    ensures forced { IfOk result (λ store. file_forced store ≡ length bytes.items) }
    ensures works { IfOk result (λ store. file_failures store ≡ 0) }
{
    let Ok(shared) = calls.shared() else {
        return Err(MEMORY);
    };
    match FileStore::settle(CalledFile::new(alloc, shared), number, bytes) {
        Ok(store) => Ok(store),
        Err(error) if error.kind() == ErrorKind::OutOfMemory => Err(MEMORY),
        Err(_) => Err(EXHAUSTED),
    }
}

/// A node in a box of its own. One function makes it: what moving one means is proved once.
fn boxed(alloc: Global, node: FileNode) -> Result<Box<FileNode>, u32>
    ensures { IfOk result (λ made. made.value ≡ node) }
{
    match Box::new(alloc, node) {
        Ok(node) => Ok(node),
        Err(_) => Err(MEMORY),
    }
}

/// What a handle keeps of a node that was just opened.
fn kept_of(
    alloc: Global,
    node: Box<FileNode>,
    answer: Vec<u8>,
    calls: Calls,
) -> Result<Box<Kept>, u32>
    ensures { IfOk result (λ kept. Boxes node.value answer.items kept.value) }
{
    let kept = Kept {
        life: KeptLife::Serves(node),
        answer,
        calls,
    };
    match Box::new(alloc, kept) {
        Ok(kept) => Ok(kept),
        Err(_) => Err(MEMORY),
    }
}

/// What a process did as it opened is the first answer.
fn shown(
    alloc: Global,
    mut node: FileNode,
    opening: &Reaction,
    calls: Calls,
) -> Result<Box<Kept>, u32>
    ensures { IfOk result (λ kept. ServesAfter node opening.now kept.value kept.value.life) }
{
    match node.show(opening) {
        Ok(answer) => kept_of(alloc, boxed(alloc, node)?, answer, calls),
        Err(failure) => Err(failure_number(failure)),
    }
}

/// The place of the first record of a log.
const FIRST_FRAME: usize = 5;

/// Whether these bytes begin as the log of this process: with a header and a record of its own.
fn begins_as(alloc: Global, entry: &TreeProcess, bytes: &[u8]) -> Result<bool, AllocError> {
    let copy = MemoryStore::from_bytes(Vec::from_slice(alloc, bytes)?);
    match RecLog::open(alloc, copy, entry.id, entry.kind) {
        Ok(_) => Ok(true),
        Err((log_records::LogOpenError::Damaged(place), _)) => Ok(place > FIRST_FRAME),
        Err((log_records::LogOpenError::Memory, _)) => Err(AllocError),
        Err((_, _)) => Ok(false),
    }
}

/// Whether these bytes, which are no log of this process, begin as that of another process of the tree.
fn is_of_another(
    alloc: Global,
    tree: &Tree,
    me: &TreeProcess,
    bytes: &[u8],
) -> Result<bool, AllocError> {
    for entry in tree.entries() {
        if entry.id != me.id && begins_as(alloc, entry, bytes)? {
            return Ok(true);
        }
    }
    Ok(false)
}

/// The number of why no node was started over the log in this file.
fn not_started(
    alloc: Global,
    tree: &Tree,
    me: &TreeProcess,
    file: &[u8],
    error: StartError,
) -> u32 {
    let StartError::Reopen(ProcessReopenError::Damaged(_)) = error else {
        return start_number(error);
    };
    let Ok(found) = found_in(alloc, Some(file)) else {
        return MEMORY;
    };
    match is_of_another(alloc, tree, me, &found.bytes) {
        Ok(true) => start_number(StartError::Stranger),
        Ok(false) => start_number(error),
        Err(_) => MEMORY,
    }
}

/// A process of a tree over the log in a file.
pub fn opened(
    alloc: Global,
    text: &[u8],
    process: u32,
    file: &[u8],
    is_new: bool,
) -> Result<Box<Kept>, u32>
    ensures { IfOk result (λ kept. Opened text.now process file.now is_new kept.value) }
{
    let tree = tree_of(alloc, text)?;
    let Some(entry) = tree.entry(ProcessId(process)) else {
        return Err(NO_PROCESS);
    };
    let (number, bytes) = found(alloc, file, is_new)?;
    let Ok(calls) = Calls::new(alloc) else {
        return Err(MEMORY);
    };
    let store = store_of(alloc, &calls, number, bytes)?;
    match start(alloc, &tree, entry, store) {
        Ok((node, opening)) => shown(alloc, node, &opening, calls),
        Err(error) => Err(not_started(alloc, &tree, entry, file, error)),
    }
}
