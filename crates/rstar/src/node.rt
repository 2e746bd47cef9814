//! `rstar node`: one process of a tree as a program of its own, over a log in a file.

use crate::explainer::Explainer;
use crate::files::{
    End, device_failed, entry_of, failed, judged, log_in, no_memory, refused, settled, status_of,
    tree_in, warn,
};
use crate::pump::Pump;
use desk_engine::run_desk;
use log_file::{FileStore, HostFile, Trouble};
use log_store::LogStore;
use node_answers::Manner;
use node_desk::{Habits, Waits, Watch};
use node_engine::{NodeFailure, Serving, StartError, start};
use protocol::{ProcessId, Reaction};
use staged_store::{FileBacking, StagedStore};
use std::alloc::{AllocError, Global};
use std::io::{self, BufReader};
use std::sync::Wait;
use std::thread::Threads;
use std::time::{Clock, Duration};
use tree_process::ProcessReopenError;

/// The words after `rstar node`: the file of the tree, the process, the file of its log, and whether that is
/// to be made; whether what is refused is explained, and said by words; the name of the tree; after how many
/// seconds it asks again; over how many bytes of its log's file it trims; and whether it tells of each child
/// that joins.
#[derive(Clone, Copy)]
pub struct NodeWords<'a> {
    pub tree: &'a str,
    pub me: &'a str,
    pub log: &'a str,
    pub is_new: bool,
    pub is_explained: bool,
    pub has_words: bool,
    pub name: Option<&'a str>,
    pub ask: Option<u64>,
    pub trim_at: Option<u64>,
    pub tells_joined: bool,
}

/// A node over a log in memory, up to which a file is brought before anybody is told.
type FileNode = Serving<StagedStore>;

/// That file.
type NodeFile = FileBacking<HostFile>;

/// Why a node did not start over the log at this path, which was judged.
fn not_started(alloc: Global, path: &str, error: StartError, trouble: &Trouble) -> End {
    match error {
        StartError::Reopen(ProcessReopenError::Memory) => no_memory(alloc, path),
        StartError::Reopen(ProcessReopenError::Device) => device_failed(alloc, path, trouble),
        StartError::Stranger
        | StartError::Reopen(
            ProcessReopenError::Damaged(_)
            | ProcessReopenError::Unfit
            | ProcessReopenError::OldFormat,
        ) => refused(format!(in alloc; "{path}: {error}")),
    }
}

/// A node that started.
#[derive(Drop)]
struct OpenNode<'a> {
    watch: Watch<'a>,
    node: FileNode,
    file: NodeFile,
    /// What it did as it opened.
    opening: Reaction,
}

/// How much the node says of what it refuses.
fn manner_of(words: NodeWords<'_>) -> Manner {
    if words.has_words {
        Manner::Words
    } else {
        Manner::Numbers
    }
}

/// The name of the tree, if one is given.
fn name_of(alloc: Global, words: NodeWords<'_>) -> Result<Option<String>, End> {
    let Some(name) = words.name else {
        return Ok(None);
    };
    match String::from_str(alloc, name) {
        Ok(name) => Ok(Some(name)),
        Err(_) => Err(no_memory(alloc, words.log)),
    }
}

/// What tells the node of these words, in a tree with this root, when to ask and when to trim.
fn watch_of<'a>(rt: &HostRuntime, words: NodeWords<'a>, root: ProcessId) -> Result<Watch<'a>, End> {
    let habits = Habits {
        root,
        ask: words.ask.map(|seconds| Duration::from_secs(seconds)),
        trim_at: words.trim_at,
        tells_joined: words.tells_joined,
        log: words.log,
    };
    match Watch::new(rt, habits) {
        Ok(watch) => Ok(watch),
        Err(_) => Err(failed(format!(in rt.alloc(); "the clock cannot be read"))),
    }
}

/// A store in memory in which stands what is in this file, and the file, which is to be brought up to it.
fn staged(
    alloc: Global,
    path: &str,
    store: FileStore<HostFile>,
) -> Result<(StagedStore, NodeFile), End> {
    match Vec::from_slice(alloc, store.bytes()) {
        Ok(bytes) => Ok((StagedStore::from_bytes(bytes), FileBacking::new(store))),
        Err(_) => Err(no_memory(alloc, path)),
    }
}

/// The node of these words, and the reason of whatever fails under its log. Its file is written only once it
/// is known that the process goes on over the log.
fn started<'a>(rt: &HostRuntime, words: NodeWords<'a>) -> Result<(OpenNode<'a>, Trouble), End> {
    let alloc = rt.alloc();
    let tree = tree_in(rt, words.tree)?;
    let watch = watch_of(rt, words, tree.root())?;
    let entry = entry_of(alloc, &tree, words.me)?;
    let name = name_of(alloc, words)?;
    let seen = log_in(rt, words.log, words.is_new)?;
    judged(alloc, words.log, &tree, entry, seen.bytes())?;
    warn(rt, words.log, entry, seen.bytes());
    let (store, trouble) = settled(alloc, words.log, seen)?;
    let (store, file) = staged(alloc, words.log, store)?;
    match start(alloc, &tree, entry, store) {
        Ok((node, opening)) => {
            let node = node.speaking(manner_of(words), name);
            let open = OpenNode {
                watch,
                node,
                file,
                opening,
            };
            Ok((open, trouble))
        }
        Err(error) => Err(not_started(alloc, words.log, error, &trouble)),
    }
}

/// Why a node over the log at this path ended before its input did.
fn not_ended(alloc: Global, path: &str, failure: NodeFailure, trouble: &Trouble) -> End {
    match failure {
        NodeFailure::Device => device_failed(alloc, path, trouble),
        _ => failed(format!(in alloc; "{failure}")),
    }
}

/// Answers the lines that come from this reader, and gives the file of the node, all of it forced.
fn answer_from<R: Waits>(
    rt: &HostRuntime,
    words: NodeWords<'_>,
    open: OpenNode<'_>,
    trouble: &Trouble,
    reader: &mut R,
) -> Result<FileStore<HostFile>, End> {
    let OpenNode {
        mut watch,
        node,
        mut file,
        opening,
    } = open;
    let mut witness = Explainer::new(rt, words.is_explained);
    match run_desk(
        rt.alloc(),
        node,
        &mut file,
        &opening,
        &mut watch,
        reader,
        &mut io::writer(rt),
        &mut witness,
    ) {
        Ok(_) => Ok(file.into_file()),
        Err(failure) => Err(not_ended(rt.alloc(), words.log, failure, trouble)),
    }
}

/// Answers the input, which a thread reads, so that it can be waited for.
fn answer_waiting<T: Threads + Wait + Clock + Copy + Drop + Send + 'static>(
    rt: &HostRuntime,
    threads: T,
    words: NodeWords<'_>,
    open: OpenNode<'_>,
    trouble: &Trouble,
) -> Result<FileStore<HostFile>, End> {
    match Pump::new(threads, *rt) {
        Ok(mut reader) => answer_from(rt, words, open, trouble, &mut reader),
        Err(error) => {
            let_go(open.node);
            Err(failed(format!(in rt.alloc(); "standard input: {error}")))
        }
    }
}

/// Answers the input.
fn answer_input<T: Threads + Wait + Clock + Copy + Drop + Send + 'static>(
    rt: &HostRuntime,
    threads: T,
    words: NodeWords<'_>,
    open: OpenNode<'_>,
    trouble: &Trouble,
) -> Result<FileStore<HostFile>, End> {
    if words.ask.is_some() {
        return answer_waiting(rt, threads, words, open, trouble);
    }
    match BufReader::new(rt.alloc(), rt.reader()) {
        Ok(mut reader) => answer_from(rt, words, open, trouble, &mut reader),
        Err(_) => {
            let_go(open.node);
            Err(failed(Err(AllocError)))
        }
    }
}

/// Lets a node go. One function does it: what letting go of one means is proved once, and not at each way
/// out.
fn let_go(_node: FileNode) {}

/// Closes the file of a node that ended in order.
fn close(
    rt: &HostRuntime,
    path: &str,
    mut store: FileStore<HostFile>,
    trouble: &Trouble,
) -> Result<(), End> {
    match store.close() {
        Ok(()) => Ok(()),
        Err(_) => Err(device_failed(rt.alloc(), path, trouble)),
    }
}

/// Starts the node and answers its input.
fn serve<T: Threads + Wait + Clock + Copy + Drop + Send + 'static>(
    rt: &HostRuntime,
    threads: T,
    words: NodeWords<'_>,
) -> Result<(), End> {
    let (open, trouble) = started(rt, words)?;
    let store = answer_input(rt, threads, words, open, &trouble)?;
    close(rt, words.log, store, &trouble)
}

/// Runs a node, and answers the exit status. Why it did not start, or ended before its input did, is told on
/// standard error. Threads are started with `ask` alone.
pub fn run<T: Threads + Wait + Clock + Copy + Drop + Send + 'static>(
    rt: &HostRuntime,
    threads: T,
    words: NodeWords<'_>,
) -> u8 {
    status_of(rt, "node", serve(rt, threads, words))
}
