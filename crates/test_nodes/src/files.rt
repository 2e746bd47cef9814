//! A node over a file of the system.

use log_file::{FileOpenError, FileStore, HostFile, create, open};
use log_records::RecLog;
use log_store::LogStore;
use node_engine::{Nobody, Serving, StartError, run_node, start};
use protocol::{Kind, ProcessId, Reaction, Tree};
use std::fs;
use tree_process::ProcessReopenError;
use tree_script::read_tree;

const LOG: &str = "node_rows.log";

const TREE: &str = "\
[[process]]
id = 1
kind = \"coordinator\"
[[process]]
id = 4
kind = \"manager\"
parent = 1
";

const FIRST: &str = "\
begin pc
join c1.1 4
1 4->1 JOINED c1.1 4.1.1
commit c1.1
2 4->1 YES c1.1@4.1.1
7 1->4 COMMIT c1.1@4.1.1
what is this
";

const FIRST_SAID: &str = "\
log 1 Opened 1 forced
ok
begin c1.1
ok
1 1->4 JOIN c1.1
ok
ok
log 1 Collecting c1.1 forced
2 1->4 PREPARE c1.1@4.1.1 0
ok
log 1 Commit c1.1 forced
told c1.1 committed
3 1->4 COMMIT c1.1@4.1.1
ok
refused 9
error
";

const SECOND: &str = "\
outcome c1.1
doubt
begin pa
trim
";

const SECOND_SAID: &str = "\
log 1 Opened 2 forced
ok
outcome c1.1 committed
ok
ok
begin a2.1
ok
trim 1 1
ok
";

/// The log that such a node left in the first format: Opened, Collecting and Commit.
const OLD: &[u8; 96] = b"\
RLOG\x01\
\x01\x00\x08\x00\x00\x00\x00\x00\x00\x00\x01\
\x02\x00\x2f\x00\x00\x0f\xa2\x14\x00\x00\x00\x00\x01\x00\x00\x00\x00\x00\x00\x00\x01\
\x00\x00\x00\x00\x00\x00\x00\x01\x01\x00\x00\x00\x04\x00\x00\x00\x00\x00\x00\x00\x01\
\x00\x00\x00\x00\x00\x00\x00\x01\
\x04\x00\x1b\x00\x00\x0f\xa2\x14\x00\x00\x00\x00\x01\x00\x00\x00\x00\x00\x00\x00\x01\
\x00\x00\x00\x00\x00\x00\x00\x01\x00";

type Node = Serving<FileStore<HostFile>>;

/// Lets a node go. One function does it: what letting go of one means is proved once, and not at each way
/// out.
fn let_go(_node: Node) {}

/// Lets a store go.
fn let_store_go(_store: FileStore<HostFile>) {}

/// Whether a node writes just this as it opened and answers these lines.
fn answers(rt: &HostRuntime, node: Node, opening: &Reaction, lines: &str, said: &str) -> bool {
    let mut out = Vec::new(rt.alloc());
    let ended = run_node(
        rt.alloc(),
        node,
        opening,
        &mut lines.as_bytes(),
        &mut out,
        &mut Nobody,
    );
    match ended {
        Err(_) => false,
        Ok(store) => {
            let_store_go(store);
            out.as_slice() == said.as_bytes()
        }
    }
}

/// Whether a node over this store writes just this as it opens and answers these lines.
fn serves(
    rt: &HostRuntime,
    tree: &Tree,
    store: FileStore<HostFile>,
    lines: &str,
    said: &str,
) -> bool {
    let Some(entry) = tree.entry(ProcessId(1)) else {
        return false;
    };
    match start(rt.alloc(), tree, entry, store) {
        Err(_) => false,
        Ok((node, opening)) => answers(rt, node, &opening, lines, said),
    }
}

/// Whether the log is refused to another process, by name.
fn refuses(rt: &HostRuntime, tree: &Tree, store: FileStore<HostFile>) -> bool {
    let Some(entry) = tree.entry(ProcessId(4)) else {
        return false;
    };
    match start(rt.alloc(), tree, entry, store) {
        Err(_) => true,
        Ok((node, _)) => {
            let_go(node);
            false
        }
    }
}

fn made(rt: &HostRuntime) -> Result<FileStore<HostFile>, FileOpenError> {
    create(rt, rt.alloc(), LOG)
}

fn opened(rt: &HostRuntime) -> Result<FileStore<HostFile>, FileOpenError> {
    open(rt, rt.alloc(), LOG)
}

/// Makes the log of the first format, in place of the one that stands.
fn makes_old(rt: &HostRuntime) -> bool {
    let _ = fs::remove_file(rt, LOG);
    match made(rt) {
        Ok(mut store) => store.append(OLD).is_ok() && store.force().is_ok(),
        Err(_) => false,
    }
}

/// Whether no node starts over a log of the first format.
fn is_old(rt: &HostRuntime, tree: &Tree, store: FileStore<HostFile>) -> bool {
    let Some(entry) = tree.entry(ProcessId(1)) else {
        return false;
    };
    match start(rt.alloc(), tree, entry, store) {
        Err(StartError::Reopen(ProcessReopenError::OldFormat)) => true,
        Err(_) => false,
        Ok((node, _)) => {
            let_go(node);
            false
        }
    }
}

/// Says what does not hold of a log of the first format in a file, and of its migration; nothing, where all
/// does.
fn migrate(rt: &HostRuntime, tree: &Tree) -> Option<&'static str> {
    if !makes_old(rt) {
        return Some("a log of the first format is not made");
    }
    let Ok(store) = opened(rt) else {
        return Some("a log of the first format is not opened");
    };
    if !is_old(rt, tree, store) {
        return Some("a node starts over a log of the first format");
    }
    let Ok(store) = opened(rt) else {
        return Some("a log of the first format is not opened again");
    };
    if RecLog::migrate(rt.alloc(), store, ProcessId(1), Kind::Coordinator).is_err() {
        return Some("a log of the first format is not migrated");
    }
    let Ok(store) = opened(rt) else {
        return Some("the migrated log is not opened");
    };
    if !serves(rt, tree, store, SECOND, SECOND_SAID) {
        return Some("a node over the migrated log says otherwise");
    }
    None
}

/// Says what does not hold of a node over a file, or that all does.
pub fn run(rt: &HostRuntime) -> &'static str {
    let _ = fs::remove_file(rt, LOG);
    let Ok(tree) = read_tree(rt.alloc(), TREE) else {
        return "the tree is not read";
    };
    let Ok(store) = made(rt) else {
        return "the log is not made";
    };
    if !serves(rt, &tree, store, FIRST, FIRST_SAID) {
        return "the first node says otherwise";
    }
    let Ok(store) = opened(rt) else {
        return "the log is not opened";
    };
    if !refuses(rt, &tree, store) {
        return "another process has the log";
    }
    let Ok(store) = opened(rt) else {
        return "the log is not opened again";
    };
    if !serves(rt, &tree, store, SECOND, SECOND_SAID) {
        return "the second node says otherwise";
    }
    match migrate(rt, &tree) {
        Some(fault) => fault,
        None => "as it must",
    }
}
