//! Nodes over stores in memory, line by line.

use log_store::{LogStore, MemoryStore};
use node_answers::Manner;
use node_engine::{Nobody, Serving, StartError, run_node, start};
use protocol::{ProcessId, Tree};
use std::alloc::Global;
use tree_script::read_tree;

/// Lines of a coordinator below the root, of which each that comes from one who may not say so is refused.
const SPEAKERS: &str = "\
1 4->2 JOIN a1.1
1 1->2 JOIN a1.1
join a1.1@2.1.1 3
1 4->2 JOINED a1.1@2.1.1 4.1.1
1 3->2 JOINED a1.1@2.1.1 4.1.1
1 3->2 JOINED a1.1@2.1.1 3.1.1
1 3->2 ABORT a1.1@2.1.1
1 9->2 COMMIT a1.1@2.1.1
1 1->2 COMMIT a1.1
1 1->2 PREPARE a1.1@3.1.1 0
1 1->2 YES a1.1@3.1.1
1 3->1 YES a1.1@3.1.1
outcome a1.1
doubt
status
end
doubt
";

const SPEAKERS_SAID: &str = "\
log 2 Opened 1 forced
ok
refused 9
1 2->1 JOINED a1.1 2.1.1
ok
2 2->3 JOIN a1.1@2.1.1
ok
refused 9
refused 9
ok
refused 9
refused 9
refused 9
refused 9
refused 9
refused 9
refused 9
ok
status boot 1 records 1 unforced 0 bytes 23 in-doubt 0 decided 0
ok
ok
";

/// Lines of a root, whose last record is not forced by its line.
const ENDS: &str = "\
begin pa
join a1.1 4
1 4->1 JOINED a1.1 4.1.1
commit a1.1
2 4->1 YES a1.1@4.1.1
outcome a1.1
3 4->1 ACK a1.1@4.1.1 commit
";

const ENDS_SAID: &str = "\
log 1 Opened 1 forced
ok
begin a1.1
ok
1 1->4 JOIN a1.1
ok
ok
2 1->4 PREPARE a1.1@4.1.1 0
ok
log 1 Commit a1.1 forced
told a1.1 committed
3 1->4 COMMIT a1.1@4.1.1
ok
outcome a1.1 committed
ok
log 1 End a1.1 plain
ok
";

/// What the next node says over what a crash leaves of that log: nobody is told again.
const NEXT: &str = "\
end
";

const NEXT_SAID: &str = "\
log 1 Opened 2 forced
ok
ok
";

/// Lines of a manager that an operator decides before it is told.
const DECIDED: &str = "\
1 1->4 JOIN a1.1
2 1->4 JOIN a1.2
3 1->4 WORK a1.1@4.1.1 1 put x 1
4 1->4 WORK a1.2@4.1.2 1 put y 2
5 1->4 PREPARE a1.1@4.1.1 1
6 1->4 PREPARE a1.2@4.1.2 1
doubt
heur a1.1@4.1.1 commit
doubt
heur a1.1@4.1.1 rollback
7 1->4 COMMIT a1.1@4.1.1
doubt
";

const DECIDED_SAID: &str = "\
log 4 Opened 1 forced
ok
1 4->1 JOINED a1.1 4.1.1
ok
2 4->1 JOINED a1.2 4.1.2
ok
ok
ok
log 4 Prepared a1.1@4.1.1 forced
3 4->1 YES a1.1@4.1.1
ok
log 4 Prepared a1.2@4.1.2 forced
4 4->1 YES a1.2@4.1.2
ok
doubt a1.1@4.1.1
doubt a1.2@4.1.2
ok
log 4 HeurCommit a1.1@4.1.1 forced
ok
doubt a1.2@4.1.2
decided a1.1@4.1.1 commit
ok
refused 7
log 4 Told a1.1@4.1.1 forced
5 4->1 ACK a1.1@4.1.1 commit
ok
doubt a1.2@4.1.2
ok
";

/// Lines of a root that tells decisions once more: to those who owe an acknowledgement, until none does.
const AGAIN: &str = "\
again a1.1
begin pa
again a1.1
join a1.1 4
1 4->1 JOINED a1.1 4.1.1
commit a1.1
again a1.1
2 4->1 YES a1.1@4.1.1
again a1.1
again a1.1@4.1.1
again a1.1
3 4->1 ACK a1.1@4.1.1 commit
again a1.1
begin pc
join c1.2 2
join c1.2 4
1 2->1 JOINED c1.2 2.1.1
1 4->1 JOINED c1.2 4.1.2
commit c1.2
abort c1.2
again c1.2
2 2->1 ACK c1.2@2.1.1 abort
again c1.2
again
";

const AGAIN_SAID: &str = "\
log 1 Opened 1 forced
ok
refused 9
begin a1.1
ok
refused 9
1 1->4 JOIN a1.1
ok
ok
2 1->4 PREPARE a1.1@4.1.1 0
ok
refused 9
log 1 Commit a1.1 forced
told a1.1 committed
3 1->4 COMMIT a1.1@4.1.1
ok
4 1->4 COMMIT a1.1@4.1.1
ok
refused 9
5 1->4 COMMIT a1.1@4.1.1
ok
log 1 End a1.1 plain
ok
refused 9
begin c1.2
ok
6 1->2 JOIN c1.2
ok
7 1->4 JOIN c1.2
ok
ok
ok
log 1 Collecting c1.2 forced
8 1->2 PREPARE c1.2@2.1.1 0
9 1->4 PREPARE c1.2@4.1.2 0
ok
log 1 Abort c1.2 forced
told c1.2 aborted
10 1->2 ABORT c1.2@2.1.1
11 1->4 ABORT c1.2@4.1.2
ok
12 1->2 ABORT c1.2@2.1.1
13 1->4 ABORT c1.2@4.1.2
ok
ok
14 1->4 ABORT c1.2@4.1.2
ok
error
";

/// Lines of a manager that tells what its log holds, and its data.
const HELD: &str = "\
data
1 1->4 JOIN a1.1
2 1->4 WORK a1.1@4.1.1 1 put y 2
3 1->4 WORK a1.1@4.1.1 2 put x 1
4 1->4 PREPARE a1.1@4.1.1 2
data
5 1->4 COMMIT a1.1@4.1.1
data
log
again a1.1@4.1.1
trim
log
data
";

const HELD_SAID: &str = "\
log 4 Opened 1 forced
ok
ok
1 4->1 JOINED a1.1 4.1.1
ok
ok
ok
log 4 Prepared a1.1@4.1.1 forced
2 4->1 YES a1.1@4.1.1
ok
ok
log 4 Committed a1.1@4.1.1 forced
3 4->1 ACK a1.1@4.1.1 commit
ok
data 78 31
data 79 32
ok
log 4
5 Opened 1
23 Prepared a1.1@4.1.1 put 79 32 put 78 31
91 Committed a1.1@4.1.1
ok
refused 9
trim 4 4
ok
log 4
5 Opened 1
23 Base 1
36 Pair 78 31
46 Pair 79 32
ok
data 78 31
data 79 32
ok
";

/// Lines of a root that is asked for branches, whose tree is called bank.
const RESOLVES: &str = "\
resolve a1.1
resolve a1.1@4.1.1
begin pa
resolve a1.1@4.1.1
join a1.1 4
1 4->1 JOINED a1.1 4.1.1
commit a1.1
resolve a1.1@4.1.1
2 4->1 YES a1.1@4.1.1
resolve a1.1@4.1.1
resolve bank:a1.1@4.1.1
resolve 4003:62616e6b3a61312e31:342e312e31
resolve shop:a1.1@4.1.1
resolve a1.1@3.1.1
resolve a1.1@2.1.1
resolve a1.1
resolve 7:00:
resolve a1.1@9.1.1
resolve
3 4->1 ACK a1.1@4.1.1 commit
resolve a1.1@4.1.1
begin pc
join c1.2 4
4 4->1 JOINED c1.2 4.1.2
commit c1.2
resolve c1.2@4.1.2
abort c1.2
resolve c1.2@4.1.2
resolve c1.9@4.1.9
commit c1.9
2 4->1 JOINED a1.1@9.1.1 4.1.1
";

const RESOLVES_SAID: &str = "\
log 1 Opened 1 forced
ok
resolve a1.1 wait
ok
resolve a1.1@4.1.1 rollback
ok
begin a1.1
ok
resolve a1.1@4.1.1 wait
ok
1 1->4 JOIN a1.1
ok
ok
2 1->4 PREPARE a1.1@4.1.1 0
ok
resolve a1.1@4.1.1 wait
ok
log 1 Commit a1.1 forced
told a1.1 committed
3 1->4 COMMIT a1.1@4.1.1
ok
resolve a1.1@4.1.1 commit
ok
resolve bank:a1.1@4.1.1 commit
ok
resolve 4003:62616e6b3a61312e31:342e312e31 commit
ok
resolve shop:a1.1@4.1.1 foreign
ok
resolve a1.1@3.1.1 unknown 2
ok
resolve a1.1@2.1.1 wait
ok
resolve a1.1 commit
ok
resolve 7:00: foreign
ok
resolve a1.1@9.1.1 foreign
ok
error no-line
log 1 End a1.1 plain
ok
resolve a1.1@4.1.1 commit
ok
begin c1.2
ok
4 1->4 JOIN c1.2
ok
ok
log 1 Collecting c1.2 forced
5 1->4 PREPARE c1.2@4.1.2 0
ok
resolve c1.2@4.1.2 wait
ok
log 1 Abort c1.2 forced
told c1.2 aborted
6 1->4 ABORT c1.2@4.1.2
ok
resolve c1.2@4.1.2 rollback
ok
resolve c1.9@4.1.9 commit
ok
refused 3 no-case
refused 9 not-here
";

/// Lines of a coordinator below the root that is asked for branches.
const ASKED_ABOVE: &str = "\
1 1->2 JOIN a1.1
join a1.1@2.1.1 3
1 3->2 JOINED a1.1@2.1.1 3.1.1
2 1->2 PREPARE a1.1@2.1.1 0
resolve a1.1@3.1.1
2 3->2 YES a1.1@3.1.1
resolve a1.1@3.1.1
resolve a1.1@2.1.1
resolve a1.1@3.1.2
3 1->2 ABORT a1.1@2.1.1
resolve a1.1@3.1.1
resolve a1.1@2.1.1
resolve a1.1@4.1.1
";

const ASKED_ABOVE_SAID: &str = "\
log 2 Opened 1 forced
ok
1 2->1 JOINED a1.1 2.1.1
ok
2 2->3 JOIN a1.1@2.1.1
ok
ok
3 2->3 PREPARE a1.1@3.1.1 0
ok
resolve a1.1@3.1.1 wait
ok
log 2 Prepare a1.1@2.1.1 forced
4 2->1 YES a1.1@2.1.1
ok
resolve a1.1@3.1.1 unknown 1
ok
resolve a1.1@2.1.1 unknown 1
ok
resolve a1.1@3.1.2 wait
ok
log 2 Abort a1.1@2.1.1 plain
5 2->3 ABORT a1.1@3.1.1
ok
resolve a1.1@3.1.1 rollback
ok
resolve a1.1@2.1.1 rollback
ok
resolve a1.1@4.1.1 unknown 1
ok
";

/// Lines of a manager that is asked for branches, one of which an operator decides.
const ASKED_BELOW: &str = "\
1 1->4 JOIN a1.1
2 1->4 WORK a1.1@4.1.1 1 put x 1
resolve a1.1@4.1.1
3 1->4 PREPARE a1.1@4.1.1 1
resolve a1.1@4.1.1
heur a1.1@4.1.1 rollback
resolve a1.1@4.1.1
4 1->4 COMMIT a1.1@4.1.1
resolve a1.1@4.1.1
5 1->4 JOIN a1.2
6 1->4 WORK a1.2@4.1.2 1 put y 1
7 1->4 PREPARE a1.2@4.1.2 1
8 1->4 COMMIT a1.2@4.1.2
resolve a1.2@4.1.2
heur a1.1@4.1.1 commit
";

const ASKED_BELOW_SAID: &str = "\
log 4 Opened 1 forced
ok
1 4->1 JOINED a1.1 4.1.1
ok
ok
resolve a1.1@4.1.1 unknown 1
ok
log 4 Prepared a1.1@4.1.1 forced
2 4->1 YES a1.1@4.1.1
ok
resolve a1.1@4.1.1 unknown 1
ok
log 4 HeurRollback a1.1@4.1.1 forced
ok
resolve a1.1@4.1.1 heuristic-rollback
ok
log 4 Told a1.1@4.1.1 forced
3 4->1 ACK a1.1@4.1.1 commit mixed 4.1.1
ok
resolve a1.1@4.1.1 heuristic-rollback
ok
4 4->1 JOINED a1.2 4.1.2
ok
ok
log 4 Prepared a1.2@4.1.2 forced
5 4->1 YES a1.2@4.1.2
ok
log 4 Committed a1.2@4.1.2 forced
6 4->1 ACK a1.2@4.1.2 commit
ok
resolve a1.2@4.1.2 commit
ok
refused 7 not-in-doubt
";

/// The tree in which process 4 has another parent.
const MOVED: &str = "\
[[process]]
id = 1
kind = \"coordinator\"
[[process]]
id = 2
kind = \"coordinator\"
parent = 1
[[process]]
id = 3
kind = \"manager\"
parent = 2
[[process]]
id = 4
kind = \"manager\"
parent = 2
";

/// Lines of a root whose log then names a ticket of process 4.
const NAMES: &str = "\
begin pc
join c1.1 4
1 4->1 JOINED c1.1 4.1.1
commit c1.1
";

const NAMES_SAID: &str = "\
log 1 Opened 1 forced
ok
begin c1.1
ok
1 1->4 JOIN c1.1
ok
ok
log 1 Collecting c1.1 forced
2 1->4 PREPARE c1.1@4.1.1 0
ok
";

/// Lets a store go.
fn let_go(_store: MemoryStore) {}

/// What a node that speaks by words, in a tree that is called bank, writes of these lines.
fn spoken(alloc: Global, tree: &Tree, process: ProcessId, lines: &[u8]) -> Option<Vec<u8>> {
    let entry = tree.entry(process)?;
    let name = String::from_str(alloc, "bank").ok()?;
    let store = MemoryStore::from_bytes(Vec::new(alloc));
    let Ok((node, opening)) = start(alloc, tree, entry, store) else {
        return None;
    };
    let mut reader = lines;
    let mut out = Vec::new(alloc);
    let ended = run_node(
        alloc,
        node.speaking(Manner::Words, Some(name)),
        &opening,
        &mut reader,
        &mut out,
        &mut Nobody,
    );
    let_go(ended.ok()?);
    Some(out)
}

/// Whether such a node writes just this.
fn speaks(alloc: Global, tree: &Tree, process: ProcessId, lines: &str, said: &str) -> bool {
    match spoken(alloc, tree, process, lines.as_bytes()) {
        None => false,
        Some(out) => out.as_slice() == said.as_bytes(),
    }
}

/// The store of a node that ended in order, of which a crash takes what it can, where it wrote just this.
fn served(
    alloc: Global,
    tree: &Tree,
    process: ProcessId,
    store: MemoryStore,
    lines: &str,
    said: &str,
) -> Option<MemoryStore> {
    let entry = tree.entry(process)?;
    let Ok((node, opening)) = start(alloc, tree, entry, store) else {
        return None;
    };
    let mut out = Vec::new(alloc);
    let ended = run_node(
        alloc,
        node,
        &opening,
        &mut lines.as_bytes(),
        &mut out,
        &mut Nobody,
    );
    let mut left = ended.ok()?;
    left.crash(0);
    if out.as_slice() == said.as_bytes() {
        Some(left)
    } else {
        let_go(left);
        None
    }
}

/// Whether a new node writes just this.
fn says(alloc: Global, tree: &Tree, process: ProcessId, lines: &str, said: &str) -> bool {
    let store = MemoryStore::from_bytes(Vec::new(alloc));
    match served(alloc, tree, process, store, lines, said) {
        None => false,
        Some(left) => {
            let_go(left);
            true
        }
    }
}

/// Whether a node that ends in order leaves all that it wrote.
fn ends(alloc: Global, tree: &Tree) -> bool {
    let store = MemoryStore::from_bytes(Vec::new(alloc));
    let Some(left) = served(alloc, tree, ProcessId(1), store, ENDS, ENDS_SAID) else {
        return false;
    };
    match served(alloc, tree, ProcessId(1), left, NEXT, NEXT_SAID) {
        None => false,
        Some(left) => {
            let_go(left);
            true
        }
    }
}

/// Lets a node go.
fn let_node_go(_node: Serving<MemoryStore>) {}

/// Whether no node of the tree starts over this store, since its log is not of the tree.
fn is_stranger(alloc: Global, tree: &Tree, process: ProcessId, store: MemoryStore) -> bool {
    let Some(entry) = tree.entry(process) else {
        return false;
    };
    match start(alloc, tree, entry, store) {
        Err(StartError::Stranger) => true,
        Err(_) => false,
        Ok((node, _)) => {
            let_node_go(node);
            false
        }
    }
}

/// Whether a node that writes just this leaves a log that is not of a tree which has changed.
fn is_left_behind(
    alloc: Global,
    tree: &Tree,
    moved: &Tree,
    process: ProcessId,
    lines: &str,
    said: &str,
) -> bool {
    let store = MemoryStore::from_bytes(Vec::new(alloc));
    match served(alloc, tree, process, store, lines, said) {
        None => false,
        Some(left) => is_stranger(alloc, moved, process, left),
    }
}

/// Whether a tree that has changed is seen: by the parent's log, which names a ticket of no child, and by the
/// child's, which names a case of another parent.
fn sees_change(alloc: Global, tree: &Tree) -> bool {
    let Ok(moved) = read_tree(alloc, MOVED) else {
        return false;
    };
    is_left_behind(alloc, tree, &moved, ProcessId(1), NAMES, NAMES_SAID)
        && is_left_behind(alloc, tree, &moved, ProcessId(4), DECIDED, DECIDED_SAID)
}

/// Says what does not hold of lines of nodes, or that all does.
pub fn run(alloc: Global, tree: &Tree) -> &'static str {
    if !says(alloc, tree, ProcessId(2), SPEAKERS, SPEAKERS_SAID) {
        return "one is heard that may not speak";
    }
    if !says(alloc, tree, ProcessId(4), DECIDED, DECIDED_SAID) {
        return "what was decided is told otherwise";
    }
    if !ends(alloc, tree) {
        return "an end in order does not force";
    }
    if !says(alloc, tree, ProcessId(1), AGAIN, AGAIN_SAID) {
        return "a decision is told otherwise once more";
    }
    if !says(alloc, tree, ProcessId(4), HELD, HELD_SAID) {
        return "what a log holds is told otherwise";
    }
    if !speaks(alloc, tree, ProcessId(1), RESOLVES, RESOLVES_SAID) {
        return "a root resolves otherwise";
    }
    if !speaks(alloc, tree, ProcessId(2), ASKED_ABOVE, ASKED_ABOVE_SAID) {
        return "a coordinator below the root resolves otherwise";
    }
    if !speaks(alloc, tree, ProcessId(4), ASKED_BELOW, ASKED_BELOW_SAID) {
        return "a manager resolves otherwise";
    }
    if !sees_change(alloc, tree) {
        return "a tree that has changed is not seen";
    }
    "as they must"
}
