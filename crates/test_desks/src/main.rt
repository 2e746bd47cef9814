//! Floor: engines and program.
//!
//! Rows of nodes that are run by desks, over stores in memory, and over files that count their calls.
#![tactic(auto)]

mod groups;
mod lines;

use crate::groups::{after_opening, asks};
use desk_engine::run_desk;
use log_store::{LogStore, MemoryStore};
use node_desk::{Habits, Watch};
use node_engine::{Nobody, start};
use protocol::{ProcessId, Tree};
use staged_store::NoBacking;
use std::alloc::{AllocError, Global};
use std::io::{self, BufReader};
use tree_script::read_tree;

pub(crate) const ROOT: ProcessId = ProcessId(1);

/// Adds a line of N bytes.
fn push_line(input: &mut Vec<u8>, byte: u8, count: usize, is_fed: bool) -> Result<(), AllocError> {
    for _ in 0..count {
        input.push(byte)?;
    }
    if is_fed {
        input.push(b'\n')?;
    }
    Ok(())
}

/// Lines of the most bytes that one has, and of more.
fn long_lines(alloc: Global) -> Result<Vec<u8>, AllocError> {
    let mut input = Vec::new(alloc);
    push_line(&mut input, b'#', 4096, true)?;
    input.extend_from_slice(b"doubt\n")?;
    push_line(&mut input, b'#', 4097, true)?;
    push_line(&mut input, b'x', 20_000, true)?;
    input.extend_from_slice(b"doubt\r\n")?;
    push_line(&mut input, b'y', 4097, false)?;
    Ok(input)
}

/// Lets a store go.
fn let_go(_store: MemoryStore) {}

/// What the root writes of these lines over this store, and the store that it leaves.
fn served(
    rt: &HostRuntime,
    tree: &Tree,
    habits: Habits<'_>,
    store: MemoryStore,
    lines: &[u8],
) -> Option<(Vec<u8>, MemoryStore)> {
    let alloc = rt.alloc();
    let entry = tree.entry(ROOT)?;
    let mut watch = Watch::new(rt, habits).ok()?;
    let mut reader = BufReader::new(alloc, lines).ok()?;
    let Ok((node, opening)) = start(alloc, tree, entry, store) else {
        return None;
    };
    let mut out = Vec::new(alloc);
    let ended = run_desk(
        alloc,
        node,
        &mut NoBacking,
        &opening,
        &mut watch,
        &mut reader,
        &mut out,
        &mut Nobody,
    );
    Some((out, ended.ok()?))
}

/// Whether the root writes just this of these lines, over a new store.
fn says(rt: &HostRuntime, tree: &Tree, habits: Habits<'_>, lines: &[u8], said: &str) -> bool {
    let store = MemoryStore::from_bytes(Vec::new(rt.alloc()));
    match served(rt, tree, habits, store, lines) {
        None => false,
        Some((out, store)) => {
            let_go(store);
            out.as_slice() == said.as_bytes()
        }
    }
}

/// A copy of the bytes of a store.
fn copied(alloc: Global, store: &MemoryStore) -> Option<MemoryStore> {
    let bytes = Vec::from_slice(alloc, store.bytes()).ok()?;
    Some(MemoryStore::from_bytes(bytes))
}

/// Whether the next root over the log of a transaction writes just this of it.
fn says_later(rt: &HostRuntime, tree: &Tree, habits: Habits<'_>, said: &str) -> Option<bool> {
    let store = MemoryStore::from_bytes(Vec::new(rt.alloc()));
    let (_, first) = served(rt, tree, nothing(), store, lines::ENDED.as_bytes())?;
    let next = copied(rt.alloc(), &first);
    let_go(first);
    let (out, last) = served(rt, tree, habits, next?, lines::OUTCOME.as_bytes())?;
    let_go(last);
    Some(out.as_slice() == said.as_bytes())
}

/// Nothing beside the lines of the input.
pub(crate) fn nothing() -> Habits<'static> {
    Habits {
        root: ROOT,
        ask: None,
        trim_at: None,
        tells_joined: false,
        log: "some.log",
    }
}

/// That, and the log is trimmed over this length of a file that has ten bytes.
fn trims(at: u64) -> Habits<'static> {
    Habits {
        trim_at: Some(at),
        ..nothing()
    }
}

/// Says whether a row is as it must be.
fn tell(rt: &HostRuntime, name: &str, is_so: bool) -> io::Result<()> {
    let word = if is_so {
        "as it must be"
    } else {
        "not as it must be"
    };
    println!(rt; "{name}: {word}")
}

/// Says it of each row.
fn tell_rows(rt: &HostRuntime, tree: &Tree, long: &[u8]) -> io::Result<()> {
    let joins = Habits {
        tells_joined: true,
        ..nothing()
    };
    let lines = lines::JOINED.as_bytes();
    let is_so = says(rt, tree, nothing(), long, lines::LONG_SAID);
    tell(rt, "lines that are too long", is_so)?;
    let is_so = says(rt, tree, nothing(), lines, lines::PLAIN_SAID);
    tell(rt, "nothing beside", is_so)?;
    let is_so = says(rt, tree, joins, lines, lines::JOINED_SAID);
    tell(rt, "who has joined", is_so)?;
    let is_so = says_later(rt, tree, trims(10), lines::KEPT_SAID);
    tell(rt, "no trim", is_so == Some(true))?;
    let is_so = says_later(rt, tree, trims(9), lines::TRIMMED_SAID);
    tell(rt, "a trim", is_so == Some(true))?;
    tell_groups(rt, tree)
}

/// Says it of the rows of lines that are at hand.
fn tell_groups(rt: &HostRuntime, tree: &Tree) -> io::Result<()> {
    let none = after_opening(0, 0);
    let is_so = asks(rt, tree, lines::BEGUN, false, none, none);
    tell(rt, "lines that force nothing", is_so == Some(true))?;
    let each = after_opening(4, 4);
    let once = after_opening(1, 1);
    let is_so = asks(rt, tree, lines::MANY, false, each, once);
    tell(rt, "one force for many lines", is_so == Some(true))?;
    let is_so = asks(rt, tree, lines::MANY, true, once, once);
    tell(rt, "a force that fails", is_so == Some(true))
}

fn main(rt: HostRuntime) -> io::Result<()> {
    let alloc = rt.alloc();
    match (read_tree(alloc, lines::TREE), long_lines(alloc)) {
        (Ok(tree), Ok(long)) => tell_rows(&rt, &tree, &long),
        _ => println!(rt; "no memory"),
    }
}
