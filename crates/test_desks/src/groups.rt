//! Lines that are at hand: one force for all of them, counted.

use crate::{ROOT, nothing};
use desk_engine::run_desk;
use log_file::{FileStore, LogFile};
use node_desk::Watch;
use node_engine::{Nobody, start};
use protocol::Tree;
use staged_store::{FileBacking, StagedStore};
use std::io::{self, BufReader, ErrorKind};

/// How often a file was written, synced and replaced.
#[derive(Clone, Copy, Debug, PartialEq, Eq)]
pub(crate) struct Calls {
    pub(crate) writes: u64,
    pub(crate) syncs: u64,
    pub(crate) replaces: u64,
}

/// A file that counts its calls, and keeps nothing. If it is to fail, each sync does.
#[derive(Drop)]
struct CountingFile {
    calls: Calls,
    fails: bool,
}

/// One call more.
fn counted(calls: &mut u64) {
    *calls = calls.saturating_add(1);
}

impl LogFile for CountingFile {
    fn write(&mut self, _place: u64, _head: &[u8], _more: &[u8]) -> io::Result<()> {
        counted(&mut self.calls.writes);
        Ok(())
    }

    fn sync(&mut self) -> io::Result<()> {
        counted(&mut self.calls.syncs);
        if self.fails {
            Err(io::Error::from(ErrorKind::Other))
        } else {
            Ok(())
        }
    }

    fn replace(&mut self, _head: &[u8], _more: &[u8]) -> io::Result<()> {
        counted(&mut self.calls.replaces);
        Ok(())
    }
}

/// What a root wrote, whether it ended in order, and the calls of its file.
#[derive(Drop)]
pub(crate) struct Run {
    pub(crate) out: Vec<u8>,
    pub(crate) ended: bool,
    pub(crate) calls: Calls,
}

/// A run of these lines over a new log, if they are read N bytes at once: with one byte no line is at hand
/// but the one that is read.
pub(crate) fn run_lines(
    rt: &HostRuntime,
    tree: &Tree,
    lines: &[u8],
    at_once: usize,
    fails: bool,
) -> Option<Run> {
    let alloc = rt.alloc();
    let entry = tree.entry(ROOT)?;
    let mut watch = Watch::new(rt, nothing()).ok()?;
    let mut reader = BufReader::with_capacity(alloc, at_once, lines).ok()?;
    let file = CountingFile {
        calls: Calls {
            writes: 0,
            syncs: 0,
            replaces: 0,
        },
        fails,
    };
    let mut backing = FileBacking::new(FileStore::settle(file, 0, Vec::new(alloc)).ok()?);
    let store = StagedStore::from_bytes(Vec::new(alloc));
    let Ok((node, opening)) = start(alloc, tree, entry, store) else {
        return None;
    };
    let mut out = Vec::new(alloc);
    let ended = run_desk(
        alloc,
        node,
        &mut backing,
        &opening,
        &mut watch,
        &mut reader,
        &mut out,
        &mut Nobody,
    );
    Some(Run {
        out,
        ended: ended.is_ok(),
        calls: backing.into_file().into_file().calls,
    })
}

/// Whether these lines write the same line by line and many at once, and ask this of the file then.
pub(crate) fn asks(
    rt: &HostRuntime,
    tree: &Tree,
    lines: &str,
    fails: bool,
    one_by_one: Calls,
    at_once: Calls,
) -> Option<bool> {
    let single = run_lines(rt, tree, lines.as_bytes(), 1, fails)?;
    let many = run_lines(rt, tree, lines.as_bytes(), 8192, fails)?;
    Some(
        single.out == many.out
            && single.ended == many.ended
            && many.ended != fails
            && single.calls == one_by_one
            && many.calls == at_once,
    )
}

/// The calls of a new log's opening, and these after it.
pub(crate) fn after_opening(writes: u64, syncs: u64) -> Calls {
    Calls {
        writes,
        syncs,
        replaces: 2,
    }
}
