//! The scans of a recover, and what a thread may read.

ghost use Rattle.std.specs.Prelude.{◌≡◌, ◌==◌, ◌&&◌, ◌||◌, not, IfOk, filter, map, fold, drop, take, if◌then◌else◌};
ghost use Rattle.judge_state.specs.Parts.{is_in_doubt};
ghost use Rattle.judge_state.specs.Scans.{are_distinct, due_lines, given_lines, has, has_value, has_worked, held_after, is_worked, is_written, may_give, may_hold, may_read, may_read_in, owes, owes_only, scan_closed, scan_given, scan_opened, with_given};

use crate::lists::{listed_of_others, numbers_without};
use crate::parts::{JudgedBranch, JudgedWrite, Listed};
use crate::state::State;
use std::alloc::{AllocError, Global};

/// Whether a list has a number.
fn has(numbers: &[u32], x: u32) -> bool
    ensures { result ≡ has numbers.now x }
{
    numbers.iter().any(|y| *y == x)
}

/// Whether no number is twice in a list.
pub fn are_distinct(numbers: &[u32]) -> bool
    ensures { result ≡ are_distinct numbers.now }
{
    match numbers {
        [] => true,
        [x, rest @ ..] => !has(rest, *x) && are_distinct(rest),
    }
}

/// The list of a new scan: each branch that is in doubt may be given, and is due.
fn due_lines(
    alloc: Global,
    thread: u32,
    branches: &[JudgedBranch],
) -> Result<Vec<Listed>, AllocError>
    ensures { IfOk result (λ v. v.items ≡ due_lines thread branches.now) }
{
    branches
        .iter()
        .filter(|b| b.is_in_doubt())
        .map(|b| Listed {
            thread,
            branch: b.name,
            given: false,
            due: true,
        })
        .collect(alloc)
}

/// A line of a list that was given.
fn with_given(mut line: Listed) -> Listed
    ensures { result ≡ with_given line }
{
    line.given = true;
    line
}

/// The lists of scans, on which the scan of a thread gave these branches.
fn given_lines(
    alloc: Global,
    thread: u32,
    given: &[u32],
    listed: &[Listed],
) -> Result<Vec<Listed>, AllocError>
    ensures { IfOk result (λ v. v.items ≡ given_lines thread given.now listed.now) }
{
    listed
        .iter()
        .map(|l| {
            if l.thread == thread && has(given, l.branch) {
                with_given(*l)
            } else {
                *l
            }
        })
        .collect(alloc)
}

/// Whether a value may be under a key after one more commit.
fn held_after(key: u32, value: u32, held: bool, write: &JudgedWrite) -> bool
    ensures { result ≡ held_after key value held write.now }
{
    if write.key == key {
        write.value == value || (!write.sure && held)
    } else {
        held
    }
}

/// Whether a value may be the one under a key after these commits.
fn may_hold(key: u32, value: u32, writes: &[JudgedWrite]) -> bool
    ensures { result ≡ may_hold key value writes.now }
{
    writes.iter().fold(
        value == 0,
        |held, write| held_after(key, value, held, write),
    )
}

/// Whether a value was committed under a key.
fn is_written(key: u32, value: u32, writes: &[JudgedWrite]) -> bool
    ensures { result ≡ is_written key value writes.now }
{
    writes.iter().any(|w| w.key == key && w.value == value)
}

/// Whether a value was the committed one under a key when this many were committed, or later.
fn may_read_in(since: usize, key: u32, value: u32, writes: &[JudgedWrite]) -> bool
    ensures { result ≡ may_read_in since key value writes.now }
{
    if since <= writes.len() {
        let (before, after) = writes.split_at(since);
        may_hold(key, value, before) || is_written(key, value, after)
    } else {
        may_hold(key, value, writes)
    }
}

impl State {
    /// The scan of a thread is closed.
    pub fn scan_closed(mut self, alloc: Global, thread: u32) -> Result<State, AllocError>
        ensures { IfOk result (λ state. state ≡ scan_closed thread self) }
    {
        self.scans = numbers_without(alloc, thread, &self.scans)?;
        self.listed = listed_of_others(alloc, thread, &self.listed)?;
        Ok(self)
    }

    /// A thread opens a scan.
    pub fn scan_opened(mut self, alloc: Global, thread: u32) -> Result<State, AllocError>
        ensures { IfOk result (λ state. state ≡ scan_opened thread self) }
    {
        let mut scans = numbers_without(alloc, thread, &self.scans)?;
        scans.push(thread)?;
        let mut listed = listed_of_others(alloc, thread, &self.listed)?;
        let lines = due_lines(alloc, thread, &self.branches)?;
        listed.extend_from_slice(&lines)?;
        self.scans = scans;
        self.listed = listed;
        Ok(self)
    }

    /// The scan of a thread gives these branches.
    pub fn scan_given(
        mut self,
        alloc: Global,
        thread: u32,
        given: &[u32],
    ) -> Result<State, AllocError>
        ensures { IfOk result (λ state. state ≡ scan_given thread given.now self) }
    {
        self.listed = given_lines(alloc, thread, given, &self.listed)?;
        Ok(self)
    }

    /// Whether the scan of a thread may give a branch.
    pub fn may_give(&self, thread: u32, x: u32) -> bool
        ensures { result ≡ may_give thread self.now x }
    {
        self.listed
            .iter()
            .any(|l| l.thread == thread && l.branch == x && !l.given)
    }

    /// Whether the scan of a thread may not end without a branch.
    pub fn owes(&self, thread: u32, x: u32) -> bool
        ensures { result ≡ owes thread x self.now }
    {
        self.listed.iter().any(|l| l.thread == thread && l.branch == x && l.due && !l.given)
    }

    /// Whether what the scan of a thread owes is among these branches.
    pub fn owes_only(&self, thread: u32, given: &[u32]) -> bool
        ensures { result ≡ owes_only thread given.now self.now }
    {
        self.listed.iter().all(|l| !(l.thread == thread && l.due && !l.given)
            || has(given, l.branch))
    }

    /// Whether a value was the committed one under a key when this many were committed, or later.
    pub fn may_read(&self, since: usize, key: u32, value: u32) -> bool
        ensures { result ≡ may_read since key value self.now }
    {
        may_read_in(since, key, value, &self.values)
    }

    /// Whether some branch has written a value under a key.
    pub fn is_worked(&self, key: u32, value: u32) -> bool
        ensures { result ≡ is_worked key value self.now }
    {
        self.works.iter().any(|w| w.key == key && w.value == value)
    }

    /// Whether a branch has written some value under a key.
    pub fn has_worked(&self, x: u32, key: u32) -> bool
        ensures { result ≡ has_worked x key self.now }
    {
        self.works.iter().any(|w| w.branch == x && w.key == key)
    }

    /// Whether a branch has written this value under a key.
    pub fn has_value(&self, x: u32, key: u32, value: u32) -> bool
        ensures { result ≡ has_value x key value self.now }
    {
        self.works
            .iter()
            .any(|w| w.branch == x && w.key == key && w.value == value)
    }
}
