//! The tree of processes.

ghost use Rattle.std.specs.Prelude.{◌≡◌, ◌≤◌, ◌&&◌, OnOk, IfErr, IfSome, count_by, find, length};
ghost use Rattle.std.specs.Option.{option_copied};
ghost use Rattle.std.specs.List.{list_any};
ghost use Rattle.protocol.specs.Names.{same_process};
ghost use Rattle.protocol.specs.Nodes.{is_listed};
ghost use Rattle.protocol.specs.Trees.{tree_error_number, times_listed, lists_twice, is_unlisted, has_unknown_parent, parent_of, level_within, has_cycle, is_too_deep, has_wrong_roots, is_listed_manager, has_managed_child, has_fault, is_managed, is_top, root_of, is_manager_kind, IsTree, IsFirstFault};

use crate::names::{Kind, ProcessId};
use short_bytes::Bytes;
use std::marker::Model;
use thiserror::Error;

/// The most processes in a tree.
pub const MOST_PROCESSES: usize = 64;

/// The most levels of a tree; the root's is the first.
pub const MOST_LEVELS: usize = 8;

/// A process as a tree lists it. `info` is a manager's text for xa_open, of 0 to 32 ASCII letters; it is
/// kept, and opening a tree does not look at it.
#[derive(Drop)]
pub struct TreeProcess {
    pub id: ProcessId,
    pub kind: Kind,
    pub parent: Option<ProcessId>,
    pub info: Option<Bytes>,
}

/// The processes that a tree text lists, in its order. `check` says whether they are a tree.
#[derive(Drop)]
pub struct Tree {
    entries: Vec<TreeProcess>,
}

impl Model for Tree {
    ghost use Rattle.std.specs.Prelude.{List};
    ghost use Rattle.protocol.specs.declared.trees.TreeProcess.{TreeProcess};

    ghost Value = { List TreeProcess };

    ghost view = { λ t. t.entries.items };
}

/// Why a list of processes is no tree.
#[derive(Clone, Copy, Debug, PartialEq, Eq, Error)]
pub enum TreeError {
    /// No process at all.
    #[error("no process")]
    Empty,
    /// More than 64 processes.
    #[error("more than 64 processes")]
    TooMany,
    /// More than 8 levels, the root's being the first.
    #[error("more than 8 levels")]
    TooDeep,
    /// A process is listed twice.
    #[error("a process is listed twice")]
    TwoParents,
    /// The parents of a process form a cycle.
    #[error("the parents of a process form a cycle")]
    Cycle,
    /// A manager has a child.
    #[error("a manager has a child")]
    ManagerWithChildren,
    /// A parent is not listed.
    #[error("a parent is not listed")]
    Unknown,
    /// More than one process has no parent, or the one that has none is a manager.
    #[error("there is not exactly one coordinator without a parent")]
    Roots,
}

impl TreeError {
    /// The number that is printed, 1 to 8.
    pub fn number(self) -> u8
        ensures { result ≡ tree_error_number self }
    {
        match self {
            TreeError::Empty => 1,
            TreeError::TooMany => 2,
            TreeError::TooDeep => 3,
            TreeError::TwoParents => 4,
            TreeError::Cycle => 5,
            TreeError::ManagerWithChildren => 6,
            TreeError::Unknown => 7,
            TreeError::Roots => 8,
        }
    }
}

impl Tree {
    /// These processes, in this order.
    pub fn from_vec(entries: Vec<TreeProcess>) -> Self
        ensures { result ≡ entries.items }
    {
        Tree { entries }
    }

    /// The processes, in the order of the tree text.
    pub fn entries(&self) -> &[TreeProcess]
        ensures { result.now ≡ self.now }
    {
        &self.entries
    }

    /// The first entry of a process, if it is listed.
    #[tactic(auto, unfolding(crate::specs::Names::same_process))]
    pub fn entry(&self, id: ProcessId) -> Option<&TreeProcess>
        ensures { option_copied result ≡ find (λ e. same_process e.id id) self.now }
    {
        entry_of(&self.entries, id)
    }

    /// The parent of a process, if it is listed and has one.
    pub fn parent(&self, id: ProcessId) -> Option<ProcessId>
        ensures { result ≡ parent_of self.now id }
    {
        parent_of(&self.entries, id)
    }

    /// Whether a process is listed.
    pub fn is_listed(&self, id: ProcessId) -> bool
        ensures { result ≡ is_listed self.now id }
    {
        is_listed(&self.entries, id)
    }

    /// The first process without a parent, which is the root of a tree; process 0, which no tree text lists,
    /// where every process has one.
    #[tactic(auto, unfolding(crate::specs::Trees::root_of))]
    pub fn root(&self) -> ProcessId
        ensures { result ≡ root_of self.now }
    {
        match top_of(&self.entries) {
            None => ProcessId(0),
            Some(entry) => entry.id,
        }
    }

    /// Whether the processes are a tree. It takes no memory. The faults are looked for in this order: Empty,
    /// TooMany, TwoParents, Unknown, Cycle, Roots, ManagerWithChildren, TooDeep; the first is answered.
    pub fn check(&self) -> Result<(), TreeError>
        ensures ok { OnOk result (IsTree self.now) }
        ensures err { IfErr result (λ error. IsFirstFault self.now error) }
    {
        let entries = self.entries();
        if entries.is_empty() {
            return Err(TreeError::Empty);
        }
        if entries.len() > MOST_PROCESSES {
            return Err(TreeError::TooMany);
        }
        if lists_twice(entries) {
            return Err(TreeError::TwoParents);
        }
        if names_unlisted_parent(entries) {
            return Err(TreeError::Unknown);
        }
        if climbs_without_end(entries) {
            return Err(TreeError::Cycle);
        }
        if has_other_roots(entries) {
            return Err(TreeError::Roots);
        }
        if has_child_of_manager(entries) {
            return Err(TreeError::ManagerWithChildren);
        }
        if climbs_too_high(entries) {
            return Err(TreeError::TooDeep);
        }
        Ok(())
    }
}

#[tactic(auto, unfolding(crate::specs::Nodes::is_listed, crate::specs::Names::same_process))]
fn is_listed(entries: &[TreeProcess], id: ProcessId) -> bool
    ensures { result ≡ is_listed entries.now id }
{
    entries.iter().any(|entry| entry.id == id)
}

#[tactic(auto, unfolding(crate::specs::Trees::times_listed, crate::specs::Names::same_process))]
fn times_listed(entries: &[TreeProcess], id: ProcessId) -> usize
    ensures { result ≡ times_listed entries.now id }
{
    entries.iter().filter(|entry| entry.id == id).count()
}

#[tactic(auto, unfolding(crate::specs::Trees::lists_twice))]
fn lists_twice(entries: &[TreeProcess]) -> bool
    ensures { result ≡ lists_twice entries.now }
{
    entries
        .iter()
        .any(|entry| times_listed(entries, entry.id) > 1)
}

fn is_unlisted_parent(entries: &[TreeProcess], parent: Option<ProcessId>) -> bool
    ensures { result ≡ is_unlisted entries.now parent }
{
    match parent {
        None => false,
        Some(id) => !is_listed(entries, id),
    }
}

#[tactic(auto, unfolding(crate::specs::Trees::has_unknown_parent))]
fn names_unlisted_parent(entries: &[TreeProcess]) -> bool
    ensures { result ≡ has_unknown_parent entries.now }
{
    entries
        .iter()
        .any(|entry| is_unlisted_parent(entries, entry.parent))
}

#[tactic(auto, unfolding(crate::specs::Names::same_process))]
fn entry_of(entries: &[TreeProcess], id: ProcessId) -> Option<&TreeProcess>
    ensures { option_copied result ≡ find (λ e. same_process e.id id) entries.now }
{
    entries.iter().find(|entry| entry.id == id)
}

#[tactic(auto, unfolding(crate::specs::Trees::parent_of))]
fn parent_of(entries: &[TreeProcess], id: ProcessId) -> Option<ProcessId>
    ensures { result ≡ parent_of entries.now id }
{
    match entry_of(entries, id) {
        None => None,
        Some(entry) => entry.parent,
    }
}

/// The level of a process, if a climb to the parents ends within N steps.
fn level(entries: &[TreeProcess], id: ProcessId, steps: usize) -> Option<usize>
    ensures climbs { result ≡ level_within steps entries.now id }
    ensures within { IfSome result (λ n. n ≤ steps) }
{
    if steps == 0 {
        return None;
    }
    match parent_of(entries, id) {
        None => Some(1),
        Some(parent) => match level(entries, parent, steps - 1) {
            None => None,
            Some(above) => Some(above + 1),
        },
    }
}

#[tactic(auto, unfolding(crate::specs::Trees::has_cycle))]
fn climbs_without_end(entries: &[TreeProcess]) -> bool
    ensures { result ≡ has_cycle entries.now }
{
    entries
        .iter()
        .any(|entry| level(entries, entry.id, entries.len()).is_none())
}

/// The first of these processes that has no parent.
fn top_of(entries: &[TreeProcess]) -> Option<&TreeProcess>
    ensures { option_copied result ≡ find is_top entries.now }
{
    entries.iter().find(|entry| entry.parent.is_none())
}

fn count_tops(entries: &[TreeProcess]) -> usize
    ensures { result ≡ count_by is_top entries.now }
{
    entries
        .iter()
        .filter(|entry| entry.parent.is_none())
        .count()
}

fn has_manager_on_top(entries: &[TreeProcess]) -> bool
    ensures { result ≡ list_any (λ e. is_top e && is_manager_kind e.kind) entries.now }
{
    entries.iter().any(|entry| entry.parent.is_none() && matches!(entry.kind, Kind::Manager))
}

#[tactic(auto, unfolding(crate::specs::Trees::has_wrong_roots))]
fn has_other_roots(entries: &[TreeProcess]) -> bool
    ensures { result ≡ has_wrong_roots entries.now }
{
    count_tops(entries) > 1 || has_manager_on_top(entries)
}

#[tactic(auto, unfolding(crate::specs::Trees::is_listed_manager, crate::specs::Names::same_process))]
fn is_manager(entries: &[TreeProcess], id: ProcessId) -> bool
    ensures { result ≡ is_listed_manager entries.now id }
{
    entries.iter().any(|entry| entry.id == id && matches!(entry.kind, Kind::Manager))
}

fn is_managed(entries: &[TreeProcess], parent: Option<ProcessId>) -> bool
    ensures { result ≡ is_managed entries.now parent }
{
    match parent {
        None => false,
        Some(id) => is_manager(entries, id),
    }
}

#[tactic(auto, unfolding(crate::specs::Trees::has_managed_child))]
fn has_child_of_manager(entries: &[TreeProcess]) -> bool
    ensures { result ≡ has_managed_child entries.now }
{
    entries
        .iter()
        .any(|entry| is_managed(entries, entry.parent))
}

#[tactic(auto, unfolding(crate::specs::Trees::is_too_deep))]
fn climbs_too_high(entries: &[TreeProcess]) -> bool
    ensures { result ≡ is_too_deep entries.now }
{
    entries.iter().any(|entry| {
        match level(entries, entry.id, entries.len()) {
            None => false,
            Some(level) => level > MOST_LEVELS,
        }
    })
}
