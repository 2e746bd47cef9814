//! Which process is at fault, where the processes are no tree.

ghost use Rattle.std.specs.Prelude.{◌≡◌, IfOk, IfSome};
ghost use Rattle.explain_inputs.specs.Causes.{cause_of};

use protocol::{MOST_LEVELS, TreeError};
use std::alloc::{AllocError, Global};
use thiserror::Error;
use toml::{Table, Value};

/// Which process is at fault.
#[derive(Clone, Copy, Debug, PartialEq, Eq, Error)]
pub(crate) enum ProcessFault {
    #[error("there is no [[process]] before the line of three dashes")]
    NoProcess,
    #[error("{count} processes are listed")]
    TooMany { count: usize },
    #[error("process {id} is on level {level}; the root is on level 1")]
    TooDeep { id: i64, level: usize },
    #[error("process {id} is listed twice")]
    Twice { id: i64 },
    #[error("the parents of process {id} form a cycle")]
    Cycle { id: i64 },
    #[error("process {id} is a manager, but is the parent of process {child}")]
    ManagerWithChild { id: i64, child: i64 },
    #[error("the parent of process {id} is {parent}, which is not listed")]
    NoParent { id: i64, parent: i64 },
    #[error("processes {id} and {other} have no parent; only the root has none")]
    TwoRoots { id: i64, other: i64 },
    #[error("process {id} is a manager and has no parent; the root must be a coordinator")]
    ManagerOnTop { id: i64 },
}

/// A process as it is listed.
#[derive(Clone, Copy)]
struct Listed {
    id: i64,
    is_manager: bool,
    parent: Option<i64>,
}

/// A process of the list.
fn listed_of(value: &Value) -> Option<Listed> {
    let table = value.as_table()?;
    let id = table.get("id")?.as_integer()?;
    let is_manager = table.get("kind")?.as_str() == Some("manager");
    let parent = match table.get("parent") {
        None => None,
        Some(parent) => parent.as_integer(),
    };
    Some(Listed {
        id,
        is_manager,
        parent,
    })
}

/// The processes of a table, in its order.
fn listed_in(alloc: Global, table: &Table) -> Result<Vec<Listed>, AllocError> {
    let mut listed = Vec::new(alloc);
    let Some(list) = table.get("process") else {
        return Ok(listed);
    };
    let Some(values) = list.as_array() else {
        return Ok(listed);
    };
    for value in values {
        if let Some(process) = listed_of(value) {
            listed.push(process)?;
        }
    }
    Ok(listed)
}

/// The process of this id.
fn find(listed: &[Listed], id: i64) -> Option<Listed> {
    listed.iter().find(|process| process.id == id).copied()
}

/// How many levels a process is below the top; at most as many as there are processes.
fn level_of(listed: &[Listed], process: Listed) -> usize {
    let mut level: usize = 1;
    let mut parent = process.parent;
    for _ in 0..listed.len() {
        let Some(id) = parent else {
            return level;
        };
        let Some(above) = find(listed, id) else {
            return level;
        };
        parent = above.parent;
        level = level.saturating_add(1);
    }
    level
}

/// Whether the parents of a process lead back to it.
fn is_above_itself(listed: &[Listed], process: Listed) -> bool {
    let mut parent = process.parent;
    for _ in 0..listed.len() {
        let Some(id) = parent else {
            return false;
        };
        if id == process.id {
            return true;
        }
        let Some(above) = find(listed, id) else {
            return false;
        };
        parent = above.parent;
    }
    false
}

/// The first that is listed twice.
fn twice(listed: &[Listed]) -> Option<ProcessFault>
    ensures { IfSome result (λ fault. cause_of fault ≡ TreeError.TwoParents) }
{
    for (place, process) in listed.iter().enumerate() {
        if find(&listed[..place], process.id).is_some() {
            return Some(ProcessFault::Twice { id: process.id });
        }
    }
    None
}

/// The first whose parent is not listed.
fn no_parent(listed: &[Listed]) -> Option<ProcessFault>
    ensures { IfSome result (λ fault. cause_of fault ≡ TreeError.Unknown) }
{
    for process in listed {
        if let Some(parent) = process.parent {
            if find(listed, parent).is_none() {
                return Some(ProcessFault::NoParent {
                    id: process.id,
                    parent,
                });
            }
        }
    }
    None
}

/// The first whose parent is a manager.
fn manager_with_child(listed: &[Listed]) -> Option<ProcessFault>
    ensures { IfSome result (λ fault. cause_of fault ≡ TreeError.ManagerWithChildren) }
{
    for process in listed {
        let Some(parent) = process.parent else {
            continue;
        };
        let Some(above) = find(listed, parent) else {
            continue;
        };
        if above.is_manager {
            return Some(ProcessFault::ManagerWithChild {
                id: parent,
                child: process.id,
            });
        }
    }
    None
}

/// The first that is above itself.
fn cycle(listed: &[Listed]) -> Option<ProcessFault>
    ensures { IfSome result (λ fault. cause_of fault ≡ TreeError.Cycle) }
{
    let process = listed
        .iter()
        .find(|process| is_above_itself(listed, **process))?;
    Some(ProcessFault::Cycle { id: process.id })
}

/// The first that is too deep.
fn too_deep(listed: &[Listed]) -> Option<ProcessFault>
    ensures { IfSome result (λ fault. cause_of fault ≡ TreeError.TooDeep) }
{
    for process in listed {
        let level = level_of(listed, *process);
        if level > MOST_LEVELS {
            return Some(ProcessFault::TooDeep {
                id: process.id,
                level,
            });
        }
    }
    None
}

/// The two first without a parent, or the one that is a manager.
fn roots(listed: &[Listed]) -> Option<ProcessFault>
    ensures { IfSome result (λ fault. cause_of fault ≡ TreeError.Roots) }
{
    let mut first: Option<Listed> = None;
    for process in listed {
        if process.parent.is_some() {
            continue;
        }
        if let Some(root) = first {
            return Some(ProcessFault::TwoRoots {
                id: root.id,
                other: process.id,
            });
        }
        first = Some(*process);
    }
    let root = first?;
    if root.is_manager {
        Some(ProcessFault::ManagerOnTop { id: root.id })
    } else {
        None
    }
}

/// Which process of a table is at fault, where its processes are no tree for this cause.
pub(crate) fn process_fault(
    alloc: Global,
    table: &Table,
    cause: TreeError,
) -> Result<Option<ProcessFault>, AllocError>
    ensures { IfOk result (λ found. IfSome found (λ fault. cause_of fault ≡ cause)) }
{
    let listed = listed_in(alloc, table)?;
    let listed = listed.as_slice();
    Ok(match cause {
        TreeError::Empty => Some(ProcessFault::NoProcess),
        TreeError::TooMany => Some(ProcessFault::TooMany {
            count: listed.len(),
        }),
        TreeError::TooDeep => too_deep(listed),
        TreeError::TwoParents => twice(listed),
        TreeError::Cycle => cycle(listed),
        TreeError::ManagerWithChildren => manager_with_child(listed),
        TreeError::Unknown => no_parent(listed),
        TreeError::Roots => roots(listed),
    })
}
