//! Which key or value of a tree text is at fault.

use explain_lines::{Near, nearest};
use std::alloc::Global;
use thiserror::Error;
use toml::{Table, Value};

/// Why a text is no tree's. `entry` counts the processes of the list from 1.
#[derive(Clone, Copy, Debug, Error)]
pub(crate) enum DocumentFault<'a> {
    #[error("`{key:.40}` is not a key of a tree text{near}")]
    TextKey {
        key: &'a str,
        near: Near,
    },
    #[error("`process` is not a list of tables")]
    NoList,
    #[error("process {entry} of the list is not a table")]
    NoTable {
        entry: usize,
    },
    #[error("process {entry} of the list: `{key:.40}` is not a key of a process{near}")]
    Key {
        entry: usize,
        key: &'a str,
        near: Near,
    },
    #[error("process {entry} of the list: `{key}` is missing")]
    Missing {
        entry: usize,
        key: &'static str,
    },
    #[error("process {entry} of the list: `{key}` is not a number from 1 to 4294967295")]
    Number {
        entry: usize,
        key: &'static str,
    },
    #[error("process {entry} of the list: `{kind:.40}` is not a kind{near}")]
    Kind {
        entry: usize,
        kind: &'a str,
        near: Near,
    },
    #[error("process {entry} of the list: `kind` is not a text")]
    KindNoText {
        entry: usize,
    },
    #[error("process {entry} of the list: `info` is not a text of at most 32 letters")]
    Info {
        entry: usize,
    },
    #[error("process {entry} of the list is a coordinator, and has no `info`")]
    InfoAtCoordinator {
        entry: usize,
    },
}

impl DocumentFault<'_> {
    /// What is wanted.
    pub(crate) fn wanted(&self) -> &'static str {
        match self {
            DocumentFault::TextKey { .. } | DocumentFault::NoList | DocumentFault::NoTable { .. } =>
                { "[[process]] before the keys of each process" }
            DocumentFault::Key { .. } => "id, kind, parent or, at a manager, info",
            DocumentFault::Missing { key: "kind", .. }
            | DocumentFault::Kind { .. }
            | DocumentFault::KindNoText { .. } => "kind = \"coordinator\" or kind = \"manager\"",
            DocumentFault::Missing { .. } => "id = 1, or another number",
            DocumentFault::Number { key: "parent", .. } => {
                "parent = 1, or another id; the root has none"
            }
            DocumentFault::Number { .. } => "id = 1, or another number",
            DocumentFault::Info { .. } | DocumentFault::InfoAtCoordinator { .. } => {
                "info = \"letters\", at a manager"
            }
        }
    }
}

/// The keys of a process.
const KEYS: [&str; 4] = ["id", "kind", "parent", "info"];

/// The kinds of processes.
const KINDS: [&str; 2] = ["coordinator", "manager"];

/// Whether a value is the id of a process.
fn is_id(value: &Value) -> bool {
    match value.as_integer() {
        Some(number) => 1 <= number && number <= 4_294_967_295,
        None => false,
    }
}

/// Whether a value is an info.
fn is_info(value: &Value) -> bool {
    match value.as_str() {
        Some(text) => text.len() <= 32 && text.bytes().all(|b| b.is_ascii_alphabetic()),
        None => false,
    }
}

/// The key of a table that is none of these.
fn strange_key<'a>(table: &'a Table, keys: &[&'static str]) -> Option<&'a str> {
    for key in table.keys() {
        if !keys.iter().any(|known| *known == key.as_str()) {
            return Some(key.as_str());
        }
    }
    None
}

/// What is wrong with the kind of a process.
fn kind_fault(entry: usize, table: &Table) -> Option<DocumentFault<'_>> {
    let Some(value) = table.get("kind") else {
        return Some(DocumentFault::Missing { entry, key: "kind" });
    };
    match value.as_str() {
        None => Some(DocumentFault::KindNoText { entry }),
        Some(kind) if KINDS.contains(&kind) => None,
        Some(kind) => Some(DocumentFault::Kind {
            entry,
            kind,
            near: Near(nearest(kind, &KINDS)),
        }),
    }
}

/// What is wrong with the numbers of a process.
fn number_fault(entry: usize, table: &Table) -> Option<DocumentFault<'_>> {
    let Some(id) = table.get("id") else {
        return Some(DocumentFault::Missing { entry, key: "id" });
    };
    if !is_id(id) {
        return Some(DocumentFault::Number { entry, key: "id" });
    }
    match table.get("parent") {
        Some(parent) if !is_id(parent) => Some(DocumentFault::Number {
            entry,
            key: "parent",
        }),
        _ => None,
    }
}

/// What is wrong with the info of a process.
fn info_fault(entry: usize, table: &Table) -> Option<DocumentFault<'_>> {
    let info = table.get("info")?;
    if !is_info(info) {
        return Some(DocumentFault::Info { entry });
    }
    match table.get("kind")?.as_str() {
        Some("coordinator") => Some(DocumentFault::InfoAtCoordinator { entry }),
        _ => None,
    }
}

/// What is wrong with a process of the list.
fn process_fault(entry: usize, value: &Value) -> Option<DocumentFault<'_>> {
    let Some(table) = value.as_table() else {
        return Some(DocumentFault::NoTable { entry });
    };
    if let Some(key) = strange_key(table, &KEYS) {
        return Some(DocumentFault::Key {
            entry,
            key,
            near: Near(nearest(key, &KEYS)),
        });
    }
    if let Some(fault) = number_fault(entry, table) {
        return Some(fault);
    }
    if let Some(fault) = kind_fault(entry, table) {
        return Some(fault);
    }
    info_fault(entry, table)
}

/// What is wrong with the table of a tree text; None, if nothing is.
pub(crate) fn table_fault(table: &Table) -> Option<DocumentFault<'_>> {
    if let Some(key) = strange_key(table, &["process"]) {
        return Some(DocumentFault::TextKey {
            key,
            near: Near(nearest(key, &["process"])),
        });
    }
    let list = table.get("process")?;
    let Some(values) = list.as_array() else {
        return Some(DocumentFault::NoList);
    };
    for (place, value) in values.iter().enumerate() {
        let fault = process_fault(place.saturating_add(1), value);
        if fault.is_some() {
            return fault;
        }
    }
    None
}
