//! Reads the text of a tree.

ghost use Rattle.std.specs.Prelude.{◌≡◌, ◌≢◌, ℕ, List, IfOk, IfErr, IfSome, IfNone, IsTrue, ◌↔◌, option_map, codes, Option, length, All, ◌≤◌, string_bytes};
ghost use Rattle.toml.specs.Data.{Data, string, member, no_members};
ghost use Rattle.toml.specs.View.{view, items_view, table_view};
ghost use Rattle.std.specs.BTreeMap.{keys};
ghost use Rattle.protocol_words.specs.Types.{AnyProcess};
ghost use Rattle.protocol.specs.declared.trees.TreeProcess.{TreeProcess as AnyEntry};
ghost use Rattle.std.specs.Char.{IsAsciiAlphabetic};
ghost use Rattle.tree_script.specs.Documents.{
  IsId,
  IsInfo,
  kind_text,
  IsKnownKey,
  HasKnownKeys,
  May,
  MayHaveInfo,
  DescribesProcess,
  AreProcesses,
  IsTable,
  IsTreeText,
};

use protocol::{Bytes, Kind, ProcessId, Tree, TreeProcess};
use std::alloc::{AllocError, AllocFailed, Global};
use thiserror::Error;
use toml::{Table, Value};

/// Why a text is no tree.
#[derive(Clone, Copy, Debug, PartialEq, Eq, Error)]
pub enum DocumentError {
    /// There was no memory.
    #[error("no memory")]
    Memory,
    /// The text is no tree.
    #[error("no tree")]
    TreeText,
}

impl From<AllocError> for DocumentError {
    ghost use Rattle.std.specs.Prelude.{◌≡◌};
    ghost use Rattle.tree_script.specs.declared.document.DocumentError.TheVariants.{Memory};

    ghost from_gives = { λ _ e. e ≡ Memory };

    fn from(_e: AllocError) -> DocumentError {
        DocumentError::Memory
    }
}

impl<T: Drop> From<AllocFailed<T>> for DocumentError {
    ghost use Rattle.std.specs.Prelude.{◌≡◌};
    ghost use Rattle.tree_script.specs.declared.document.DocumentError.TheVariants.{Memory};

    ghost from_gives = { λ _ e. e ≡ Memory };

    fn from(_e: AllocFailed<T>) -> DocumentError {
        DocumentError::Memory
    }
}

/// The id that a value is.
fn id_of(value: &Value) -> Option<ProcessId>
    ensures found { IfSome result (λ id. IsId (view value.now) id) }
    ensures none { IfNone result ((id : AnyProcess) → IsId (view value.now) id → ⊥) }
{
    match value.as_integer() {
        Some(number) => {
            if 1 <= number && number <= 4_294_967_295 {
                Some(ProcessId(number as u32))
            } else {
                None
            }
        }
        None => None,
    }
}

/// The kind that a value names.
fn kind_of(value: &Value) -> Option<Kind>
    ensures found { IfSome result (λ kind. view value.now ≡ string (kind_text kind)) }
    ensures none { IfNone result ((view value.now ≢ string (codes "coordinator")) × (view value.now ≢ string (codes "manager"))) }
{
    match value.as_str() {
        Some(text) => {
            if text == "coordinator" {
                Some(Kind::Coordinator)
            } else if text == "manager" {
                Some(Kind::Manager)
            } else {
                None
            }
        }
        None => None,
    }
}

/// Whether a key is one that a process may have.
fn is_known_key(key: &str) -> bool
    ensures { IsTrue result ↔ IsKnownKey key.now }
{
    key == "id" || key == "kind" || key == "parent" || key == "info"
}

/// Whether each key of a table is one that a process may have.
fn keys_are_known(table: &Table) -> bool
    ensures { IsTrue result ↔ All (λ k. IsKnownKey (string_bytes k)) (keys table.now) }
{
    table.keys().all(|key| is_known_key(key.as_str()))
}

/// Whether a value has no key but those that a process may have.
fn has_known_keys(value: &Value) -> bool
    ensures { IsTrue result ↔ HasKnownKeys (view value.now) }
{
    match value.as_table() {
        Some(table) => keys_are_known(table),
        None => true,
    }
}

/// The parent that a value names, if there is one.
fn parent_of(value: Option<&Value>) -> Option<Option<ProcessId>>
    ensures found { IfSome result (λ parent. May IsId (option_map (λ v. view v.now) value.entry) parent) }
    ensures none { IfNone result ((parent : Option AnyProcess)
        → May IsId (option_map (λ v. view v.now) value.entry) parent → ⊥) }
{
    match value {
        None => Some(None),
        Some(value) => match id_of(value) {
            Some(id) => Some(Some(id)),
            None => None,
        },
    }
}

/// Whether a text may be an info.
fn is_info(text: &str) -> bool
    ensures { IsTrue result ↔ ((length text.now ≤ 32) × All IsAsciiAlphabetic text.now) }
{
    text.len() <= 32 && text.bytes().all(|b| b.is_ascii_alphabetic())
}

/// The info that a value is, if there is one.
fn info_of(alloc: Global, value: Option<&Value>) -> Result<Option<Bytes>, DocumentError>
    ensures found { IfOk result (λ info. May IsInfo (option_map (λ v. view v.now) value.entry) info) }
    ensures none { IfErr result (λ e. e ≡ DocumentError.TreeText →
        (info : Option (List ℕ)) → May IsInfo (option_map (λ v. view v.now) value.entry) info → ⊥) }
{
    let Some(value) = value else {
        return Ok(None);
    };
    match value.as_str() {
        Some(text) => {
            if is_info(text) {
                Ok(Some(Bytes::from_slice(alloc, text.as_bytes())?))
            } else {
                Err(DocumentError::TreeText)
            }
        }
        None => Err(DocumentError::TreeText),
    }
}

/// The process that a value describes.
fn process_of(alloc: Global, value: &Value) -> Result<TreeProcess, DocumentError>
    ensures found { IfOk result (λ p. DescribesProcess (view value.now) p) }
    ensures none { IfErr result (λ e. e ≡ DocumentError.TreeText → (p : AnyEntry)
        → DescribesProcess (view value.now) p → ⊥) }
{
    if !has_known_keys(value) {
        return Err(DocumentError::TreeText);
    }
    let (Some(id), Some(kind)) = (value.get("id"), value.get("kind")) else {
        return Err(DocumentError::TreeText);
    };
    let (Some(id), Some(kind)) = (id_of(id), kind_of(kind)) else {
        return Err(DocumentError::TreeText);
    };
    let Some(parent) = parent_of(value.get("parent")) else {
        return Err(DocumentError::TreeText);
    };
    match info_of(alloc, value.get("info")) {
        Ok(Some(_)) if kind == Kind::Coordinator => Err(DocumentError::TreeText),
        Ok(info) => Ok(TreeProcess {
            id,
            kind,
            parent,
            info,
        }),
        Err(e) => Err(e),
    }
}

/// The processes that these values describe.
fn processes_of(alloc: Global, values: &[Value]) -> Result<Vec<TreeProcess>, DocumentError>
    ensures found { IfOk result (λ ps. AreProcesses (items_view values.now) ps.items) }
    ensures none { IfErr result (λ e. e ≡ DocumentError.TreeText → (es : List AnyEntry)
        → AreProcesses (items_view values.now) es → ⊥) }
{
    let mut processes = Vec::new(alloc);
    for value in values {
        match process_of(alloc, value) {
            Ok(process) => processes.push(process)?,
            Err(e) => return Err(e),
        }
    }
    Ok(processes)
}

/// The value of the one key that a tree's table has.
fn only_value(table: &Table) -> Option<&Value>
    ensures found { IfSome result (λ v. table_view table.now
        ≡ member (codes "process") (view v.now) no_members) }
    ensures none { IfNone result ((d : Data) → table_view table.now
        ≡ member (codes "process") d no_members → ⊥) }
{
    if table.len() == 1 {
        table.get("process")
    } else {
        None
    }
}

/// The processes of a table.
fn tree_of(alloc: Global, table: &Table) -> Result<Vec<TreeProcess>, DocumentError>
    ensures found { IfOk result (λ ps. IsTable (table_view table.now) ps.items) }
    ensures none { IfErr result (λ e. e ≡ DocumentError.TreeText → (es : List AnyEntry)
        → IsTable (table_view table.now) es → ⊥) }
{
    if table.is_empty() {
        return Ok(Vec::new(alloc));
    }
    let Some(value) = only_value(table) else {
        return Err(DocumentError::TreeText);
    };
    match value.as_array() {
        Some(values) => processes_of(alloc, values),
        None => Err(DocumentError::TreeText),
    }
}

/// The processes of a text.
pub fn read_tree(alloc: Global, text: &str) -> Result<Tree, DocumentError>
    ensures found { IfOk result (λ tree. IsTreeText text.now tree) }
    ensures none { IfErr result (λ e. e ≡ DocumentError.TreeText → (es : List AnyEntry)
        → IsTreeText text.now es → ⊥) }
{
    match toml::table_from_str(alloc, text) {
        Ok(table) => match tree_of(alloc, &table) {
            Ok(entries) => Ok(Tree::from_vec(entries)),
            Err(e) => Err(e),
        },
        Err(e) => {
            if e.is_memory() {
                Err(DocumentError::Memory)
            } else {
                Err(DocumentError::TreeText)
            }
        }
    }
}
