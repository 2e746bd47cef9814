//! One pass over each log.

ghost use Rattle.std.specs.Prelude.{◌≡◌, None, IfOk, IfErr, OnOk};
ghost use Rattle.indexmap.specs.IndexMap.{insert_entry};
ghost use Rattle.log_script.specs.Faults.{first_damage};
ghost use Rattle.protocol.specs.Trees.{IsTree};
ghost use Rattle.audit_tree.specs.Reports.{IsNoReport, kept_lists};
ghost use Rattle.audit_tree.specs.Tables.{AreNotes, IsDamage, NotesLog, frames_notes, same_id};

use crate::report::AuditError;
use audit_cases::NotedCases;
use indexmap::IndexMap;
use log_records::{LogOpenError, StoreText, find};
use log_script::{ProcessLog, bytes_of};
use log_text::{HEADER_SIZE, LogForm, ReadFault, first_frame, read_record};
use protocol::{ProcessId, Tree, TreeProcess};
use std::alloc::{AllocError, Global};

/// What is noted of each process's cases.
pub type TreeNotes = IndexMap<ProcessId, NotedCases>;

/// What the frames after a header say of the process's cases, up to the first that is no record.
fn noted(
    alloc: Global,
    form: LogForm,
    tree: &Tree,
    entry: &TreeProcess,
    frames: &[u8],
) -> Result<NotedCases, AllocError>
    requires { form.kind ≡ entry.now.kind }
    ensures { IfOk result (λ notes. notes ≡ frames_notes form tree.now entry.now frames.now) }
{
    let mut notes = NotedCases::new(alloc);
    let mut rest = frames;
    while let Some((kind, payload, behind)) = first_frame(form.format, rest) {
        match read_record(alloc, form, kind, payload) {
            Ok(record) => notes.take(tree, entry, &record)?,
            Err(ReadFault::Malformed) => return Ok(notes),
            Err(ReadFault::Memory) => return Err(AllocError),
        }
        rest = behind;
    }
    Ok(notes)
}

/// What a process's log says of its cases.
fn notes_of(
    alloc: Global,
    tree: &Tree,
    entry: &TreeProcess,
    bytes: &[u8],
) -> Result<NotedCases, AuditError>
    ensures ok { IfOk result (λ notes. NotesLog tree.now entry.now bytes.now notes) }
    ensures err { IfErr result (λ e. IsDamage entry.now bytes.now e) }
{
    let form = LogForm::of_bytes(bytes, entry.id, entry.kind);
    match find(alloc, form, bytes) {
        Ok(StoreText::Empty) => Ok(NotedCases::new(alloc)),
        Ok(StoreText::Sound(_)) => {
            let (_, frames) = bytes.split_at(HEADER_SIZE);
            Ok(noted(alloc, form, tree, entry, frames)?)
        }
        Err(LogOpenError::Damaged(place)) => Err(AuditError::Damaged(entry.id, place)),
        Err(LogOpenError::Memory) => Err(AuditError::Memory),
        Err(LogOpenError::Device | LogOpenError::OldFormat) => unreachable!(),
    }
}

/// One process more.
fn put(notes: &mut TreeNotes, process: ProcessId, new: NotedCases) -> Result<(), AllocError>
    ensures { OnOk result (notes.new.entries ≡ insert_entry same_id notes.old.entries process new) }
{
    let _ = notes.insert(process, new)?;
    Ok(())
}

/// What the log of each process says of its cases. It goes through each log once, and stops at the first
/// that is damaged.
pub fn all_notes(alloc: Global, tree: &Tree, logs: &[ProcessLog]) -> Result<TreeNotes, AuditError>
    requires { IsTree tree.now }
    ensures sound { IfOk result (λ notes. first_damage tree.now logs.now ≡ None) }
    ensures ok { IfOk result (λ notes. AreNotes tree.now (kept_lists tree.now logs.now) notes.entries) }
    ensures err { IfErr result (λ e. IsNoReport tree.now logs.now e) }
{
    let mut notes = IndexMap::new(alloc);
    let entries = tree.entries();
    for entry in entries {
        match notes_of(alloc, tree, entry, bytes_of(logs, entry.id)) {
            Ok(new) => put(&mut notes, entry.id, new)?,
            Err(error) => return Err(error),
        }
    }
    Ok(notes)
}
