//! Carrying a log of the first format over into the second.

ghost use Rattle.std.specs.Prelude.{◌≡◌, ◌++◌, ℕ, List, true, IfErr, IfOk, OnOk};
ghost use Rattle.std.specs.List.{All};
ghost use Rattle.log_store.specs.Stores.{Replaces};
ghost use Rattle.log_text.specs.Forms.{log_form, old_form};
ghost use Rattle.log_text.specs.Payloads.{FitsFrame, records_text};
ghost use Rattle.log_records.specs.Openings.{IsNoLog, is_old};
ghost use Rattle.log_records.specs.Migrating.{Carries, Migrates, NotCarried, NotMigrated, error_of_open, migrate_error_number};

use crate::log::{RecLog, body, records_in, replaced, settled};
use crate::opening::{LogOpenError, find, is_old};
use log_store::LogStore;
use log_text::{Frame, LogForm, LogFormat};
use protocol::{Kind, LogRecord, ProcessId};
use std::alloc::{AllocError, Global};
use thiserror::Error;

/// Why a log was not migrated.
#[derive(Clone, Copy, Debug, PartialEq, Eq, Error)]
pub enum MigrateError {
    /// There was no memory; the store is as it was.
    #[error("no memory")]
    Memory,
    /// The device failed, as the log was put in place: what stood there stands, or the log of the second
    /// format.
    #[error("the device failed")]
    Device,
    /// The bytes are no log: the first byte of the first frame that is wrong, 0 for the header.
    #[error("damaged at byte {0}")]
    Damaged(usize),
}

impl MigrateError {
    /// The number of the refusal, from 1 to 3.
    pub fn number(self) -> u8
        ensures { result ≡ migrate_error_number self }
    {
        match self {
            MigrateError::Memory => 1,
            MigrateError::Device => 2,
            MigrateError::Damaged(_) => 3,
        }
    }
}

/// The refusal of a migration for that of an opening.
fn migrate_error(error: LogOpenError) -> MigrateError
    ensures { result ≡ error_of_open error }
{
    match error {
        LogOpenError::Damaged(place) => MigrateError::Damaged(place),
        LogOpenError::Device => MigrateError::Device,
        _ => MigrateError::Memory,
    }
}

/// Adds the frames of these records in a log of this form, which is that of a process.
#[tactic(auto, unfolding(log_text::specs::Payloads::records_text))]
fn push_records(
    alloc: Global,
    text: &mut Vec<u8>,
    form: LogForm,
    records: &[LogRecord],
) -> Result<(), AllocError>
    requires second { form.format ≡ LogFormat.Second }
    requires fit { All FitsFrame records.now }
    ensures { OnOk result (text.new.items ≡ text.old.items ++ records_text form records.now) }
{
    for record in records {
        let frame = Frame::of(alloc, &record.entry, record.parent)?;
        frame.push(form, text)?;
    }
    Ok(())
}

/// The text of a log of the first format, carried over into this form: the same records, without a torn tail.
fn carried_text(alloc: Global, form: LogForm, bytes: &[u8]) -> Result<Vec<u8>, LogOpenError>
    requires second { form.format ≡ LogFormat.Second }
    requires old { is_old bytes.now ≡ true }
    ensures ok { IfOk result (λ text. Carries form bytes.now text.items) }
    ensures err { IfErr result (λ e. IsNoLog (old_form form) bytes.now e) }
{
    let _ = find(alloc, form.old(), bytes)?;
    let records = records_in(alloc, form.old(), body(bytes))?;
    let mut text = Vec::from_slice(alloc, &form.format.header())?;
    push_records(alloc, &mut text, form, &records)?;
    Ok(text)
}

/// A store in which a log of the first format is carried over into this form.
fn carried<L: LogStore + Drop>(
    alloc: Global,
    form: LogForm,
    store: L,
) -> Result<L, (LogOpenError, L)>
    requires second { form.format ≡ LogFormat.Second }
    requires old { is_old (L.bytes store) ≡ true }
    ensures ok { IfOk result (λ new. (text : List ℕ) × Carries form (L.bytes store) text
        × Replaces L.bytes L.forced L.failures store new text) }
    ensures err { IfErr result (λ e. NotCarried L.bytes L.forced L.failures form store e.1 e.0) }
{
    match carried_text(alloc, form, store.bytes()) {
        Ok(text) => replaced(store, &text),
        Err(error) => Err((error, store)),
    }
}

impl<L: LogStore + Drop> RecLog<L> {
    /// Gives the store back with the log of this process in the second format. One of the first format is
    /// carried over: the same records, all of them forced, without a torn tail, by one `replace`. One of the
    /// second only loses its torn tail, and an empty log is given its header. Memory, Damaged: nothing
    /// changed. Device: the old bytes stand or the new.
    pub fn migrate(
        alloc: Global,
        store: L,
        process: ProcessId,
        kind: Kind,
    ) -> Result<L, (MigrateError, L)>
        ensures ok { IfOk result (λ new. Migrates L.bytes L.forced L.failures (log_form process kind)
            store new) }
        ensures err { IfErr result (λ e. NotMigrated L.bytes L.forced L.failures (log_form process kind)
            store e.1 e.0) }
    {
        let form = LogForm::of(process, kind);
        let migrated = if is_old(store.bytes()) {
            carried(alloc, form, store)
        } else {
            settled(alloc, form, store)
        };
        match migrated {
            Ok(store) => Ok(store),
            Err((error, store)) => Err((migrate_error(error), store)),
        }
    }
}
