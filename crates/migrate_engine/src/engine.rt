//! The engine of `rstar migrate`.

ghost use Rattle.std.specs.Prelude.{◌≡◌, ℕ, List, IfErr, IfOk};
ghost use Rattle.std.specs.Io.KnownBytes.{Appends, Keeps};
ghost use Rattle.log_rules.specs.sound.Written.{AreBytes};
ghost use Rattle.migrate_engine.specs.Migrations.{IsMigrated, IsMigration, MigratesTo, NotMigrated};
ghost use Rattle.report_io.specs.Streams.{IsInput, WritesFront};
ghost use Rattle.report_io.specs.declared.status.Status.{Status as AnyStatus};

use log_records::{MigrateError, RecLog};
use log_script::{ProcessLog, bytes_of, damaged, logs_text, read_logs, refusal};
use log_store::{LogStore, MemoryStore};
use protocol::{Sequence, TreeProcess};
use report_io::{Failure, Status, read_all, write_all};
use std::alloc::{AllocError, Global};
use std::io::{Read, Write};
use tree_script::ScriptError;

/// Reads a tree with its logs, of either format, and writes the same tree and its logs by the second format,
/// in the order of the tree: the same records, without a torn tail; an empty log is its header alone. Or one
/// line that says which log is damaged where, or why the input is refused. What it wrote of logs, read again,
/// is written the same. After a failed read, or where memory is refused, nothing was written; after a failed
/// write, a beginning of the text.
pub fn run_migrate<R: Read, W: Write>(
    alloc: Global,
    reader: &mut R,
    writer: &mut W,
) -> Result<Status, Failure>
    ensures written { IfOk result (λ status. (input : List ℕ) × (text : List ℕ)
        × IsInput (R.remaining reader.old) input × IsMigration status input text
        × Appends (W.contents writer.old) (W.contents writer.new) text) }
    ensures cut { IfErr result (λ e. e ≡ Failure.Write → (input : List ℕ)
        × (text : List ℕ) × (status : AnyStatus)
        × IsInput (R.remaining reader.old) input × IsMigration status input text
        × WritesFront (W.contents writer.old) (W.contents writer.new) text) }
    ensures unread { IfErr result (λ e. e ≡ Failure.Read
        → Keeps (W.contents writer.old) (W.contents writer.new)) }
    ensures memory { IfErr result (λ e. e ≡ Failure.Memory
        → Keeps (W.contents writer.old) (W.contents writer.new)) }
{
    let input = read_all(alloc, reader)?;
    let (text, status) = answer(alloc, &input)?;
    match write_all(writer, &text) {
        Ok(()) => Ok(status),
        Err(failure) => Err(failure),
    }
}

/// The answer to an input.
fn answer(alloc: Global, input: &[u8]) -> Result<(Vec<u8>, Status), AllocError>
    ensures { IfOk result (λ r. IsMigration r.1 input.now r.0.items) }
{
    match read_logs(alloc, input) {
        Ok((tree, logs)) => migrated(alloc, tree.entries(), logs.as_slice()),
        Err(ScriptError::Fault(fault)) => Ok((refusal(alloc, fault)?, Status::Refused)),
        Err(ScriptError::Memory) => Err(AllocError),
    }
}

/// These processes and their logs by the second format; or the line of the first that is damaged.
fn migrated(
    alloc: Global,
    entries: &[TreeProcess],
    logs: &[ProcessLog],
) -> Result<(Vec<u8>, Status), AllocError>
    ensures { IfOk result (λ r. IsMigrated r.1 entries.now logs.now r.0.items) }
{
    let mut new = Vec::new(alloc);
    for entry in entries {
        match migrate(alloc, entry, bytes_of(logs, entry.id)) {
            Ok(log) => new.push(log)?,
            Err(MigrateError::Damaged(place)) => {
                return Ok((damaged(alloc, entry.id, place)?, Status::Refused));
            }
            Err(MigrateError::Memory) => return Err(AllocError),
            Err(MigrateError::Device) => unreachable!(),
        }
    }
    Ok((logs_text(alloc, entries, &new)?, Status::Ended))
}

/// The log of a process by the second format.
fn migrate(alloc: Global, entry: &TreeProcess, bytes: &[u8]) -> Result<ProcessLog, MigrateError>
    ensures ok { IfOk result (λ log. MigratesTo entry.now bytes.now log) }
    ensures err { IfErr result (λ e. NotMigrated entry.now bytes.now e) }
{
    let store = MemoryStore::from_bytes(copy_of(alloc, bytes)?);
    match RecLog::migrate(alloc, store, entry.id, entry.kind) {
        Ok(store) => Ok(ProcessLog {
            process: entry.id,
            bytes: Sequence::from_vec(copy_of(alloc, store.bytes())?),
        }),
        Err((error, _store)) => Err(error),
    }
}

/// These bytes once more.
fn copy_of(alloc: Global, bytes: &[u8]) -> Result<Vec<u8>, MigrateError>
    ensures ok { IfOk result (λ copy. copy.items ≡ bytes.now) }
    ensures bytes { AreBytes bytes.now }
    ensures err { IfErr result (λ e. e ≡ MigrateError.Memory) }
{
    match Vec::from_slice(alloc, bytes) {
        Ok(copy) => Ok(copy),
        Err(_) => Err(MigrateError::Memory),
    }
}
