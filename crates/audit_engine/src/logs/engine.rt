//! The engine of `rstar log`.

ghost use Rattle.std.specs.Prelude.{◌≡◌, ℕ, List, IfOk, IfErr};
ghost use Rattle.std.specs.Io.KnownBytes.{Appends, Keeps};
ghost use Rattle.audit_engine.specs.logs.Reports.{IsLogReport, IsShown};
ghost use Rattle.report_io.specs.Streams.{IsInput, WritesFront};
ghost use Rattle.report_io.specs.declared.status.Status.{Status as AnyStatus};

use log_lines::push_held;
use log_records::{LogOpenError, find};
use log_script::{ProcessLog, bytes_of, damaged, read_logs, refusal};
use log_text::LogForm;
use protocol::TreeProcess;
use report_io::{Failure, Status, read_all, write_all};
use std::alloc::{AllocError, Global};
use std::io::{Read, Write};
use tree_script::ScriptError;

/// Reads a tree with its logs, and writes what each log holds, in the order of the tree: a line `log P`, a
/// line for each record with the place of its first byte, and `torn N` where the log has a torn tail; or one
/// line that says which log is damaged where, or why the input is refused. After a failed read, or where
/// memory is refused, nothing was written; after a failed write, a beginning of the text.
pub fn run_log<R: Read, W: Write>(
    alloc: Global,
    reader: &mut R,
    writer: &mut W,
) -> Result<Status, Failure>
    ensures written { IfOk result (λ status. (input : List ℕ) × (text : List ℕ)
        × IsInput (R.remaining reader.old) input × IsLogReport status input text
        × Appends (W.contents writer.old) (W.contents writer.new) text) }
    ensures cut { IfErr result (λ e. e ≡ Failure.Write → (input : List ℕ)
        × (text : List ℕ) × (status : AnyStatus)
        × IsInput (R.remaining reader.old) input × IsLogReport status input text
        × WritesFront (W.contents writer.old) (W.contents writer.new) text) }
    ensures unread { IfErr result (λ e. e ≡ Failure.Read
        → Keeps (W.contents writer.old) (W.contents writer.new)) }
    ensures memory { IfErr result (λ e. e ≡ Failure.Memory
        → Keeps (W.contents writer.old) (W.contents writer.new)) }
{
    let input = read_all(alloc, reader)?;
    let (text, status) = report(alloc, &input)?;
    match write_all(writer, &text) {
        Ok(()) => Ok(status),
        Err(failure) => Err(failure),
    }
}

/// The answer to an input.
fn report(alloc: Global, input: &[u8]) -> Result<(Vec<u8>, Status), AllocError>
    ensures { IfOk result (λ r. IsLogReport r.1 input.now r.0.items) }
{
    match read_logs(alloc, input) {
        Ok((tree, logs)) => shown(alloc, tree.entries(), logs.as_slice()),
        Err(ScriptError::Fault(fault)) => Ok((refusal(alloc, fault)?, Status::Refused)),
        Err(ScriptError::Memory) => Err(AllocError),
    }
}

/// What the logs of these processes hold; or the line of the first that is damaged.
fn shown(
    alloc: Global,
    entries: &[TreeProcess],
    logs: &[ProcessLog],
) -> Result<(Vec<u8>, Status), AllocError>
    ensures { IfOk result (λ r. IsShown r.1 entries.now logs.now r.0.items) }
{
    let mut out = Vec::new(alloc);
    for entry in entries {
        let bytes = bytes_of(logs, entry.id);
        let form = LogForm::of_bytes(bytes, entry.id, entry.kind);
        match find(alloc, form, bytes) {
            Ok(found) => push_held(alloc, &mut out, form, bytes, found)?,
            Err(LogOpenError::Damaged(place)) => {
                return Ok((damaged(alloc, entry.id, place)?, Status::Refused));
            }
            Err(LogOpenError::Memory) => return Err(AllocError),
            Err(LogOpenError::Device | LogOpenError::OldFormat) => unreachable!(),
        }
    }
    Ok((out, Status::Ended))
}
