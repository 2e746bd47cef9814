//! The engine of `rstar audit`.

ghost use Rattle.std.specs.Prelude.{◌≡◌, ℕ, List, IfOk, IfErr};
ghost use Rattle.std.specs.Io.KnownBytes.{Appends, Keeps};
ghost use Rattle.audit_engine.specs.Audits.{IsAuditReport, IsAudited, IsTrueReport, ending_by};
ghost use Rattle.audit_engine.specs.declared.ending.AuditStatus.{AuditStatus as AnyEnding};
ghost use Rattle.report_io.specs.Streams.{IsInput, WritesFront};
ghost use Rattle.protocol.specs.Trees.{IsTree};

use crate::detail::Detail;
use crate::ending::AuditStatus;
use crate::lines::told;
use audit_tree::{AuditError, Report, all_notes, audit_notes};
use log_script::{ProcessLog, damaged, read_logs, refusal};
use protocol::Tree;
use report_io::{Failure, read_all, write_all};
use std::alloc::{AllocError, Global};
use std::io::{Read, Write};
use tree_script::ScriptError;

/// Reads a tree with its logs, audits them, and writes a line for each case that is told of and the number
/// of mismatches; as the detail asks, after a line that is in doubt or shows a mismatch what decided it and
/// what to do, and after a root's that reports tickets who reported each and what to do. Or one line that
/// says which log is damaged where, or why the input is refused.
///
/// Where a run of the model left the logs, with no process failed, each outcome is that of its transaction
/// in the run, and the mismatches that are shown are just those that stand. After a failed read, or where
/// memory is refused, nothing was written; after a failed write, a beginning of the text.
pub fn run_audit<R: Read, W: Write>(
    alloc: Global,
    detail: Detail,
    reader: &mut R,
    writer: &mut W,
) -> Result<AuditStatus, Failure>
    ensures written { IfOk result (λ ending. (input : List ℕ) × (text : List ℕ)
        × IsInput (R.remaining reader.old) input × IsAuditReport detail ending input text
        × Appends (W.contents writer.old) (W.contents writer.new) text) }
    ensures true_of_runs { IfOk result (λ ending. (input : List ℕ) × (text : List ℕ)
        × IsInput (R.remaining reader.old) input × IsTrueReport detail ending input text
        × Appends (W.contents writer.old) (W.contents writer.new) text) }
    ensures cut { IfErr result (λ e. e ≡ Failure.Write → (input : List ℕ)
        × (text : List ℕ) × (ending : AnyEnding)
        × IsInput (R.remaining reader.old) input × IsAuditReport detail ending input text
        × WritesFront (W.contents writer.old) (W.contents writer.new) text) }
    ensures unread { IfErr result (λ e. e ≡ Failure.Read
        → Keeps (W.contents writer.old) (W.contents writer.new)) }
    ensures memory { IfErr result (λ e. e ≡ Failure.Memory
        → Keeps (W.contents writer.old) (W.contents writer.new)) }
{
    let input = read_all(alloc, reader)?;
    let (text, ending) = answer(alloc, detail, &input)?;
    match write_all(writer, &text) {
        Ok(()) => Ok(ending),
        Err(failure) => Err(failure),
    }
}

/// The answer to an input.
fn answer(alloc: Global, detail: Detail, input: &[u8]) -> Result<(Vec<u8>, AuditStatus), AllocError>
    ensures { IfOk result (λ r. IsAuditReport detail r.1 input.now r.0.items) }
{
    match read_logs(alloc, input) {
        Ok((tree, logs)) => audited(alloc, detail, &tree, logs.as_slice()),
        Err(ScriptError::Fault(fault)) => Ok((refusal(alloc, fault)?, AuditStatus::Refused)),
        Err(ScriptError::Memory) => Err(AllocError),
    }
}

/// What is written of the logs of a tree.
fn audited(
    alloc: Global,
    detail: Detail,
    tree: &Tree,
    logs: &[ProcessLog],
) -> Result<(Vec<u8>, AuditStatus), AllocError>
    requires { IsTree tree.now }
    ensures { IfOk result (λ r. IsAudited detail r.1 tree.now logs.now r.0.items) }
{
    match all_notes(alloc, tree, logs) {
        Ok(notes) => {
            let report = audit_notes(alloc, tree, &notes)?;
            Ok((
                told(alloc, detail, tree, &notes, &report)?,
                ending_of(&report),
            ))
        }
        Err(AuditError::Damaged(process, place)) => {
            Ok((damaged(alloc, process, place)?, AuditStatus::Refused))
        }
        Err(AuditError::Memory) => Err(AllocError),
    }
}

/// How an audit with this report ends.
fn ending_of(report: &Report) -> AuditStatus
    ensures { result ≡ ending_by report.now.mismatches }
{
    if report.mismatches == 0 {
        AuditStatus::Agrees
    } else {
        AuditStatus::Differs
    }
}
