//! The number of cases in doubt.

ghost use Rattle.std.specs.Prelude.{◌≡◌, IfNone, IfOk, IfSome};
ghost use Rattle.doubt_count.specs.Doubts.{CountsDoubts, HasNoCount, doubts_of, is_doubt};

use audit_tree::{AuditError, Own, ReportLine, audit};
use log_script::read_logs;
use std::alloc::{AllocError, Global};
use tree_script::ScriptError;

/// Whether a case is in doubt: its process promised, and knows no outcome.
fn is_doubt(own: Own) -> bool
    ensures { result ≡ is_doubt own }
{
    match own {
        Own::InDoubt => true,
        Own::Commit | Own::Abort | Own::Collecting | Own::HeurCommit | Own::HeurRollback => false,
    }
}

/// How many of these lines are of a case in doubt.
fn doubts_of(lines: &[ReportLine]) -> usize
    ensures { result ≡ doubts_of lines.now }
{
    lines.iter().filter(|line| is_doubt(line.own)).count()
}

/// How many cases are in doubt by the logs that an input says, as `rstar audit` reads it: a case is in doubt
/// if its own process promised and knows no outcome, and no operator decided it. None: the input is refused,
/// or one of its logs is damaged. An error says that memory was refused.
pub fn count_doubts(alloc: Global, input: &[u8]) -> Result<Option<usize>, AllocError>
    ensures counted { IfOk result (λ count. IfSome count (CountsDoubts input.now)) }
    ensures none { IfOk result (λ count. IfNone count (HasNoCount input.now)) }
{
    let (tree, logs) = match read_logs(alloc, input) {
        Ok(read) => read,
        Err(ScriptError::Fault(_)) => return Ok(None),
        Err(ScriptError::Memory) => return Err(AllocError),
    };
    match audit(alloc, &tree, logs.as_slice()) {
        Ok(report) => Ok(Some(doubts_of(report.lines.as_slice()))),
        Err(AuditError::Damaged(_, _)) => Ok(None),
        Err(AuditError::Memory) => Err(AllocError),
    }
}
