//! What an audit finds.

ghost use Rattle.std.specs.Prelude.{◌≡◌};
ghost use Rattle.audit_tree.specs.Reports.{audit_error_number};

use audit_cases::Own;
use protocol::{Case, Outcome, ProcessId, Reports};
use std::alloc::AllocError;
use thiserror::Error;

/// What an audit says of a case.
#[derive(Drop)]
pub struct ReportLine {
    pub case: Case,
    /// How the case stands by the records of its own process.
    pub own: Own,
    /// Its own decision, or what it was told; none where it is in doubt, or ended with no decision. One that
    /// collects votes, and has not come further, will abort.
    pub decision: Option<Outcome>,
    /// How its transaction ends.
    pub outcome: Outcome,
    /// Whether an operator decided it the other way.
    pub mismatch: bool,
    /// At the root what its End reports, until that is cleared.
    pub reports: Option<Reports>,
}

/// A line for each case that is told of, in the order of the tree; in a coordinator of first records, in a
/// manager of last promises; and how many show a mismatch.
#[derive(Drop)]
pub struct Report {
    pub lines: Vec<ReportLine>,
    pub mismatches: usize,
}

/// Why there is no report.
#[derive(Clone, Copy, Debug, PartialEq, Eq, Error)]
pub enum AuditError {
    /// There was no memory.
    #[error("no memory")]
    Memory,
    /// The first damaged log in the order of the tree: its process, and the first byte of the frame that is
    /// wrong, 0 for the header.
    #[error("the log of process {0} is damaged at byte {1}")]
    Damaged(ProcessId, usize),
}

impl AuditError {
    /// The number of the error: 1 for a log that is damaged, 2 for want of memory.
    pub fn number(self) -> u8
        ensures { result ≡ audit_error_number self }
    {
        match self {
            AuditError::Damaged(_, _) => 1,
            AuditError::Memory => 2,
        }
    }
}

impl From<AllocError> for AuditError {
    ghost use Rattle.audit_tree.specs.declared.report.AuditError.TheVariants.{Memory};
    ghost use Rattle.std.specs.Prelude.{◌≡◌};

    ghost from_gives = { λ _ e. e ≡ Memory };

    fn from(_e: AllocError) -> AuditError {
        AuditError::Memory
    }
}
