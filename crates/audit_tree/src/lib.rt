//! Floor: engines and program.
//!
//! The auditor: from a tree and its processes' logs each case that is still told of, with its own standing
//! and its transaction's outcome.
//!
//! ```text
//! report     a line a case, and the number of mismatches
//! logs       one pass over each log, in the order of the tree
//! parents    what each parent says of its children's cases, from the root down
//! auditing   the whole of it
//! ```
#![tactic(auto)]

mod auditing;
pub mod law;
mod logs;
mod parents;
mod report;

pub use audit_cases::Own;
pub use auditing::{audit, audit_notes};
pub use logs::{TreeNotes, all_notes};
pub use report::{AuditError, Report, ReportLine};
