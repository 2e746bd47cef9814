//! Floor: engines and program.
//!
//! The engines that read the logs of a tree. That of `rstar audit` says how each case stands and ends by
//! them, and where an operator decided otherwise; that of `rstar log` says what they hold.
//!
//! ```text
//! engine     the engine of `rstar audit`
//! detail     how much is written of an audit
//! ending     how an audit ends
//! lines      the text of its report
//! explain    why a case stands as its line says, who reported what, and what to do
//! steps      a step upward, and what is to be done about a case
//! namings    of each child's case the parent's first case that names it, in one pass over what is noted
//! chains     the steps from a case upward
//! logs       the engine of `rstar log`, and the lines of records
//! ```
#![tactic(auto)]

mod chains;
mod detail;
mod ending;
mod engine;
mod explain;
mod lines;
mod logs;
mod namings;
mod steps;

pub use chains::{all_namings, steps_of};
pub use detail::Detail;
pub use ending::AuditStatus;
pub use engine::run_audit;
pub use logs::run_log;
pub use namings::{Namings, TreeNamings};
pub use steps::{AuditStep, Stands, StepDeed, StepFound};
