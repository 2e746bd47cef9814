//! Floor: coordinator and subordinate.
//!
//! What the records of a log say of each case: where it stands, what a child in doubt is told of it, and
//! what a restart makes of it.
//!
//! ```text
//! recorded     what the records of one case say, noted record by record: where it stands, and whom they name
//! reading      one pass over the records of a log: the boot, and each case in order of its first record
//! remembered   what a restart remembers of its log, to read on from there
//! planning     what a restart appends, and what the log then says
//! answers      what an inquiry gets, by where its case stands
//! standings    where one case stands, found without memory
//! numbers      whether each case of a log was numbered in a boot that the log had reached
//! reports      whether the root's End reports what was found of a case
//! ```
#![tactic(auto)]

mod answers;
pub mod law;
mod numbers;
mod planning;
mod reading;
mod recorded;
mod remembered;
mod reports;
mod standings;

pub use answers::{answer, presumed};
pub use numbers::are_numbered;
pub use planning::{RestartPlan, plan};
pub use reading::{CaseReading, is_own};
pub use recorded::{CaseStage, Recorded};
pub use remembered::RememberedCases;
pub use reports::is_reported;
pub use standings::standing;
