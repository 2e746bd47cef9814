//! Floor: coordinator and subordinate.
//!
//! The live branches of a subordinate and its active tickets, what each branch does at each of its stages,
//! and what the records of a log leave of them.
#![tactic(auto)]

mod branch;
mod cases;
mod names;
mod rebuilt;
mod table;

pub use branch::{BranchStage, LiveBranch};
pub use names::RebuildError;
pub use rebuilt::{RebuiltBranches, RememberedBranches, rebuild};
pub use table::LiveBranches;
