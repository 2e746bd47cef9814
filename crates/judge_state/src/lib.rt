//! Floor: engines and program.
//!
//! What is known of a resource manager that is judged: one state that it may be in.
//!
//! ```text
//! links, migrated    who is associated with a branch: T1, T2, and suspended for migration
//! branches           each known branch: active or idle (S1, S2), prepared (S3), rollback only (S4), decided (S5)
//! scans, listed      the threads with an open scan, and what each scan may give, has given and still owes
//! works, values      what branches have written, and what was committed, oldest first
//! lost               what a crash may bring back prepared
//! ```
#![tactic(auto)]

mod lists;
mod moves;
mod parts;
mod questions;
mod same;
mod scans;
mod state;

pub use parts::{JudgedBranch, JudgedDecision, JudgedWrite, Link, Listed, Stand, Work};
pub use scans::are_distinct;
pub use state::{State, are_same};
