//! Floor: engines and program.
//!
//! The logs that a run of a tree leaves in which devices failed, and their audit: laws alone.
#![tactic(auto)]

pub mod law;
