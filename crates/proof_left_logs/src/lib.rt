//! Floor: engines and program.
//!
//! The logs that a run of a tree leaves: each is read whole, and none is damaged. The functions do nothing:
//! each one's contract is a law.
#![tactic(auto)]

pub mod law;
