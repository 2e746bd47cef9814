//! Floor: engines and program.
//!
//! The audit of the logs that a closed cluster leaves: a law alone.
#![tactic(auto)]

pub mod law;
