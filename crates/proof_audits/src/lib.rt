//! Floor: engines and program.
//!
//! The audit of the logs that any run leaves, with devices that failed in it or without: laws alone.
#![tactic(auto)]

pub mod law;
