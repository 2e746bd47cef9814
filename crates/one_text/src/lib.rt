//! Floor: engines and program.
//!
//! One script leaves one text of logs: a law alone.
#![tactic(auto)]

pub mod law;
