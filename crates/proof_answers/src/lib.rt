//! Floor: engines and program.
//!
//! What is answered of the branches that logs left stays true, however the run goes on: a law alone.
#![tactic(auto)]

pub mod law;
