//! Floor: engines and program.
//!
//! The engine of `rstar migrate`: the logs of a tree, each by the second format.
#![tactic(auto)]

mod engine;
pub mod law;

pub use engine::run_migrate;
