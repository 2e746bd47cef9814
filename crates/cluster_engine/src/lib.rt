//! Floor: engines and program.
//!
//! The engine of `rstar run`: a script whose processes run at the same time, and what comes of it.
#![tactic(auto)]

mod ending;
mod engine;
mod player;
mod told;
mod trace;

pub use engine::{ClusterOutput, run_cluster};
