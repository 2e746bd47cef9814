//! Floor: engines and program.
//!
//! The engine of `rstar judge`: a transcript in, its verdict out; and plans of calls.
#![tactic(auto)]

mod admitted;
mod judging;
mod plan;
mod random;
mod report;
mod rule;
mod run;
mod script;
mod sorts;
mod standing;

pub use judging::{Extent, JudgeFault};
pub use plan::run_plan;
pub use run::{JudgeStatus, run_judge};
