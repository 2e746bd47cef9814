//! Floor: engines and program.
//!
//! The engine of `rstar crash`: a script in, what each crash of its run ends with out.
#![tactic(auto)]

mod auditing;
mod ending;
mod engine;
mod lines;
mod origin;
mod points;
mod settles;
mod trial;
mod trials;

pub use ending::CrashStatus;
pub use engine::run_crash;
