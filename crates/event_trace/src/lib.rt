//! Floor: engines and program.
//!
//! The trace of a tree script in which each line has the number of its event before it: `tree --events`.
#![tactic(auto)]

mod events;
mod lines;
mod script;
mod steps;

pub use script::event_trace;
