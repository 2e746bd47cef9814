//! Floor: engines and program.
//!
//! A tree each process of which is a program of its own over a log in a file, and that it makes a run of
//! the model: laws alone.
#![tactic(auto)]

pub mod law;
