//! Floor: engines and program.
//!
//! What a crash leaves of a process's own log is never called unfit at its next start: laws alone.
#![tactic(auto)]

pub mod law;
