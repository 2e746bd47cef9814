//! Floor: engines and program.
//!
//! That `rstar judge` reads what `rstar xa` answers to a script, and finds that it conforms: laws alone.
#![tactic(auto)]

pub mod law;
