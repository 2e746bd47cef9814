//! Floor: engines and program.
//!
//! What a key store answers conforms to the judge: laws alone.
#![tactic(auto)]

pub mod law;
