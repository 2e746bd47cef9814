//! Floor: engines and program.
//!
//! What happens at the tables of a key store conforms to the judge: laws alone.
#![tactic(auto)]

pub mod law;
