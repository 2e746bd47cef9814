//! Floor: engines and program.
//!
//! A box whose pointer leaves, and comes back.
#![tactic(auto)]

mod loose;

pub use loose::Loose;
