//! Floor: the wing of proofs.
//!
//! What a committed update costs by each version of the reaction table: one law.
#![tactic(auto)]

pub mod law;
