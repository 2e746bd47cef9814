//! Floor: the wing of proofs.
//!
//! What a coordinator writes over a run may stand so in a log. The functions do nothing: each one's contract
//! is a law.
#![tactic(auto)]

pub mod law;
