//! Floor: the wing of proofs.
//!
//! What a process makes is what the model's process makes, for processes of every kind: laws alone.
#![tactic(auto)]

pub mod law;
pub mod worlds;
