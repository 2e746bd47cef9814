//! Floor: the wing of proofs.
//!
//! The steps in which devices failed, in a trace: laws alone.
#![tactic(auto)]

pub mod law;
