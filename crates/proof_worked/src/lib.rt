//! Floor: the wing of proofs.
//!
//! What the definitions of the model come to: laws of them, whole runs, each with the trace that it comes out
//! as, and wrong steps.
#![tactic(auto)]

pub mod definitions;
pub mod law;
pub mod wrong;
