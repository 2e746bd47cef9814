//! Floor: the wing of proofs.
//!
//! What a step of a process does to the pairs that it is part of: steps of a child, of a cascaded
//! coordinator to the pairs above it, and of a coordinator to the pairs below it, its restarts and trims
//! among them. The functions do nothing: each one's contract is a law.
#![tactic(auto)]

pub mod cascades;
pub mod children;
pub mod crashes;
pub mod parents;
