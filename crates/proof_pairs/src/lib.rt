//! Floor: the wing of proofs.
//!
//! What one pair, a parent's case and one ticket that its child got for it, can come to; the invariant
//! that every move of the protocol keeps; and what the invariant promises. The functions do nothing:
//! each one's contract is a law.
#![tactic(auto)]

pub mod law;
pub mod readings;
pub mod rows;
pub mod turns;
