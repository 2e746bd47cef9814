//! Floor: the wing of proofs.
//!
//! What is reported of mismatches: that it is true, and by the second version complete. The functions do
//! nothing: each one's contract is a law.
#![tactic(auto)]

pub mod law;
