//! Floor: the wing of proofs.
//!
//! From the laws of single processes to the headline. The functions do nothing: each one's contract is a law.
#![tactic(auto)]

pub mod auditor;
pub mod law;
pub mod runs;
