//! Floor: the wing of proofs.
//!
//! What every run keeps at each single process, whatever the others do. The functions do nothing: each one's
//! contract is a law.
#![tactic(auto)]

pub mod law;
