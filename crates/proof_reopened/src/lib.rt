//! Floor: the wing of proofs.
//!
//! Trees that are opened over the logs which an earlier run left: laws alone.
#![tactic(auto)]

pub mod law;
