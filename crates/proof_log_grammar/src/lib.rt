//! Floor: the wing of proofs.
//!
//! The grammar of a log's bytes, as a law: what reading finds is what is there.
#![tactic(auto)]

pub mod law;
