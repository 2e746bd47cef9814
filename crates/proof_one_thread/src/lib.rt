//! Floor: the wing of proofs.
//!
//! A journal of processes that ran at the same time, made again on one thread: a law alone.
#![tactic(auto)]

pub mod law;
