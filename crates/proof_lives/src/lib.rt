//! Floor: the wing of proofs.
//!
//! Lives of the processes of a tree, each a program of its own over a log that outlives it: laws alone.
#![tactic(auto)]

pub mod law;
