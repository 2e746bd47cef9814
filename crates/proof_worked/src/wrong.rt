//! Steps that a run must never make, each close to a right one, and why. The functions do nothing: each
//! one's contract is a law.

pub mod law;
