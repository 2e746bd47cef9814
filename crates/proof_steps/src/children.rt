//! What a step of a child does to the pairs of its tickets. The functions do nothing: each one's contract is
//! a law.

pub mod law;
