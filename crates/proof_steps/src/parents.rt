//! What a step of a coordinator does to the pairs below it. The functions do nothing: each one's contract is
//! a law.

pub mod law;
