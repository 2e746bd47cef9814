//! The reading of a pair as a function of the world, and the proof that steps of the world are moves of
//! the reading. The functions do nothing: each one's contract is a law.

pub mod law;
