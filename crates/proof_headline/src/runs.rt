//! The headline of every run of every tree. The functions do nothing: each one's contract is a law.

pub mod law;
