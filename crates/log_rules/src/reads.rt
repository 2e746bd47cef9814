//! What a process reads of its log: laws alone.

pub mod law;
