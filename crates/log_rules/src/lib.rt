//! Floor: the log.
//!
//! What makes a log's records right: their order, which of them a trim keeps, which can be in a log at
//! all, and what a process reads of them.
#![tactic(auto)]

pub mod order;
pub mod reads;
pub mod sound;
pub mod trim;
