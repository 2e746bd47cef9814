//! Floor: the model.
//!
//! The lines that a node reads: messages as they are in the lines of a trace, read back
//! (`7 1->2 PREPARE a1.1@2.1.1 1`), acts as they are in scripts, and what else a node is asked.
#![tactic(auto)]

mod asked;
mod findings;
pub mod law;
mod line;
mod message;
mod speakers;

pub use asked::{NodeLine, asked_of, asks_end};
pub use line::line_of;
pub use message::message_of;
pub use speakers::may_speak;
