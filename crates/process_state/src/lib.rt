//! Floor: the log.
//!
//! What a process keeps while it runs, and what each input makes of it: definitions, and laws that they fit
//! one another.
#![tactic(auto)]

mod inputs;
pub mod law;
mod messages;

pub use inputs::{InputRef, is_listed};
pub use messages::{one_message, unknown_findings};
