//! Floor: engines and program.
//!
//! What a process of a tree answers to a line, where it runs as a program of its own, as text.
#![tactic(auto)]

mod holding;
mod refusing;
mod status;
mod text;

pub use holding::{data_text, log_text};
pub use refusing::{Manner, Nothing, error_text, refused_text};
pub use status::{NodeStatus, help_text, status_text};
pub use text::{doubt_text, obeyed_text, outcome_text, shown_text, trimmed_text};
