//! Floor: the log.
//!
//! The records of a log in lines, as `rstar log` writes them.
//!
//! ```text
//! words   what the line of a record says after its kind
//! held    what a log holds: its lines, with the places of its records
//! ```
#![tactic(auto)]

mod held;
mod words;

pub use held::{push_held, push_lines};
pub use words::{push_bytes_word, push_listed};
