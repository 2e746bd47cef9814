//! Floor: engines and program.
//!
//! Scripts that name messages by what they are: read as the script of specified events that they come to, by
//! running it.
//!
//! ```text
//! words      the words of a line, its comment and blanks taken off
//! wanted     which message a line asks for
//! net        the messages of a run: which wait, and which are never delivered
//! expander   a run, and the lines that it comes to
//! engine     a script in, a script out
//! ```
#![tactic(auto)]

mod engine;
mod expander;
mod net;
mod wanted;
mod words;

pub use engine::{ExpandFault, Expanded, expand};
