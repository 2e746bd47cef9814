//! Floor: engines and program.
//!
//! What a refusal is in sentences: which line, what is wrong with it, what the grammar wants there; which key
//! or value of a tree text; why an event was refused, with the names in it; which of reading, writing,
//! memory, devices and numbers failed.
//!
//! ```text
//! program      why an input, or an event of it, was refused
//! history      a run, and in which event each of its steps was made
//! reason       why an event was refused
//! event        the sentences of that
//! names        names as text
//! told         what is told of the steps of a run
//! rest         what is to be noted of a run: what is told of its steps, and messages that are never delivered
//! clean        a text that a terminal can show
//! ```
#![tactic(auto)]

mod clean;
mod event;
mod history;
mod names;
mod program;
mod reason;
mod rest;
mod told;

pub use explain_lines::Script;
pub use program::{failure_text, plain_refusal_text, refusal_text};
pub use rest::notes_text;
