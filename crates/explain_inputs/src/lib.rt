//! Floor: engines and program.
//!
//! Why an input is refused: which line, key, value, process or log is at fault, in sentences.
//!
//! ```text
//! place        a line by its number, by an event, or by a byte
//! opening      what stands where a tree text and the line of three dashes are wanted
//! document     which key or value of a tree text is at fault
//! processes    which process is at fault, where the processes are no tree
//! logs         which log is at fault
//! refusal      the lines of a refused input
//! ```
#![tactic(auto)]

mod document;
mod logs;
mod opening;
mod place;
mod processes;
mod refusal;

pub use logs::{LogFault, damaged_log};
pub use place::event_place;
pub use refusal::{push_bytes, push_fault, push_line, push_line_fault, push_reopened_fault};
