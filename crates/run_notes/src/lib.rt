//! Floor: engines and program.
//!
//! What is told of a step of a run beside its trace: why a manager votes NO, and what a get read.
//!
//! ```text
//! notes     what managers hold, and what is told of their steps
//! manager   one manager: its pairs, its branches, and what a crash may take back
//! branch    a branch, from its ticket to its end
//! locks     which branch holds which key
//! words     the words of a note
//! ```
#![tactic(auto)]

mod branch;
mod locks;
mod manager;
mod notes;
mod words;

pub use notes::{Notes, notes_of};
pub use words::push_bytes;
