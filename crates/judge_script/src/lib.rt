//! Floor: engines and program.
//!
//! Transcripts of a resource manager, read: what the first lines say of it, and a call and its answer a line.
//!
//! ```text
//! never heuristics failures rollback
//! lacks join suspend migrate threads scan count open forced isolation emptybqual
//! CALL -> ANSWER
//! ```
#![tactic(auto)]

mod answers;
mod asking;
mod header;
mod names;
mod numbering;
mod reading;
mod words;

pub use answers::SaidAnswer;
pub use asking::{CallWord, TranscriptCall};
pub use names::Names;
pub use reading::{Transcript, transcript_of};
