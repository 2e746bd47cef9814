//! Floor: engines and program.
//!
//! What every engine of `rstar` reads and writes: all of an input, one text, and how a run ends.
#![tactic(auto)]

mod status;
mod streams;

pub use status::Status;
pub use streams::{Failure, read_all, write_all};
