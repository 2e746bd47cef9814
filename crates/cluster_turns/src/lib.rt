//! Floor: the world.
//!
//! The turns of a journal: the entries of a turn stay where they are made.
//!
//! ```text
//! Room       taken before the first step: a list made to measure, and a node to link it by
//! Turn       what was made in it: linked after others without memory
//! Journal    the turns of a run, as they were made
//! ```
#![tactic(auto)]

mod journal;
mod turn;

pub use journal::ClosedJournal;
pub use turn::{Entries, Room, Turn};
