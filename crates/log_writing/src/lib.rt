//! Floor: the log.
//!
//! How a process writes into its log.
#![tactic(auto)]

mod frames;
mod room;
mod writing;

pub use frames::coordinator_frame;
pub use room::make_room;
pub use writing::write;
