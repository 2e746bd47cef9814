//! Floor: engines and program.
//!
//! How many cases of a tree are in doubt, by the logs of its processes.
#![tactic(auto)]

mod count;
mod status;

pub use count::count_doubts;
pub use status::{IN_DOUBT, status_by};
