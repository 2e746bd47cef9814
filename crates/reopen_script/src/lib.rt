//! Floor: the log.
//!
//! Tree scripts that may begin their events with the logs that an earlier run left.
#![tactic(auto)]

mod ahead;
pub mod law;
mod script;

pub use ahead::leading;
pub use script::{open_reopen, read_reopen};
