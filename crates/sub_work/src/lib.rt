//! Floor: coordinator and subordinate.
//!
//! What a subordinate does with its manager in one event, and what it shows of one.
#![tactic(auto)]

mod deeds;
mod replies;

pub use deeds::{begin, commit, decide, forget, promise, rollback, tell, work};
pub use replies::{logged, reply, silence};
