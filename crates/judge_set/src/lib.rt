//! Floor: engines and program.
//!
//! The judge: the set of all states that are possible, and the first answer that no history admits.
#![tactic(auto)]

mod law;
mod resuming;
mod set;
mod verdict;

pub use law::{a_history_has_one_verdict, fronts_are_legal, promises_only_narrow};
pub use resuming::resumed;
pub use set::{follow, start};
pub use verdict::{Walk, follow_all, judge};
