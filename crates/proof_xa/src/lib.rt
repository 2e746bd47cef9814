//! Floor: the wing of proofs.
//!
//! Laws of histories: what any list of calls, decisions and restarts does to the tables of a resource
//! manager.
#![tactic(auto)]

mod law;
mod rows;

pub use law::histories_are_legal;
pub use rows::{refusals_are_checks, turns_are_rows};
