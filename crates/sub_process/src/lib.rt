//! Floor: coordinator and subordinate.
//!
//! A process below a parent, with a resource manager: it works, votes, and obeys (R*), or its operator
//! decides.
#![tactic(auto)]

mod acting;
mod deciding;
mod ending;
mod hearing;
mod joining;
mod restarting;
mod stepping;
mod subordinate;
mod voting;
mod works;

pub use subordinate::Subordinate;
