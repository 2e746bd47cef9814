//! Floor: the model.
//!
//! What scripts have in common: which of their lines are skipped, and how an operation on data and a decision
//! of an operator are spelled.
#![tactic(auto)]

mod lines;
mod operation;
mod outcome;

pub use lines::{count_asked, lines_of, says_nothing};
pub use operation::{Task, task_by, task_of};
pub use outcome::outcome_of;
