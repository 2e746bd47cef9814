//! Floor: coordinator and subordinate.
//!
//! A coordinator: the root of a tree, or a coordinator below it (R*, under Presumed Abort and Presumed
//! Commit).
//!
//! An input meets one turn (`meeting` for acts, `hearing` for messages), and the turn is made (`making`,
//! `clearing`):
//!
//! | Turn | What it makes |
//! |---|---|
//! | `Refuses` | nothing: the error says why |
//! | `Begins` | a transaction, at the root |
//! | `Issues` | a fresh ticket for a case of the parent, and its case |
//! | `Takes` | a row of the reaction table at a live case: its record, its view, its messages |
//! | `Clears` | Cleared, where the log of the root reports what was found of the case |
//! | `Answers`, `Repeats`, `Presumes`, `Nothing` | messages at most |
//!
//! Room for a record is made before the row, and the row frames its record before it changes the case. So
//! from the write on nothing is refused for memory. Where the write fails the coordinator has failed until
//! its restart.
#![tactic(auto)]

mod acts;
mod clearing;
mod coordinator;
mod hearing;
mod making;
mod meeting;
mod opening;
mod places;
mod restarting;
mod saying;
mod turn;
mod writing;

pub use coordinator::Coordinator;
pub use restarting::CoordinatorReopenError;
