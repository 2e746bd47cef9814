//! Floor: engines and program.
//!
//! The data that a run leaves its managers, as lines.
//!
//! ```text
//! pairs      the keys and values that the records of a log make
//! lines      the lines of them
//! left       those of all managers of a tree that runs
//! script     those that a script leaves
//! ```
#![tactic(auto)]

mod left;
mod lines;
mod pairs;
mod script;

pub use left::data_left;
pub use script::data_text;
