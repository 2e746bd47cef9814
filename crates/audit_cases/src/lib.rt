//! Floor: engines and program.
//!
//! What the records of a log say of each case to an audit.
//!
//! ```text
//! kinds      which records a case has, how it stands by them, and whether it has a line
//! notes      one pass over the records of a log: each of the process's cases in order of its first record
//! firsts     what is kept of the cases of children, by the first case that names them
//! sayings    what a process says of the cases of its children: the outcome of its first case that names the ticket
//! ```
#![tactic(auto)]

mod firsts;
mod kinds;
mod notes;
mod sayings;

pub use firsts::Firsts;
pub use kinds::{Kinds, Own};
pub use notes::{Noted, NotedCases};
pub use sayings::{Sayings, outcome_of};
