//! Floor: coordinator and subordinate.
//!
//! The live cases of a process, each with what the process keeps of it.
//!
//! ```text
//! slots   under a key (a number that is used again): a case and its value
//! keys    for each transaction, the keys of its cases, in order of insertion
//! ```
//!
//! Each case has one key at most. Every look-up goes by the transaction, which every message names, and then
//! through the few keys of that transaction; so a key that was freed, and is another case's now, is never
//! taken for the old case.
#![tactic(auto)]

mod lists;
mod table;

pub use table::LiveTable;
