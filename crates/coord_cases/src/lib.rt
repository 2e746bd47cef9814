//! Floor: coordinator and subordinate.
//!
//! A coordinator without its log: its live cases, what an input makes of them, and what it is as it restarts.
//!
//! ```text
//! cases       the live cases, and the tickets that it gave and that are active
//! taking      what a row of the reaction table leaves of the cases
//! rebuilding  what the records of a log leave: the cases, and what they send again
//! ```
#![tactic(auto)]

mod cases;
mod held;
mod rebuilding;
mod reopening;
mod restoring;
mod taking;

pub use cases::LiveCases;
pub use held::Held;
pub use rebuilding::{RebuiltCases, rebuild};
pub use taking::take;
