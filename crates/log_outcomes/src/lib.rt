//! Floor: the log.
//!
//! What the records of a log tell of how a transaction ended, which cases are in doubt by them, and which an
//! operator decided.
#![tactic(auto)]

mod boots;
mod doubts;
mod news;
mod saying;

pub use boots::boot_of;
pub use doubts::{LoggedDecision, decisions_of, doubts_of};
pub use news::{News, news_of};
