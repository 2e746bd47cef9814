//! Floor: spellings and names.
//!
//! What a key of a key store has: the holders of its lock, and, in contracts, a list in a map by keys.
//!
//! ```text
//! holders    who holds a key, who is in the way of a lock, and who holds it after one
//! ```
#![tactic(auto)]

mod holders;

pub use holders::{Holder, Mode, blocked_by, given, holds, raise, remove};
