//! Floor: spellings and names.
//!
//! Bytes in order, of which few are in place.
#![tactic(auto)]

mod bytes;

pub use bytes::Bytes;
