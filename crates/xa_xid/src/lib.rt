//! Floor: spellings and names.
//!
//! XIDs: the names of transaction branches.
#![tactic(auto)]

mod bytes;
pub mod digest;
mod error;
mod part;
mod text;
mod xid;

pub use error::XidError;
pub use xid::{Xid, equal_by_parts};
