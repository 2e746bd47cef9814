//! Floor: the log.
//!
//! A store in memory, and a file that is brought up to what it promised.
//!
//! A node makes several steps over the store before anybody is told of one. Then the file is brought up to
//! what the store promised, by one block and one sync, and then all of them are told.
#![tactic(auto)]

mod backing;
pub mod law;
mod staged;

pub use backing::{Backing, FileBacking, NoBacking};
pub use staged::StagedStore;
