//! Floor: XA and the key store.
//!
//! The data of a key store, with what each key was after each commit since the base.
//!
//! ```text
//! stage      the writes of the next commit, unseen; it takes all memory
//! publish    they are data now; it takes none
//! apply      both
//! set        a key of the base, as a log has it after a trim; no commit is counted
//! read       what a key is
//! read_at    what it was after N commits, found by halving
//! pairs      each key and what it is, keys rising
//! from_pairs the data of such pairs
//! ```
#![tactic(auto)]

mod data_pairs;
pub mod law;
mod version;
mod versions;
pub mod writes;

pub use version::Version;
pub use versions::{Gone, Versions};
