//! Floor: XA and the key store.
//!
//! A key store with a log, as an XA manager.
#![tactic(auto)]

mod finishing;
mod manager;
mod remembered;
mod resource;
mod restart;
mod trimming;

pub use manager::{KvManager, RestoreError};
pub use restart::{RecordsError, rebuilt};
