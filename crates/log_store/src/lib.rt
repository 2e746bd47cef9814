//! Floor: the log.
//!
//! Where the bytes of a log stand: a store that may lose what is not forced, and one in memory.
#![tactic(auto)]

mod fault;
mod memory;
mod store;

pub use fault::{FaultStore, StoreCall};
pub use memory::MemoryStore;
pub use store::{LogStore, StoreError};
