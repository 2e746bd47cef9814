//! Floor: XA and the key store.
//!
//! A resource manager for tests, which was told what to refuse.
#![tactic(auto)]

mod calls;
mod manager;

pub use manager::RefusingManager;
