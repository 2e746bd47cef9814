//! Floor: XA and the key store.
//!
//! The locks of a key store's branches.
//!
//! ```text
//! shared      beside other shared holders
//! exclusive   where no other branch holds the key; a sole shared holder may become exclusive
//! release     all locks of a branch at once
//! ```
//!
//! A conflict is a refusal that names the holder in the way, never a wait.
#![tactic(auto)]

mod locks;

pub use locks::{LockError, Locks};
