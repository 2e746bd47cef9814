//! Floor: XA and the key store.
//!
//! A resource manager, as a process sees it that drives it.
#![tactic(auto)]

mod errors;
mod manager;

pub use errors::{DecideError, RestartError, TrimError};
pub use manager::ResourceManager;
pub use xa_assoc::WorkError;
pub use xa_branch::Decision;
