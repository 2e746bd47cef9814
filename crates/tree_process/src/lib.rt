//! Floor: the world.
//!
//! One process of a tree, of either kind: a coordinator, or a manager over a key store.
#![tactic(auto)]

mod node;
mod opening;
mod reopening;
mod restarting;
mod unforced;

pub use node::Process;
pub use opening::{ProcessOpenError, copied_tree, open_node};
pub use reopening::{ProcessReopenError, reopen_node, reopen_over};
