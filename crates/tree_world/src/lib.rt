//! Floor: the world.
//!
//! A tree that runs: its processes, the messages between them, and the journal of their steps.
#![tactic(auto)]

mod byte_logs;
mod counted;
mod faults;
mod nodes;
mod opening;
mod own_names;
mod reopening;
mod running_tree;
mod unforced;
mod world;

pub use byte_logs::logs_left;
pub use reopening::TreeReopenError;
pub use tree_process::{Process, ProcessOpenError, copied_tree};
pub use world::World;
