//! Floor: the world.
//!
//! A tree whose processes run at the same time: each lies under a lock of its own, and the journal under one
//! of its own. Callers post events, workers deliver messages, and a cluster that is closed gives plain data.
#![tactic(auto)]

mod closing;
mod cluster;
mod opening;
mod rounds;
mod workers;

pub use cluster::Cluster;
pub use opening::seats;
pub use rounds::Rounds;
