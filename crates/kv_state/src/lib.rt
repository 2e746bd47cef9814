//! Floor: XA and the key store.
//!
//! A key store that is called by XA, without its log: the tables of calls, what each branch has written, the
//! locks and the data. And what the records of a log leave of one, and the data as a trim writes them.
//!
//! ```text
//! get, put, delete   a thread's work in the branch that it is active in
//! begin_idle         a branch that no thread is in begins
//! work_idle          it does an operation
//! due                a prepare, commit, rollback or forget: the first refusal, or the turn that it takes
//! stage              the branch's writes, unseen; it takes all memory. After it the log is written
//! reserve_decision   room for an operator's decision, before the log is written
//! publish, finish    they are data; the branch takes its turn. They take no memory and cannot fail
//!
//! What the records say of data, branches and locks:
//! Opened                   the boot
//! Base, Pair               the data after a trim
//! Prepared                 the branch is open: it holds its writes and their locks
//! Committed, HeurCommit    an open branch's writes become data
//! Direct                   its own writes become data
//! HeurCommit, HeurRollback an operator decided an open branch
//! Told, Forgot             what it was told since, and the decision is forgotten
//! ```
#![tactic(auto)]

mod data;
mod fault;
mod frames;
mod heuristic;
pub mod law;
mod promises;
mod remembered;
mod replayed;
mod store;

pub use fault::ReplayError;
pub use frames::base_frames;
pub use remembered::RememberedData;
pub use replayed::{Replayed, replay};
pub use store::KeyStore;
