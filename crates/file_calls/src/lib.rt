//! Floor: the log.
//!
//! A log's file that makes no call itself: what a store asks of it is kept, in order, for whoever has the
//! file. A static library is given no runtime, by which files of the system are opened.
#![tactic(auto)]

mod call;
mod calls;
mod file;

pub use call::CallKind;
pub use calls::{Calls, NextCall};
pub use file::CalledFile;
