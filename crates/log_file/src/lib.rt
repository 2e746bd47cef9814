//! Floor: the log.
//!
//! A store whose bytes are in a file: a log over it outlives the program.
//!
//! What a contract sees is the store's image in memory, which is what the file is to hold. What the store
//! asks of its file is in the clauses of `force`, `replace` and `settle`, by the members of `LogFile`;
//! that `HostFile` makes the calls of the system that its methods name is for a reader to see (README.md).
#![tactic(auto)]

mod found;
mod host;
pub mod law;
mod log_file;
mod opening;
mod store;
mod trouble;

pub use found::{FileOpenError, found_in};
pub use host::HostFile;
pub use log_file::LogFile;
pub use opening::{SeenLog, create, look, look_new, open, read};
pub use store::FileStore;
pub use trouble::Trouble;
