//! Floor: engines and program.
//!
//! A node that a program in another language keeps: what each call makes of it, without the handle
//! (`rstar_c`).
#![tactic(auto)]

mod kept;
mod numbers;
mod opening;

pub use kept::{FileNode, Kept, KeptLife, copy_into, release};
pub use numbers::{CALLS, DONE, FOREIGN, HOW, IO, MEMORY, NO_CALL, NO_CASE};
pub use opening::opened;
