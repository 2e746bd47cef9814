//! What the branches at work have written.
//!
//! ```text
//! room_for   room for a branch's write of a key, if it may write it; it takes all memory
//! put_at     the write, in the place of an earlier one of its key; it takes none
//! find       what the branch left at a key
//! restore    the writes of a branch that a log says it promised
//! remove     the branch is gone
//! ```

mod branches;
mod list;

pub use branches::BranchWrites;
