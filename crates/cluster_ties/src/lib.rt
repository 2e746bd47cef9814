//! Floor: the world.
//!
//! What ties the entries of each process to the journal that they enter.
//!
//! A process works under a lock of its own, and the journal lies under one of its own. Neither can see what
//! the other has. A seat of a shared table tells its holder what is true of both all the same: each step
//! below is one atomic operation on the table, and keeps the rule that ties them.
//!
//! ```text
//! under both locks        note_net: the process notes the messages of the journal
//! under the process's     it makes steps, as many as it likes, of which the table knows nothing
//! under both locks        put: the journal has the entries of these steps, in one piece
//! ```
//!
//! A process's entries are just the journal's of it, and the messages that it noted are the first of the
//! journal's. A pass has just the pairs of the journal's entries under its caller's number, and each entry is
//! under the number of a pass that was given.
#![tactic(auto)]

mod plays;
pub mod seats;
pub mod ties;
pub mod views;
