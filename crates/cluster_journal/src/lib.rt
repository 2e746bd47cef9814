//! Floor: the world.
//!
//! The journal of a cluster: every entry with its caller's number, and what became of each message.
//!
//! ```text
//! placed turns            with an index of their messages: Vec, Vec
//! late turns              each in the room that its process brought: a linked list
//! marks of messages       open --claim--> claimed --enter--> delivered
//!                              <--give_back--
//! queues of processes     for each process its messages, each linked to the next one to it: found by the process's name
//! ```
//!
//! A turn is entered in one piece and without a growth, in room that was made before. `place` hands it from
//! one list to the other: its entries stay where they were made.
#![tactic(auto)]

mod adding;
mod journal;
mod marks;
mod queues;
mod spots;

pub use journal::ClusterJournal;
pub use marks::{Claim, Delivery, MarkedMessage};
