//! Floor: the model.
//!
//! Scripts of events over a tree of processes.
#![tactic(auto)]

mod document;
mod event;
mod front;
pub mod law;
mod lines;
mod names;
mod script;

pub use document::read_tree;
pub use event::event_of;
pub use front::{Front, read_front};
pub use lines::Lines;
pub use names::{after, case_of, process_of, ticket_of, txn_of};
pub use script::{MOST_EVENTS, ScriptError, ScriptFault, open, read};
