//! Floor: the model.
//!
//! The names, messages, records and steps of the commit protocols.
#![tactic(auto)]

mod events;
mod lists;
mod messages;
mod names;
mod records;
mod standings;
mod trees;

pub use events::{
    Act, Conclusion, Event, Fault, Happening, Input, JournalEntry, Reaction, Step, StepError, Told,
};
pub use lists::Sequence;
pub use messages::{Envelope, Envelopes, Finding, Findings, Message, Op};
pub use names::{
    Case, Kind, LAST_NUMBER, NUMBERS, Outcome, Presumption, ProcessId, Ticket, Tickets, Txn,
};
pub use records::{
    BranchName, LogRecord, Record, RecordKind, Reports, ShownRecord, Subject, Write, Writes,
};
pub use short_bytes::Bytes;
pub use standings::{Standing, Vote};
pub use trees::{MOST_LEVELS, MOST_PROCESSES, Tree, TreeError, TreeProcess};
