//! What seats know, of which no value is made; and what the table is told.
use cluster_turns::Turn;
use protocol::{Envelope, JournalEntry, ProcessId};
use std::collections::LinkedList;

/// What the table is told at a step: the entries of a turn, each with its caller's number.
pub type ToldEntries = Turn;

/// What the journal's seat knows: the names of all processes, how many of them have a seat, how many passes
/// were given, and all entries, each with its caller's number.
pub struct JournalView {
    /// Whether the seat is the journal's.
    pub keeps: bool,
    /// The names of the processes, in the order of their words.
    pub names: LinkedList<ProcessId>,
    /// How many of them have a seat.
    pub opened: u64,
    /// How many passes were given.
    pub given: u64,
    /// The entries, the oldest first, each with its caller's number.
    pub all: LinkedList<(u64, JournalEntry)>,
}

/// What a process's seat knows: its place, its name, its entries, and the messages that it noted.
pub struct ProcessView {
    /// Whether the seat is a process's.
    pub works: bool,
    /// Its place among the names.
    pub place: u64,
    /// Its name.
    pub name: Option<ProcessId>,
    /// Its entries in the journal, the oldest first.
    pub own: LinkedList<JournalEntry>,
    /// The messages that the journal's entries had sent when it noted them.
    pub net: LinkedList<Envelope>,
}

/// What a pass knows: its caller's number, and the places of the entries under it, from 0, with the entries.
pub struct PassView {
    /// Whether the seat is a pass.
    pub holds: bool,
    /// The caller's number.
    pub caller: u64,
    /// The places and the entries, in the order in which they were noted.
    pub pairs: LinkedList<(u64, JournalEntry)>,
}

/// What a seat knows: one of the three parts, or, while seats are lent to the journal's, more.
pub struct View {
    /// The journal's part.
    pub journal: JournalView,
    /// A process's part.
    pub process: ProcessView,
    /// A pass's part.
    pub pass: PassView,
}
