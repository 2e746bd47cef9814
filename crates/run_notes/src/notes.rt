//! What is told of the steps of a run.

ghost use Rattle.std.specs.Prelude.{◌≡◌, [], IfOk, OnOk, map, unwrap_or};
ghost use Rattle.std.specs.Map.{keys_of};
ghost use Rattle.run_notes.specs.Managers.{bytes_in};
ghost use Rattle.run_notes.specs.Told.{AddsManager, AreManagers, AreNotes, is_no, known, told, told_at, told_of_message, votes_no};

use crate::manager::Manager;
use indexmap::IndexMap;
use protocol::{
    Case, Happening, Input, JournalEntry, Kind, LogRecord, Message, ProcessId, Reaction,
    ShownRecord, Ticket, TreeProcess,
};
use std::alloc::{AllocError, Global};

/// What managers hold, and what is told of their steps.
pub struct Notes {
    managers: IndexMap<ProcessId, Manager>,
}

// For the proof: what is let go by hand is proved here alone, and not again by each crate above.
impl Drop for Notes {
    fn drop(self) {
        let Notes { managers: _ } = self;
    }
}

/// The ticket that a step gives out, and for which case, if it gives one.
fn given(reaction: &Reaction) -> Option<(Case, Ticket)> {
    for envelope in reaction.messages.as_slice() {
        if let Message::Joined(case, ticket) = envelope.message {
            return Some((case, ticket));
        }
    }
    None
}

/// Whether a message is the vote NO.
fn is_no(message: &Message) -> bool
    ensures { result ≡ is_no message.now }
{
    match message {
        Message::No(_) => true,
        _ => false,
    }
}

/// Whether a reaction has the vote NO.
fn votes_no(reaction: &Reaction) -> bool
    ensures { result ≡ votes_no reaction.now }
{
    let messages = reaction.messages.as_slice();
    messages
        .iter()
        .filter(|envelope| is_no(&envelope.message))
        .count()
        != 0
}

/// Whether a reaction has the vote of a case that only read.
fn votes_read(reaction: &Reaction) -> bool {
    for envelope in reaction.messages.as_slice() {
        if let Message::Read(_) = envelope.message {
            return true;
        }
    }
    false
}

/// A message comes to a manager, which reacts so. What is told of it.
fn hear(
    manager: &mut Manager,
    message: &Message,
    reaction: &Reaction,
) -> Result<Option<Vec<u8>>, AllocError>
    ensures { IfOk result (λ said. bytes_in said ≡ told_of_message manager.old message.now reaction.now) }
{
    match message {
        Message::Join(_) => {
            if let Some((case, ticket)) = given(reaction) {
                manager.begin(&case, ticket)?;
            }
            Ok(None)
        }
        Message::Work(case, index, op) => manager.work(case, *index, op),
        Message::Prepare(case, works) => {
            if votes_no(reaction) {
                return Ok(Some(manager.refuse(case, *works)?));
            }
            if votes_read(reaction) {
                manager.end_active(case);
            }
            Ok(None)
        }
        Message::Abort(case) => {
            manager.end_active(case);
            Ok(None)
        }
        _ => Ok(None),
    }
}

/// What happens at a manager, which reacts so. What is told of it.
fn meet(
    manager: &mut Manager,
    happening: &Happening,
    reaction: &Reaction,
) -> Result<Option<Vec<u8>>, AllocError>
    ensures { IfOk result (λ said. bytes_in said ≡ told_at manager.old happening.now reaction.now) }
{
    match happening {
        Happening::Input(Input::Message(_, message)) => hear(manager, message, reaction),
        Happening::Input(Input::Act(_)) => Ok(None),
        Happening::Restart(kept) => {
            manager.restart(*kept)?;
            Ok(None)
        }
        Happening::Trim => {
            manager.force();
            Ok(None)
        }
    }
}

/// A manager writes these records.
fn write_all(manager: &mut Manager, written: &[ShownRecord]) -> Result<(), AllocError> {
    for logged in written {
        manager.writes(logged)?;
    }
    Ok(())
}

/// A manager takes the next step of its own. What is told of it.
fn take_at(manager: &mut Manager, entry: &JournalEntry) -> Result<Option<Vec<u8>>, AllocError>
    ensures { IfOk result (λ said. bytes_in said
        ≡ told_at manager.old entry.now.step.happening entry.now.reaction) }
{
    let said = meet(manager, &entry.step.happening, &entry.reaction)?;
    write_all(manager, entry.reaction.written.as_slice())?;
    Ok(said)
}

/// The records of the log at this place; none, if there is no such log.
fn log_at(logs: &[Vec<LogRecord>], place: usize) -> &[LogRecord] {
    match logs.get(place) {
        None => &[],
        Some(records) => records.as_slice(),
    }
}

/// Adds the manager of an entry of a tree, if it is one, whose log has these records.
fn add_manager(
    alloc: Global,
    managers: &mut IndexMap<ProcessId, Manager>,
    entry: &TreeProcess,
    records: &[LogRecord],
) -> Result<(), AllocError>
    ensures { OnOk result (AddsManager entry.now (keys_of managers.old.entries)
        (keys_of managers.new.entries)) }
{
    match entry.kind {
        Kind::Coordinator => Ok(()),
        Kind::Manager => {
            let manager = Manager::new(alloc, entry.parent, records)?;
            let _ = managers.insert(entry.id, manager)?;
            Ok(())
        }
    }
}

impl Notes {
    /// Of a tree that has just opened: its processes, and the records of the log of each, in the tree's
    /// order. A process with no log among them has no records.
    #[tactic(auto, using(crate::proofs::Knowing::managers_more))]
    pub fn new(
        alloc: Global,
        tree: &[TreeProcess],
        logs: &[Vec<LogRecord>],
    ) -> Result<Notes, AllocError>
        ensures { IfOk result (λ notes. AreManagers tree.now (known notes)) }
    {
        let mut managers = IndexMap::new(alloc);
        for place in 0..tree.len() {
            add_manager(alloc, &mut managers, &tree[place], log_at(logs, place))?;
        }
        Ok(Notes { managers })
    }

    /// Takes the next step of the run, and says what is told of it, as bytes without a line feed, if anything
    /// is: why a manager votes NO, or what a get read.
    pub fn take(&mut self, entry: &JournalEntry) -> Result<Option<Vec<u8>>, AllocError>
        ensures told { IfOk result (λ said. bytes_in said ≡ told self.old entry.now) }
        ensures known { known self.new ≡ known self.old }
    {
        match self.managers.get_mut(&entry.step.process) {
            None => Ok(None),
            Some(manager) => take_at(manager, entry),
        }
    }
}

/// Takes the next step of the run, and says what is told of it; no bytes, if nothing is.
fn note_of(alloc: Global, notes: &mut Notes, entry: &JournalEntry) -> Result<Vec<u8>, AllocError>
    ensures note { IfOk result (λ words. words.items ≡ unwrap_or (told notes.old entry.now) []) }
    ensures known { known notes.new ≡ known notes.old }
{
    match notes.take(entry)? {
        Some(words) => Ok(words),
        None => Ok(Vec::new(alloc)),
    }
}

/// What is told of each of these steps of a tree that opened over these logs, in their order; of one of which
/// nothing is, no bytes.
pub fn notes_of(
    alloc: Global,
    tree: &[TreeProcess],
    logs: &[Vec<LogRecord>],
    entries: &[JournalEntry],
) -> Result<Vec<Vec<u8>>, AllocError>
    ensures { IfOk result (λ notes. AreNotes tree.now entries.now (map (λ words. words.items) notes.items)) }
{
    let mut notes = Notes::new(alloc, tree, logs)?;
    let mut told = Vec::new(alloc);
    for entry in entries {
        told.push(note_of(alloc, &mut notes, entry)?)?;
    }
    Ok(told)
}
