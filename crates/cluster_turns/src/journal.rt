//! A journal at rest.

ghost use Rattle.std.specs.Prelude.{◌≡◌};
ghost use Rattle.cluster_turns.specs.Turns.{all_of};

use crate::turn::Entries;
use std::marker::Model;

/// The journal of a run that has ended: its turns, the oldest first, as they were made. To a contract it is
/// the list of its entries, each with its caller's number.
#[derive(Drop)]
pub struct ClosedJournal {
    turns: Vec<Entries>,
}

impl Model for ClosedJournal {
    ghost use Rattle.std.specs.Prelude.{ℕ, List};
    ghost use Rattle.protocol.specs.declared.events.JournalEntry.{JournalEntry};
    ghost use Rattle.cluster_turns.specs.Turns.{all_of};

    ghost Value = { List (ℕ × JournalEntry) };

    ghost view = { λ j. all_of j.turns.items };
}

impl ClosedJournal {
    /// The journal of these turns.
    pub fn new(turns: Vec<Entries>) -> ClosedJournal
        ensures { result ≡ all_of turns.items }
    {
        ClosedJournal { turns }
    }

    /// Its turns, the oldest first.
    pub fn turns(&self) -> &[Entries]
        ensures { all_of result.now ≡ self.now }
    {
        self.turns.as_slice()
    }
}
