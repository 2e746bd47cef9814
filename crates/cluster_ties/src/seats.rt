//! The table, and who has a seat at it.

ghost use Rattle.std.specs.Prelude.{◌≡◌, ◌<◌, ◌+◌, [], ◌∷◌, IfOk, length, slice_get};
ghost use Rattle.cluster_ties.specs.Views.{holder, keeper, process_at, worker};
ghost use Rattle.cluster_ties.specs.Rule.{AreApartProcesses};
ghost use Rattle.cluster_ties.specs.Seats.{KeepsJournal, SitsAt};

use crate::plays::{Gives, Opens};
use crate::views::{ToldEntries, View};
use atomic_table::{Seat, Table, TableRule};
use protocol::ProcessId;
use std::alloc::{AllocError, Global};
use std::marker::Brand;

/// Names one table, the tree whose processes have seats there, and how many passes are given. What works with
/// seats is generic over it, and is called with `Brand`.
pub trait Seats {
    ghost use Rattle.std.specs.Prelude.{List, ℕ};
    ghost use Rattle.atomic_table.specs.Seated.{TableId};
    ghost use Rattle.protocol.specs.declared.trees.TreeProcess.{TreeProcess};

    ghost table: { TableId };

    ghost tree: { List TreeProcess };

    ghost callers: { ℕ };
}

impl Seats for Brand {
    ghost use Rattle.std.specs.Prelude.{[]};
    ghost use Rattle.cluster_ties.specs.Views.{no_table};

    ghost table = { no_table };

    ghost tree = { [] };

    ghost callers = { 0 };
}

/// The rule of the table: each process's entries are the journal's of it, and the messages that it noted are
/// the first of the journal's; each pass's pairs are the journal's under its number.
pub struct Tie;

impl TableRule<ToldEntries, View, Vec<ProcessId>> for Tie {
    ghost use Rattle.std.specs.Prelude.{[]};
    ghost use Rattle.cluster_ties.specs.Views.{keeper};
    ghost use Rattle.cluster_ties.specs.Rule.{IsTied};

    ghost holds = { λ about s. IsTied about.items s.views };

    ghost first = { λ about. keeper about.items 0 0 [] };
}

/// The table. Each step is one atomic operation on its one word, which stays 0.
pub type Ties = Table<ToldEntries, View, Vec<ProcessId>, Tie, Global>;

/// A seat at it.
pub type Place = Seat<ToldEntries, View>;

/// A table at which no process has a seat yet, and the journal's seat.
#[derive(Drop)]
pub struct Opened {
    /// The table. Its key are the names of the processes.
    pub ties: Ties,
    /// The journal's seat.
    pub journal: Place,
    ghost sits: { journal.table_id ≡ ties.shared.table_id },
    ghost words: { 0 < ties.shared.table_id.words },
    ghost keeps: { journal.me ≡ (keeper ties.shared.key.items 0 0 [], []) },
}

/// One word, which is 0.
fn one_word(alloc: Global) -> Result<Vec<u64>, AllocError>
    ensures { IfOk result (λ words. words.items ≡ 0 ∷ []) }
{
    let mut words = Vec::new(alloc);
    words.push(0)?;
    Ok(words)
}

/// A table for processes with these names, which are all different, and the journal's seat. The journal is
/// empty.
pub fn open(alloc: Global, names: &Vec<ProcessId>) -> Result<Opened, AllocError>
    requires { AreApartProcesses names.now.items }
    ensures { IfOk result (λ o. o.ties.shared.key ≡ names.now) }
{
    let words = one_word(alloc)?;
    let (ties, journal) = Table::of_words(alloc, words.as_slice(), names)?;
    Ok(Opened { ties, journal })
}

/// The next process, in the order of their names, gets a seat. It has made nothing.
pub fn seat(ties: &Ties, journal: &mut Place) -> Place
    requires here { SitsAt ties.now.shared.table_id journal.old.table_id }
    requires journal { KeepsJournal journal.old.me }
    requires place { journal.old.me.0.journal.opened < length ties.now.shared.key.items }
    ensures journal { (journal.new.table_id ≡ journal.old.table_id)
        × (journal.new.me ≡ (
          keeper journal.old.me.0.journal.names (journal.old.me.0.journal.opened + 1)
              journal.old.me.0.journal.given journal.old.me.0.journal.all,
          [],
        )) }
    ensures seat { (result.table_id ≡ journal.old.table_id)
        × (result.me ≡ (
          worker (process_at journal.old.me.0.journal.opened
              (slice_get journal.old.me.0.journal.names journal.old.me.0.journal.opened) [] []),
          [],
        )) }
{
    ties.shared.split_seat::<Opens>(journal)
}

/// A new pass, which notes nothing yet. Its caller's number is how many passes were given before.
pub fn give(ties: &Ties, journal: &mut Place) -> Place
    requires here { SitsAt ties.now.shared.table_id journal.old.table_id }
    requires journal { KeepsJournal journal.old.me }
    ensures journal { (journal.new.table_id ≡ journal.old.table_id)
        × (journal.new.me ≡ (
          keeper journal.old.me.0.journal.names journal.old.me.0.journal.opened
              (journal.old.me.0.journal.given + 1) journal.old.me.0.journal.all,
          [],
        )) }
    ensures pass { (result.table_id ≡ journal.old.table_id)
        × (result.me ≡ (holder journal.old.me.0.journal.given [], [])) }
{
    ties.shared.split_seat::<Gives>(journal)
}
