//! The counts of all processes of a tree.

ghost use Rattle.std.specs.Prelude.{◌≡◌, ◌++◌, ◌∷◌, [], IfErr, IfOk, List, OnOk, map};
ghost use Rattle.protocol_words.specs.Types.{AnyEntry};
ghost use Rattle.protocol.specs.declared.trees.TreeProcess.{TreeProcess as AnyTreeEntry};
ghost use Rattle.protocol.specs.Names.{same_process};
ghost use Rattle.tree_engine.specs.Counts.{AllFit, Fit, row_behind, rows_of, total_of};

use crate::counts::Counts;
use protocol::{JournalEntry, ProcessId, TreeProcess};
use report_io::Failure;
use std::alloc::{AllocError, Global};
use std::marker::Model;

/// What one process has written and sent.
#[derive(Clone, Copy, PartialEq, Eq)]
pub struct ProcessCounts {
    pub process: ProcessId,
    pub counts: Counts,
}

/// Whether a step is of this process.
#[tactic(auto, unfolding(protocol::specs::Names::same_process))]
fn is_at(entry: &JournalEntry, process: ProcessId) -> bool
    ensures { result ≡ same_process entry.now.step.process process }
{
    entry.step.process == process
}

impl ProcessCounts {
    /// The counts after a step more. Exhausted: a sum is 2^64 or more.
    fn behind(self, entry: &JournalEntry) -> Result<ProcessCounts, Failure>
        ensures ok { IfOk result (λ row. row ≡ row_behind entry.now self) }
        ensures err { IfErr result (λ e. (e ≡ Failure.Exhausted)
            × (Fit (row_behind entry.now self).counts → ⊥)) }
    {
        if !is_at(entry, self.process) {
            return Ok(self);
        }
        match self.counts.plus(Counts::of(&entry.reaction)) {
            None => Err(Failure::Exhausted),
            Some(counts) => Ok(ProcessCounts {
                process: self.process,
                counts,
            }),
        }
    }
}

/// What each process of a tree has written and sent, in the order of the tree. Contracts see the list.
#[derive(Drop)]
pub struct RunCounts {
    rows: Vec<ProcessCounts>,
}

impl Model for RunCounts {
    ghost use Rattle.std.specs.Prelude.{List};
    ghost use Rattle.tree_engine.specs.declared.rows.ProcessCounts.{ProcessCounts};

    ghost Value = { List ProcessCounts };

    ghost view = { λ c. c.rows.items };
}

/// The rows after a step more. Exhausted: a sum is 2^64 or more.
fn add_entry(rows: &mut [ProcessCounts], entry: &JournalEntry) -> Result<(), Failure>
    ensures ok { OnOk result (rows.new ≡ map (row_behind entry.now) rows.old) }
    ensures err { IfErr result (λ e. (e ≡ Failure.Exhausted)
        × (AllFit (map (row_behind entry.now) rows.old) → ⊥)) }
{
    for row in rows.iter_mut() {
        *row = row.behind(entry)?;
    }
    Ok(())
}

impl RunCounts {
    /// Before the first step of a run of these processes.
    #[tactic(auto, unfolding(crate::specs::Counts::rows_of))]
    pub fn new(alloc: Global, processes: &[TreeProcess]) -> Result<RunCounts, AllocError>
        ensures { IfOk result (λ counts. counts ≡ rows_of processes.now []) }
    {
        let mut rows = Vec::new(alloc);
        for entry in processes {
            rows.push(ProcessCounts {
                process: entry.id,
                counts: Counts::none(),
            })?;
        }
        Ok(RunCounts { rows })
    }

    /// Counts a step more of the run. Exhausted: a sum is 2^64 or more, and it counts nothing that can be
    /// told.
    pub fn add(&mut self, entry: &JournalEntry) -> Result<(), Failure>
        ensures ok { OnOk result ((tree : List AnyTreeEntry) (entries : List AnyEntry)
            → self.old ≡ rows_of tree entries → self.new ≡ rows_of tree (entries ++ entry.now ∷ [])) }
        ensures err { IfErr result (λ e. (e ≡ Failure.Exhausted)
            × ((tree : List AnyTreeEntry) (entries : List AnyEntry) → self.old ≡ rows_of tree entries
            → AllFit (rows_of tree (entries ++ entry.now ∷ [])) → ⊥)) }
    {
        add_entry(self.rows.as_mut_slice(), entry)
    }

    /// The sums of all processes' counts. Exhausted: one is 2^64 or more.
    #[tactic(auto, unfolding(crate::specs::Counts::total_of))]
    pub fn total(&self) -> Result<Counts, Failure>
        ensures ok { IfOk result (λ total. total ≡ total_of self.now) }
        ensures err { IfErr result (λ e. (e ≡ Failure.Exhausted) × (Fit (total_of self.now) → ⊥)) }
    {
        let mut total = Counts::none();
        for row in self.rows() {
            let Some(sum) = total.plus(row.counts) else {
                return Err(Failure::Exhausted);
            };
            total = sum;
        }
        Ok(total)
    }

    /// The counts, as a slice.
    pub fn rows(&self) -> &[ProcessCounts]
        ensures { result.now ≡ self.now }
    {
        self.rows.as_slice()
    }
}
