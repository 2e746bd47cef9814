//! The records of a process that a crash may take.

ghost use Rattle.std.specs.Prelude.{◌≡◌, [], OnOk};
ghost use Rattle.picture_parts.specs.Cut.{begun_by, own_left, record_stays, with_record, with_records, with_step};
ghost use Rattle.picture_parts.specs.Tails.{AddsStep, KeepsTails, seen, tail_in};

use crate::belonging::Belonging;
use indexmap::IndexMap;
use protocol::{Happening, ProcessId, ShownRecord, Subject, Txn};
use report_io::Failure;
use std::alloc::{AllocError, Global};

/// Of the records of a process that a crash may take: of each, whether it is drawn; and how many of those
/// that are drawn a crash could take, if the process had no others.
#[derive(Drop)]
struct Tail {
    own: u64,
    all: Vec<bool>,
}

/// Whether a record is of no other transaction than this one, if only that is drawn.
pub(crate) fn record_stays(only: Option<Txn>, logged: &ShownRecord) -> bool
    ensures { result ≡ record_stays only logged.now }
{
    match only {
        None => true,
        Some(txn) => match logged.subject {
            Subject::Boot(_) => true,
            Subject::Case(case) => case.txn.is(&txn),
            Subject::Other => true,
        },
    }
}

impl Tail {
    fn new(alloc: Global) -> Tail
        ensures own { result.own ≡ 0 }
        ensures all { result.all.items ≡ [] }
    {
        Tail {
            own: 0,
            all: Vec::new(alloc),
        }
    }

    /// One more record, which is forced or not, and drawn or not.
    fn add(&mut self, forced: bool, drawn: bool) -> Result<(), Failure>
        ensures { OnOk result (seen self.new ≡ with_record forced drawn (seen self.old)) }
    {
        if forced {
            self.all.clear();
            if drawn {
                self.own = 0;
            }
            return Ok(());
        }
        self.all.push(drawn)?;
        if drawn {
            let Some(own) = self.own.checked_add(1) else {
                return Err(Failure::Exhausted);
            };
            self.own = own;
        }
        Ok(())
    }

    /// Adds the records of a step that is drawn or not.
    fn add_all(
        &mut self,
        only: Option<Txn>,
        shown: bool,
        written: &[ShownRecord],
    ) -> Result<(), Failure>
        ensures { OnOk result (seen self.new ≡ with_records only shown (seen self.old) written.now) }
    {
        for logged in written {
            self.add(logged.forced, shown && record_stays(only, logged))?;
        }
        Ok(())
    }

    /// A step begins: a restart and a trim leave no record that a crash may take.
    fn begin(&mut self, shown: bool, happening: &Happening) -> Result<(), Failure>
        ensures { OnOk result (seen self.new ≡ begun_by shown happening.now (seen self.old)) }
    {
        match happening {
            Happening::Input(_) => Ok(()),
            Happening::Restart(_) => self.add(true, shown),
            Happening::Trim => self.add(true, shown),
        }
    }

    /// A step of the process.
    fn add_step(&mut self, only: Option<Txn>, marked: &Belonging) -> Result<(), Failure>
        ensures { OnOk result (seen self.new ≡ with_step only (seen self.old) marked.now) }
    {
        self.begin(marked.shown, &marked.entry.step.happening)?;
        self.add_all(only, marked.shown, marked.entry.reaction.written.as_slice())
    }

    /// Of the records that are drawn, how many a crash leaves that leaves N of all.
    fn own_left(&self, kept: u64) -> u64
        ensures { result ≡ own_left (seen self.now) kept }
    {
        let from = match usize::try_from(kept) {
            Ok(kept) => kept.min(self.all.len()),
            Err(_) => self.all.len(),
        };
        let taken = self.all[from..].iter().filter(|drawn| **drawn).count() as u64;
        self.own.saturating_sub(taken)
    }
}

/// The records of each process that a crash may take. They are kept while steps are gone over, so that no
/// crash looks back.
#[derive(Drop)]
pub(crate) struct Tails {
    alloc: Global,
    tails: IndexMap<ProcessId, Tail>,
}

impl Tails {
    /// Those before all steps.
    pub(crate) fn new(alloc: Global) -> Tails
        ensures { result.tails.entries ≡ [] }
    {
        Tails {
            alloc,
            tails: IndexMap::new(alloc),
        }
    }

    /// Takes out what is kept of a process.
    #[tactic(auto, unfolding(protocol::specs::Names::same_process))]
    fn remove(&mut self, process: ProcessId) -> Tail
        ensures own { seen result ≡ tail_in self.old.tails.entries process }
        ensures others { KeepsTails process self.old.tails.entries self.new.tails.entries }
    {
        match self.tails.swap_remove(&process) {
            None => Tail::new(self.alloc),
            Some(tail) => tail,
        }
    }

    /// Keeps this of a process.
    #[tactic(auto, unfolding(protocol::specs::Names::same_process))]
    fn insert(&mut self, process: ProcessId, tail: Tail) -> Result<(), AllocError>
        ensures own { OnOk result (tail_in self.new.tails.entries process ≡ seen tail) }
        ensures others { OnOk result (KeepsTails process self.old.tails.entries self.new.tails.entries) }
    {
        let _ = self.tails.insert(process, tail)?;
        Ok(())
    }

    /// Adds a step.
    pub(crate) fn add(&mut self, only: Option<Txn>, marked: &Belonging) -> Result<(), Failure>
        ensures { OnOk result (AddsStep only marked.now self.old.tails.entries self.new.tails.entries) }
    {
        let process = marked.entry.step.process;
        let mut tail = self.remove(process);
        tail.add_step(only, marked)?;
        self.insert(process, tail)?;
        Ok(())
    }

    /// Of the records of a process that are drawn, how many a crash leaves that leaves N of all.
    pub(crate) fn own_left(&self, process: ProcessId, kept: u64) -> u64
        ensures { result ≡ own_left (tail_in self.now.tails.entries process) kept }
    {
        match self.tails.get(&process) {
            None => 0,
            Some(tail) => tail.own_left(kept),
        }
    }
}
