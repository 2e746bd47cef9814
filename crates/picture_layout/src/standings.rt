//! How the cases of a run stand, from step to step: in doubt, decided by an operator, or neither; and what
//! its crashes take.

use crate::seats::{Column, place_of};
use crate::stretches::{Band, Change};
use indexmap::{IndexMap, IndexSet};
use protocol::{
    Case, Happening, Input, JournalEntry, Message, Outcome, RecordKind, ShownRecord, Subject, Txn,
};
use std::alloc::{AllocError, Global};

/// How a case stands.
#[derive(Clone, Copy, PartialEq, Eq)]
enum Standing {
    Plain,
    InDoubt,
    Decided(Outcome),
}

/// A record that is not forced, and how its case stood before it, if it is of one.
#[derive(Clone, Copy)]
struct Unforced {
    /// Its number among all records of the run, from 0.
    number: usize,
    logged: ShownRecord,
    before: Option<(Case, Standing)>,
}

/// A crash and the records that it takes.
#[derive(Drop)]
pub struct Crash {
    pub step: usize,
    pub lost: Vec<ShownRecord>,
}

/// A step in which a process is told another outcome than its operator's decision.
#[derive(Clone, Copy)]
pub struct Mismatch {
    pub step: usize,
    pub told: Outcome,
}

/// How many cases of a process are in doubt at the end, and how many were decided otherwise by an operator.
#[derive(Clone, Copy)]
pub struct LastState {
    pub place: u32,
    pub doubts: u64,
    pub mismatches: u64,
}

/// What a run's steps make of its cases and its records.
#[derive(Drop)]
pub struct History {
    /// Of each record, in the order of the run, whether a crash takes it.
    pub lost: Vec<bool>,
    pub crashes: Vec<Crash>,
    pub mismatches: Vec<Mismatch>,
    pub changes: Vec<Change>,
    pub endings: Vec<LastState>,
}

/// What is known of a run so far.
#[derive(Drop)]
struct Past {
    alloc: Global,
    history: History,
    standings: IndexMap<Case, Standing>,
    /// Of each process, by its place, the records that a crash may take.
    unforced: Vec<Vec<Unforced>>,
    /// The transactions that a root committed.
    committed: IndexSet<Txn>,
}

/// The record of a step, by the rows below the step's first one.
#[derive(Clone, Copy)]
struct Spot {
    place: u32,
    step: usize,
    offset: u32,
}

/// Whether a case that stands so is in doubt, or decided by an operator.
fn is_in(standing: Standing, band: Band) -> bool {
    match band {
        Band::Doubt => standing == Standing::InDoubt,
        Band::Operator => matches!(standing, Standing::Decided(_)),
    }
}

/// How a case is after a record of this kind.
fn standing_behind(kind: RecordKind) -> Standing {
    match kind {
        RecordKind::Prepare | RecordKind::Prepared => Standing::InDoubt,
        RecordKind::HeurCommit => Standing::Decided(Outcome::Committed),
        RecordKind::HeurRollback => Standing::Decided(Outcome::Aborted),
        _ => Standing::Plain,
    }
}

/// The outcome that a step told its process, if it did.
fn told_by(entry: &JournalEntry) -> Option<Outcome> {
    match &entry.step.happening {
        Happening::Input(Input::Message(_, Message::Commit(_))) => Some(Outcome::Committed),
        Happening::Input(Input::Message(_, Message::Abort(_))) => Some(Outcome::Aborted),
        _ => None,
    }
}

impl Past {
    fn new(alloc: Global, seats: &[Column]) -> Result<Past, AllocError> {
        let mut unforced = Vec::new(alloc);
        for _ in seats {
            unforced.push(Vec::new(alloc))?;
        }
        Ok(Past {
            alloc,
            history: History {
                lost: Vec::new(alloc),
                crashes: Vec::new(alloc),
                mismatches: Vec::new(alloc),
                changes: Vec::new(alloc),
                endings: Vec::new(alloc),
            },
            standings: IndexMap::new(alloc),
            unforced,
            committed: IndexSet::new(alloc),
        })
    }

    fn standing(&self, case: &Case) -> Standing {
        match self.standings.get(case) {
            None => Standing::Plain,
            Some(standing) => *standing,
        }
    }

    /// Notes where a stretch begins or ends.
    fn change(
        &mut self,
        spot: Spot,
        band: Band,
        before: Standing,
        behind: Standing,
    ) -> Result<(), AllocError> {
        if is_in(before, band) != is_in(behind, band) {
            self.history.changes.push(Change {
                place: spot.place,
                step: spot.step,
                offset: spot.offset,
                band,
                begins: is_in(behind, band),
            })?;
        }
        Ok(())
    }

    /// The case stands so from this spot on.
    fn stand(&mut self, spot: Spot, case: Case, behind: Standing) -> Result<(), AllocError> {
        let before = self.standing(&case);
        self.change(spot, Band::Doubt, before, behind)?;
        self.change(spot, Band::Operator, before, behind)?;
        let _ = self.standings.insert(case, behind)?;
        Ok(())
    }

    /// Keeps a record that is not forced; a forced one leaves none that a crash may take.
    fn keep(&mut self, place: u32, unforced: Unforced) -> Result<(), AllocError> {
        let Some(list) = self.unforced.get_mut(place as usize) else {
            return Ok(());
        };
        if unforced.logged.forced {
            list.clear();
        } else {
            list.push(unforced)?;
        }
        Ok(())
    }

    /// A record of a step, whose process is told this outcome in it, if it is told one.
    fn write(
        &mut self,
        spot: Spot,
        logged: ShownRecord,
        told: Option<Outcome>,
    ) -> Result<(), AllocError> {
        let number = self.history.lost.len();
        self.history.lost.push(false)?;
        let Subject::Case(case) = logged.subject else {
            return self.keep(
                spot.place,
                Unforced {
                    number,
                    logged,
                    before: None,
                },
            );
        };
        let before = self.standing(&case);
        self.keep(
            spot.place,
            Unforced {
                number,
                logged,
                before: Some((case, before)),
            },
        )?;
        if logged.kind == RecordKind::Commit && case.ticket.is_none() {
            let _ = self.committed.insert(case.txn)?;
        }
        match (logged.kind, before, told) {
            (RecordKind::Told, Standing::Decided(own), Some(told)) if own != told => {
                self.history.mismatches.push(Mismatch {
                    step: spot.step,
                    told,
                })?;
                Ok(())
            }
            _ => self.stand(spot, case, standing_behind(logged.kind)),
        }
    }

    /// A crash takes a record: it is lost, and its case stands as before it.
    fn lose(&mut self, spot: Spot, taken: &Unforced) -> Result<(), AllocError> {
        if let Some(lost) = self.history.lost.get_mut(taken.number) {
            *lost = true;
        }
        match taken.before {
            None => Ok(()),
            Some((case, before)) => self.stand(spot, case, before),
        }
    }

    /// The records of a process that a crash takes, if it leaves N of those that are not forced.
    fn taken(&mut self, place: u32, kept: u64) -> Result<Vec<Unforced>, AllocError> {
        let mut taken = Vec::new(self.alloc);
        let Some(list) = self.unforced.get_mut(place as usize) else {
            return Ok(taken);
        };
        let kept = if kept < list.len() as u64 {
            kept as usize
        } else {
            list.len()
        };
        taken.extend_from_slice(&list.as_slice()[kept..])?;
        list.clear();
        Ok(taken)
    }

    /// A process crashes, and N of its records that are not forced are kept.
    fn crash(&mut self, spot: Spot, kept: u64) -> Result<(), AllocError> {
        let taken = self.taken(spot.place, kept)?;
        let mut lost = Vec::new(self.alloc);
        for one in &taken {
            lost.push(one.logged)?;
        }
        for one in taken.iter().rev() {
            self.lose(spot, one)?;
        }
        self.history.crashes.push(Crash {
            step: spot.step,
            lost,
        })?;
        Ok(())
    }

    /// The records of a step.
    fn write_all(&mut self, spot: Spot, entry: &JournalEntry) -> Result<(), AllocError> {
        let told = told_by(entry);
        let mut spot = spot;
        for logged in entry.reaction.written.as_slice() {
            self.write(spot, *logged, told)?;
            spot.offset = spot.offset.saturating_add(1);
        }
        Ok(())
    }

    /// A step.
    fn go_on(&mut self, spot: Spot, entry: &JournalEntry) -> Result<(), AllocError> {
        match &entry.step.happening {
            Happening::Restart(kept) => {
                self.crash(spot, *kept)?;
                self.write_all(Spot { offset: 1, ..spot }, entry)
            }
            Happening::Trim => {
                if let Some(list) = self.unforced.get_mut(spot.place as usize) {
                    list.clear();
                }
                Ok(())
            }
            Happening::Input(_) => self.write_all(spot, entry),
        }
    }

    /// Counts a case at the end.
    fn end(&mut self, seats: &[Column], case: &Case, standing: Standing) {
        let place = place_of(seats, case.process());
        let differs = match standing {
            Standing::Decided(Outcome::Committed) => !self.committed.contains(&case.txn),
            Standing::Decided(Outcome::Aborted) => self.committed.contains(&case.txn),
            _ => false,
        };
        let Some(ending) = self.history.endings.get_mut(place as usize) else {
            return;
        };
        if standing == Standing::InDoubt {
            ending.doubts = ending.doubts.saturating_add(1);
        }
        if differs {
            ending.mismatches = ending.mismatches.saturating_add(1);
        }
    }

    /// What there is to tell at the end.
    fn finish(mut self, seats: &[Column]) -> Result<History, AllocError> {
        for seat in seats {
            self.history.endings.push(LastState {
                place: seat.place,
                doubts: 0,
                mismatches: 0,
            })?;
        }
        let mut cases = Vec::new(self.alloc);
        for (case, standing) in self.standings.iter() {
            cases.push((*case, *standing))?;
        }
        for (case, standing) in &cases {
            self.end(seats, case, *standing);
        }
        Ok(self.history)
    }
}

/// What the steps of a run make of its cases and its records, over these processes.
pub fn history_of(
    alloc: Global,
    seats: &[Column],
    entries: &[JournalEntry],
) -> Result<History, AllocError> {
    let mut past = Past::new(alloc, seats)?;
    for (step, entry) in entries.iter().enumerate() {
        let spot = Spot {
            place: place_of(seats, entry.step.process),
            step,
            offset: 0,
        };
        past.go_on(spot, entry)?;
    }
    past.finish(seats)
}
