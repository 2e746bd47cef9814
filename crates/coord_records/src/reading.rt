//! One pass over the records of a log.

ghost use Rattle.std.specs.Prelude.{◌≡◌, ◌++◌, IfOk, OnOk, fold};
ghost use Rattle.protocol.specs.LogNames.{is_own, own_by, own_records};
ghost use Rattle.protocol.specs.Records.{record_case};
ghost use Rattle.coord_records.specs.Readings.{nothing_read, noted, noted_of, place_below, reading_of, standing_in};

use crate::recorded::Recorded;
use indexmap::IndexMap;
use protocol::{Case, LogRecord, ProcessId, Record, Standing, Tree};
use std::alloc::{AllocError, Global};
use std::marker::Model;

/// What the records of a log say: the last boot, and of each case what its records do, in order of the
/// first.
#[derive(Drop)]
pub struct CaseReading {
    pub(crate) alloc: Global,
    pub(crate) boot: u64,
    pub(crate) cases: IndexMap<Case, Recorded>,
}

impl Model for CaseReading {
    ghost use Rattle.coord_records.specs.Readings.{ReadLog};

    ghost Value = { ReadLog };

    ghost view = { λ r. record { boot = r.boot; table = r.cases.entries } };
}

/// Whether a case that the log names with this parent is the process's own.
#[tactic(auto, unfolding(protocol::specs::Names::same_process))]
pub fn is_own(
    me: ProcessId,
    parent: Option<ProcessId>,
    tree: &Tree,
    of: Option<ProcessId>,
    case: &Case,
) -> bool
    ensures { result ≡ is_own (place_below me parent tree.now) of case.now }
{
    case.txn.root == tree.root()
        && case.process() == me
        && case.ticket.is_some() == parent.is_some()
        && of == parent
}

/// One record more of a case.
fn note_of(
    alloc: Global,
    cases: &mut IndexMap<Case, Recorded>,
    case: Case,
    record: &Record,
) -> Result<(), AllocError>
    ensures { OnOk result (cases.new.entries ≡ noted_of cases.old.entries case record.now) }
{
    match cases.get_mut(&case) {
        Some(recorded) => recorded.note(record)?,
        None => {
            let mut recorded = Recorded::nothing(alloc);
            recorded.note(record)?;
            let _ = cases.insert(case, recorded)?;
        }
    }
    Ok(())
}

impl CaseReading {
    /// No records. It takes no memory.
    pub(crate) fn new(alloc: Global) -> CaseReading
        ensures { result ≡ nothing_read }
    {
        CaseReading {
            alloc,
            boot: 0,
            cases: IndexMap::new(alloc),
        }
    }

    /// One record more.
    pub(crate) fn note(&mut self, record: &Record) -> Result<(), AllocError>
        ensures { OnOk result (self.new ≡ noted self.old record.now) }
    {
        if let Record::Opened(boot) = record {
            self.boot = *boot;
            return Ok(());
        }
        match record.case() {
            None => Ok(()),
            Some(case) => note_of(self.alloc, &mut self.cases, case, record),
        }
    }

    /// These records more.
    pub(crate) fn note_all(&mut self, records: &[Record]) -> Result<(), AllocError>
        ensures { OnOk result (self.new ≡ fold noted self.old records.now) }
    {
        let mut rest = records;
        while let [record, behind @ ..] = rest {
            self.note(record)?;
            rest = behind;
        }
        Ok(())
    }

    /// One record more of the log, where it is of a case of the process's own or of none.
    fn take(
        &mut self,
        me: ProcessId,
        parent: Option<ProcessId>,
        tree: &Tree,
        record: &LogRecord,
    ) -> Result<(), AllocError>
        ensures { OnOk result (self.new ≡ fold noted self.old
            (own_by (place_below me parent tree.now) record.now (record_case record.now.entry))) }
    {
        match record.entry.case() {
            Some(case) => {
                if !is_own(me, parent, tree, record.parent, &case) {
                    return Ok(());
                }
                self.note(&record.entry)
            }
            None => self.note(&record.entry),
        }
    }

    /// What these records of a log say, noted one after another.
    #[tactic(auto, unfolding(protocol::specs::LogNames::own_records))]
    fn noting(
        alloc: Global,
        me: ProcessId,
        parent: Option<ProcessId>,
        tree: &Tree,
        records: &[LogRecord],
    ) -> Result<CaseReading, AllocError>
        ensures { IfOk result (λ r. r ≡ fold noted nothing_read
            (own_records (place_below me parent tree.now) records.now)) }
    {
        let mut reading = CaseReading::new(alloc);
        let mut rest = records;
        while let [record, behind @ ..] = rest {
            reading.take(me, parent, tree, record)?;
            rest = behind;
        }
        Ok(reading)
    }

    /// What the records of a log say to the coordinator `me` below this parent, whose log it is. It goes
    /// through them once.
    pub fn of(
        alloc: Global,
        me: ProcessId,
        parent: Option<ProcessId>,
        tree: &Tree,
        records: &[LogRecord],
    ) -> Result<CaseReading, AllocError>
        ensures { IfOk result (λ r. r ≡ reading_of
            (own_records (place_below me parent tree.now) records.now)) }
    {
        CaseReading::noting(alloc, me, parent, tree, records)
    }

    /// The last boot.
    pub fn boot(&self) -> u64
        ensures { result ≡ self.now.boot }
    {
        self.boot
    }

    /// What the records say of each case, in order of the first records.
    pub fn cases(&self) -> &IndexMap<Case, Recorded>
        ensures { result.now.entries ≡ self.now.table }
    {
        &self.cases
    }

    /// Where a case stands; one without a record is Unknown.
    pub fn standing(&self, case: &Case) -> Standing
        ensures { result ≡ standing_in self.now.table case.now }
    {
        match self.cases.get(case) {
            Some(recorded) => recorded.standing(),
            None => Standing::Unknown,
        }
    }
}
