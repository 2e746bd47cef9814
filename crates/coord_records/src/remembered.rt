//! What a restart remembers of its log, so that the next one reads on from there.

ghost use Rattle.std.specs.Prelude.{◌≡◌, ◌++◌, ◌∷◌, [], false, true, IfOk, List, filter};
ghost use Rattle.protocol.specs.LogNames.{own_by, own_records};
ghost use Rattle.protocol.specs.Records.{record_case};
ghost use Rattle.protocol.specs.declared.records.Record.{Record as AnyRecord};
ghost use Rattle.coord_records.specs.Readings.{place_below};
ghost use Rattle.coord_records.specs.Remembered.{MayFollow, RemembersCases, is_known, is_needed};

use crate::numbers::numbered_in;
use crate::reading::{CaseReading, is_own};
use crate::recorded::Recorded;
use protocol::{Case, LogRecord, ProcessId, Record, Standing, Tree};
use std::alloc::{AllocError, Global};
use std::marker::Model;

/// What the records of a log say, to be read on from. Cases may be left out that were Unknown when `forget`
/// was called and were numbered in a boot before `reached`: a process writes no more of most of them, and
/// `read_on` looks for records that it wrote none the less.
#[derive(Drop)]
pub struct RememberedCases {
    pub(crate) reading: CaseReading,
    pub(crate) reached: u64,
}

impl Model for RememberedCases {
    ghost use Rattle.coord_records.specs.Remembered.{LogMemory};

    ghost Value = { LogMemory };

    ghost view = { λ m. record { said = m.reading; reached = m.reached } };
}

/// Whether a case that stands so is not Unknown.
fn is_known(standing: Standing) -> bool
    ensures { result ≡ is_known standing }
{
    match standing {
        Standing::Unknown => false,
        _ => true,
    }
}

/// Whether a case must be remembered of which this was recorded, if the log has reached this boot: it is not
/// Unknown, or its first records may still come.
fn is_needed(boot: u64, case: &Case, recorded: &Recorded) -> bool
    ensures { result ≡ is_needed boot (case.now, recorded.now) }
{
    is_known(recorded.standing()) || boot <= numbered_in(case)
}

/// Whether the record is of a case that is not the process's own.
fn is_foreign(me: ProcessId, parent: Option<ProcessId>, tree: &Tree, record: &LogRecord) -> bool
    ensures yes { result ≡ true
        → own_by (place_below me parent tree.now) record.now (record_case record.now.entry) ≡ [] }
    ensures no { result ≡ false
        → own_by (place_below me parent tree.now) record.now (record_case record.now.entry)
        ≡ record.now.entry ∷ [] }
{
    match record.entry.case() {
        None => false,
        Some(case) => !is_own(me, parent, tree, record.parent, &case),
    }
}

impl CaseReading {
    /// The cases leave that need not be remembered, if the log has reached this boot.
    fn forget(&mut self, boot: u64)
        ensures { self.new ≡ record self.old { table = filter (is_needed boot) self.old.table } }
    {
        self.cases.retain(
            |case: &Case, recorded: &mut Recorded| -> bool
                ensures { (result ≡ is_needed boot (case.now, recorded.old)) × (recorded.new ≡ recorded.old) }
            { is_needed(boot, case, recorded) },
        );
    }
}

impl RememberedCases {
    /// What the records of a log say to the coordinator `me` below this parent, whose log it is. It goes
    /// through them once.
    pub fn of(
        alloc: Global,
        me: ProcessId,
        parent: Option<ProcessId>,
        tree: &Tree,
        records: &[LogRecord],
    ) -> Result<RememberedCases, AllocError>
        ensures { IfOk result (RemembersCases (own_records (place_below me parent tree.now) records.now)) }
    {
        let reading = CaseReading::of(alloc, me, parent, tree, records)?;
        Ok(RememberedCases {
            reading,
            reached: 0,
        })
    }

    /// What the records say, but for the cases that are left out.
    pub fn reading(&self) -> &CaseReading
        ensures { result.now ≡ self.now.said }
    {
        &self.reading
    }

    /// Whether the case, if there is one, may be one that was left out.
    fn may_be_out(&self, case: Option<Case>) -> bool
        ensures { result ≡ false → MayFollow self.now case }
    {
        match case {
            None => false,
            Some(case) => {
                self.reading.cases.get(&case).is_none() && numbered_in(&case) < self.reached
            }
        }
    }

    /// One record more. False: it is of a case that may be left out, and nothing changed.
    fn note(&mut self, record: &Record) -> Result<bool, AllocError>
        ensures { IfOk result (λ noted. noted ≡ true → (rs : List AnyRecord) → RemembersCases rs self.old
            → RemembersCases (rs ++ record.now ∷ []) self.new) }
    {
        if self.may_be_out(record.case()) {
            return Ok(false);
        }
        self.reading.note(record)?;
        Ok(true)
    }

    /// One record more of the log, if it is of a case of the process's own or of none.
    fn take(
        &mut self,
        me: ProcessId,
        parent: Option<ProcessId>,
        tree: &Tree,
        record: &LogRecord,
    ) -> Result<bool, AllocError>
        ensures { IfOk result (λ noted. noted ≡ true → (rs : List AnyRecord) → RemembersCases rs self.old
            → RemembersCases (rs ++ own_by (place_below me parent tree.now) record.now
            (record_case record.now.entry))
            self.new) }
    {
        if is_foreign(me, parent, tree, record) {
            return Ok(true);
        }
        self.note(&record.entry)
    }

    /// Reads on, in these records of the log, which come after those that were read. False: one of them is of
    /// a case that may be left out, so that the log must be read from its start, and this must be dropped.
    pub fn read_on(
        &mut self,
        me: ProcessId,
        parent: Option<ProcessId>,
        tree: &Tree,
        records: &[LogRecord],
    ) -> Result<bool, AllocError>
        ensures { IfOk result (λ read. read ≡ true → (rs : List AnyRecord) → RemembersCases rs self.old
            → RemembersCases (rs ++ own_records (place_below me parent tree.now) records.now) self.new) }
    {
        let mut rest = records;
        while let [record, behind @ ..] = rest {
            if !self.take(me, parent, tree, record)? {
                return Ok(false);
            }
            rest = behind;
        }
        Ok(true)
    }

    /// Leaves out the cases that are Unknown and were numbered in a boot before the last one. It takes no
    /// memory.
    pub fn forget(&mut self)
        ensures { (rs : List AnyRecord) → RemembersCases rs self.old → RemembersCases rs self.new }
    {
        let boot = self.reading.boot();
        self.reading.forget(boot);
        self.reached = self.reached.max(boot);
    }
}
