//! Where a case stands by the records of a log, found without memory.

ghost use Rattle.std.specs.Prelude.{◌≡◌, map};
ghost use Rattle.protocol.specs.Restarts.{recorded_view};
ghost use Rattle.coord_records.specs.Progress.{progress_after, reaches, decides, standing_by};

use crate::recorded::{CaseStage, names_nobody};
use protocol::{Case, LogRecord, Record, Standing, Ticket};

/// How far the records of a case have come, and whether the decisions among them name nobody.
#[derive(Clone, Copy)]
struct Progress {
    stage: CaseStage,
    nobody: bool,
}

impl Progress {
    /// A record of this stage.
    fn reaches(self, stage: CaseStage) -> Progress
        ensures { result ≡ reaches stage self }
    {
        Progress {
            stage: self.stage.furthest(stage),
            nobody: self.nobody,
        }
    }

    /// A decision, which names these.
    fn decides(self, stage: CaseStage, tickets: &[Ticket]) -> Progress
        ensures { result ≡ decides stage tickets.now self }
    {
        Progress {
            stage: self.stage.furthest(stage),
            nobody: self.nobody && names_nobody(tickets),
        }
    }

    /// One record more, if it is of the case.
    fn behind(self, record: &Record, case: &Case) -> Progress
        ensures { result ≡ progress_after case.now self record.now }
    {
        match record {
            Record::Collecting(other, _) if other.is(case) => self.reaches(CaseStage::Collecting),
            Record::Prepare(other, _) if other.is(case) => self.reaches(CaseStage::Prepared),
            Record::Commit(other, tickets) if other.is(case) => {
                self.decides(CaseStage::Committed, tickets.as_slice())
            }
            Record::Abort(other, tickets) if other.is(case) => {
                self.decides(CaseStage::Aborted, tickets.as_slice())
            }
            Record::End(other, _) if other.is(case) => self.reaches(CaseStage::Ended),
            _ => self,
        }
    }

    /// Where the case stands.
    fn standing(self) -> Standing
        ensures { result ≡ standing_by self }
    {
        self.stage.standing(self.nobody)
    }
}

/// Where a case stands by these records of its process's log; one without a record is Unknown. It goes
/// through them once, and takes no memory.
pub fn standing(records: &[LogRecord], case: &Case) -> Standing
    ensures { result ≡ (recorded_view (map (λ l. l.entry) records.now) case.now).standing }
{
    let mut progress = Progress {
        stage: CaseStage::Nothing,
        nobody: true,
    };
    let mut rest = records;
    while let [record, behind @ ..] = rest {
        progress = progress.behind(&record.entry, case);
        rest = behind;
    }
    progress.standing()
}
