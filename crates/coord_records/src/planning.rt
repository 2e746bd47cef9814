//! What a restart makes of the records that a crash leaves.

ghost use Rattle.std.specs.Prelude.{◌≡◌, ◌<◌, ◌+◌, ◌^◌, ◌++◌, IfErr, IfOk, List, OnOk};
ghost use Rattle.protocol.specs.declared.records.Record.{Record as AnyRecord};
ghost use Rattle.protocol.specs.Records.{boot_of};
ghost use Rattle.coord_records.specs.Plans.{IsPlan, NotPlanned};
ghost use Rattle.coord_records.specs.Readings.{abort_of, reopened_by};
ghost use Rattle.coord_records.specs.Remembered.{RemembersCases};

use crate::reading::CaseReading;
use crate::recorded::Recorded;
use crate::remembered::RememberedCases;
use protocol::{Case, LAST_NUMBER, Record, Standing, StepError};
use std::alloc::{AllocError, Global};

/// What a restart appends to a log, and what all records of the log then say.
#[derive(Drop)]
pub struct RestartPlan {
    pub appended: Vec<Record>,
    pub remembered: RememberedCases,
}

/// An Abort record of a case that collected votes, which names all that any of its records names.
fn push_abort(
    alloc: Global,
    records: &mut Vec<Record>,
    case: Case,
    recorded: &Recorded,
) -> Result<(), AllocError>
    ensures { OnOk result (records.new.items ≡ records.old.items ++ abort_of (case, recorded.now)) }
{
    match recorded.standing() {
        Standing::Collecting => {
            records.push(Record::Abort(case, recorded.named_again(alloc)?))?;
            Ok(())
        }
        _ => Ok(()),
    }
}

/// The records that a restart appends: Opened with the next boot, and an Abort record of each case that
/// collected votes.
fn reopens(alloc: Global, reading: &CaseReading) -> Result<Vec<Record>, AllocError>
    requires { reading.now.boot + 1 < 2 ^ 63 }
    ensures { IfOk result (λ records. records.items ≡ reopened_by reading.now) }
{
    let mut records = Vec::new(alloc);
    records.push(Record::Opened(reading.boot + 1))?;
    for (case, recorded) in &reading.cases {
        push_abort(alloc, &mut records, *case, recorded)?;
    }
    Ok(records)
}

/// What a restart makes of the records of a log of which this is remembered. Exhausted: the next boot would
/// be 2^63 or more.
pub fn plan(alloc: Global, remembered: RememberedCases) -> Result<RestartPlan, StepError>
    ensures ok { IfOk result (λ plan. (rs : List AnyRecord) → RemembersCases rs remembered → IsPlan rs plan) }
    ensures err { IfErr result (λ e. (rs : List AnyRecord) → RemembersCases rs remembered
        → NotPlanned (boot_of rs) e) }
{
    let mut remembered = remembered;
    if remembered.reading.boot >= LAST_NUMBER {
        return Err(StepError::Exhausted);
    }
    let appended = reopens(alloc, &remembered.reading)?;
    remembered.reading.note_all(&appended)?;
    Ok(RestartPlan {
        appended,
        remembered,
    })
}
