//! The live cases, and what each of them sends again.

ghost use Rattle.std.specs.Prelude.{◌≡◌, None, IfOk, OnOk};
ghost use Rattle.case_table.specs.Tables.{live_value};
ghost use Rattle.coord_records.specs.Summaries.{restored_view};
ghost use Rattle.coord_cases.specs.Restores.{RestoresAll, RestoresNext};

use crate::cases::LiveCases;
use coord_case::Live;
use coord_records::{CaseReading, Recorded};
use coord_rows::{OwnCase, resume};
use protocol::{Envelopes, ProcessId, Sequence, Standing};
use std::alloc::{AllocError, Global};

/// The live case: who owes has acknowledged nothing yet.
fn live_again(alloc: Global, recorded: &Recorded, standing: Standing) -> Result<Live, AllocError>
    ensures { IfOk result (λ live. live ≡ restored_view standing recorded.now) }
{
    Live::restored(
        alloc,
        standing,
        recorded.promised(),
        recorded.named(),
        recorded.owing(),
    )
}

/// One case more, and what it sends.
fn restore(
    alloc: Global,
    seat: OwnCase,
    recorded: &Recorded,
    cases: &mut LiveCases,
    messages: &mut Envelopes,
) -> Result<(), AllocError>
    requires new { live_value cases.old seat.case ≡ None }
    ensures { OnOk result (RestoresNext seat recorded.now cases.old cases.new
        messages.old messages.new) }
{
    let standing = recorded.standing();
    if standing == Standing::Unknown {
        return Ok(());
    }
    let live = live_again(alloc, recorded, standing)?;
    resume(messages, seat, &live)?;
    cases.restore(seat.case, live)?;
    Ok(())
}

/// The live cases, and what each sends again, in order of their first records.
pub(crate) fn restores(
    alloc: Global,
    me: ProcessId,
    parent: Option<ProcessId>,
    reading: &CaseReading,
) -> Result<(LiveCases, Envelopes), AllocError>
    ensures { IfOk result (λ r. RestoresAll me parent reading.now r.0 r.1) }
{
    let mut cases = LiveCases::new(alloc);
    let mut messages = Sequence::new(alloc);
    for (case, recorded) in reading.cases().iter() {
        let seat = OwnCase {
            me,
            parent,
            case: *case,
        };
        restore(alloc, seat, recorded, &mut cases, &mut messages)?;
    }
    Ok((cases, messages))
}
