//! What a restart makes of the records that a crash leaves.

ghost use Rattle.std.specs.Prelude.{IfErr, IfOk, List};
ghost use Rattle.protocol.specs.LogNames.{own_records};
ghost use Rattle.protocol.specs.declared.records.LogRecord.{LogRecord};
ghost use Rattle.protocol.specs.declared.trees.TreeProcess.{TreeProcess};
ghost use Rattle.coord_cases.specs.Restores.{CasesNotRebuilt, RebuildsCases};
ghost use Rattle.coord_records.specs.Readings.{place_below};
ghost use Rattle.coord_records.specs.Remembered.{RemembersCases};

use crate::cases::LiveCases;
use crate::reopening::{all_shown, framed};
use crate::restoring::restores;
use coord_records::{RememberedCases, RestartPlan, plan};
use log_text::Frame;
use protocol::{ProcessId, Reaction, StepError};
use std::alloc::Global;

/// A coordinator as it restarts: its boot, the frames of the records that it appends, its live cases, the
/// reaction, and what it remembers of all records of its log for its next restart.
#[derive(Drop)]
pub struct RebuiltCases {
    pub boot: u64,
    pub frames: Vec<Frame>,
    pub cases: LiveCases,
    pub reaction: Reaction,
    pub remembered: RememberedCases,
}

/// What the coordinator `me` below this parent is, as it restarts with the records of its log of which this
/// is remembered. Exhausted: no log holds a record that it would append, since the next boot would be 2^63,
/// or an Abort would name more than 255 tickets.
pub fn rebuild(
    alloc: Global,
    me: ProcessId,
    parent: Option<ProcessId>,
    remembered: RememberedCases,
) -> Result<RebuiltCases, StepError>
    ensures ok { IfOk result (λ r. (tree : List TreeProcess) (ls : List LogRecord)
        → RemembersCases (own_records (place_below me parent tree) ls) remembered
        → RebuildsCases (place_below me parent tree) ls r) }
    ensures err { IfErr result (λ e. (tree : List TreeProcess) (ls : List LogRecord)
        → RemembersCases (own_records (place_below me parent tree) ls) remembered
        → CasesNotRebuilt (place_below me parent tree) ls e) }
{
    let RestartPlan {
        appended,
        mut remembered,
    } = plan(alloc, remembered)?;
    let written = all_shown(alloc, &appended)?;
    let frames = framed(alloc, parent, &appended)?;
    let boot = remembered.reading().boot();
    let (cases, messages) = restores(alloc, me, parent, remembered.reading())?;
    remembered.forget();
    Ok(RebuiltCases {
        boot,
        frames,
        cases,
        reaction: Reaction {
            begun: None,
            written,
            told: None,
            messages,
            kept: None,
        },
        remembered,
    })
}
