//! The frames of the records that a restart appends, and how they are shown.

ghost use Rattle.std.specs.Prelude.{◌≡◌, ◌++◌, ◌∷◌, [], true, IfErr, IfOk, OnOk, map};
ghost use Rattle.protocol_words.specs.kind;
ghost use Rattle.protocol.specs.LogNames.{in_log};
ghost use Rattle.protocol.specs.Nodes.{logged_of};
ghost use Rattle.protocol.specs.Restarts.{forced_all};
ghost use Rattle.log_text.specs.Made.{frame_record};
ghost use Rattle.log_records.specs.Sights.{AreRecords};
ghost use Rattle.log_writing.specs.Writes.{NotFramed};

use log_text::Frame;
use log_writing::coordinator_frame;
use protocol::{ProcessId, Record, Sequence, ShownRecord, StepError};
use std::alloc::{AllocError, Global};

/// How a reaction shows a record that is forced.
fn shown(record: &Record) -> ShownRecord
    ensures { result ≡ logged_of (record { entry = record.now; is_forced = true }) }
{
    ShownRecord {
        kind: record.kind(),
        subject: record.subject(),
        forced: true,
    }
}

/// How a reaction shows these records, all of them forced.
pub(crate) fn all_shown(
    alloc: Global,
    records: &[Record],
) -> Result<Sequence<ShownRecord>, AllocError>
    ensures { IfOk result (λ s. s ≡ map logged_of (forced_all records.now)) }
{
    let mut all = Vec::new(alloc);
    for record in records {
        all.push(shown(record))?;
    }
    Ok(Sequence::from_vec(all))
}

/// One frame more.
fn push_frame(frames: &mut Vec<Frame>, frame: Frame) -> Result<(), AllocError>
    ensures { OnOk result (frames.new.items ≡ frames.old.items ++ frame ∷ []) }
{
    frames.push(frame)?;
    Ok(())
}

/// The frames of these records in the log of a process below this parent. Exhausted: no log holds one of
/// them.
pub(crate) fn framed(
    alloc: Global,
    parent: Option<ProcessId>,
    records: &[Record],
) -> Result<Vec<Frame>, StepError>
    ensures spells { IfOk result (λ frames. map frame_record frames.items
        ≡ map (in_log parent) records.now) }
    ensures sound { IfOk result (λ frames. AreRecords kind.Coordinator (map frame_record frames.items)) }
    ensures err { IfErr result (NotFramed parent records.now) }
{
    let mut frames = Vec::new(alloc);
    for record in records {
        let frame = coordinator_frame(alloc, record, parent)?;
        push_frame(&mut frames, frame)?;
    }
    Ok(frames)
}
