//! A record, and its force.

ghost use Rattle.std.specs.Prelude.{◌≡◌, ◌≤◌, [], ◌∷◌, false, IfErr, OnOk};
ghost use Rattle.log_text.specs.Made.{frame_record};
ghost use Rattle.log_records.specs.Sights.{Breaks, IsRecord, record_size};
ghost use Rattle.log_writing.specs.Writes.{WritesRecord};

use log_records::{LogError, RecLog};
use log_store::LogStore;
use log_text::Frame;

/// Appends a record, and forces the log where the record is to be forced. Room for the frame was made
/// before, so it cannot fail for memory. Device: the record stands or not, it may be forced, and the log has
/// failed.
pub fn write<L: LogStore>(log: &mut RecLog<L>, frame: &Frame, forced: bool) -> Result<(), LogError>
    requires room { record_size (frame_record frame.now) ≤ log.old.room }
    requires works { log.old.sight.failed ≡ false }
    requires sound { IsRecord log.old.sight.form.kind (frame_record frame.now) }
    ensures ok { OnOk result (WritesRecord log.old log.new (frame_record frame.now) forced) }
    ensures err { IfErr result (λ e. (e ≡ LogError.Device)
        × Breaks log.old log.new (frame_record frame.now ∷ [])) }
{
    log.append(frame)?;
    if forced { log.force() } else { Ok(()) }
}
