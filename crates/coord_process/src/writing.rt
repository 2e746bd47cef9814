//! A row's record in the log.

ghost use Rattle.std.specs.Prelude.{◌≡◌, false, true, IfErr, OnOk, Option, is_some};
ghost use Rattle.protocol_words.specs.kind;
ghost use Rattle.protocol_words.specs.Types.{AnyProcess};
ghost use Rattle.log_records.specs.Sights.{Breaks};
ghost use Rattle.log_writing.specs.Writes.{HasRecordRoom};
ghost use Rattle.coord_effects.specs.Rows.{AreFramed};
ghost use Rattle.coord_process.specs.Turned.{WritesDown, framed_of};

use coord_rows::RowFrame;
use log_records::{LogError, RecLog};
use log_store::LogStore;
use log_writing::write;
use protocol::ProcessId;

/// Appends a row's record, if it has one, and forces the log where the row does. Room was made before, so it
/// cannot fail for memory. Device: the record stands or not, and the log has failed.
pub(crate) fn write_down<L: LogStore>(
    log: &mut RecLog<L>,
    parent: Option<ProcessId>,
    written: &Option<RowFrame>,
) -> Result<(), LogError>
    requires kind { log.old.sight.form.kind ≡ kind.Coordinator }
    requires room { HasRecordRoom log.old }
    requires works { log.old.sight.failed ≡ false }
    requires framed { AreFramed parent written.now }
    ensures ok { OnOk result (WritesDown log.old log.new written.now) }
    ensures err { IfErr result (λ e. (e ≡ LogError.Device) × Breaks log.old log.new (framed_of written.now)) }
    ensures some { IfErr result (λ _. is_some written.now ≡ true) }
{
    match written {
        None => Ok(()),
        Some(written) => write(log, &written.frame, written.forced),
    }
}
