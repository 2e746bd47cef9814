//! Room for a record.

ghost use Rattle.std.specs.Prelude.{◌≡◌, OnOk};
ghost use Rattle.log_writing.specs.Writes.{HasRecordRoom};

use log_records::RecLog;
use log_store::LogStore;
use std::alloc::AllocError;

/// How many bytes the longest frame has: a byte for the record's kind, four for the payload's length, and the
/// payload, which a log of the first format could hold too.
const LONGEST_FRAME: usize = 65_540;

/// Makes room for the frame of any one record. A refusal changes nothing.
pub fn make_room<L: LogStore>(log: &mut RecLog<L>) -> Result<(), AllocError>
    ensures stays { log.new.sight ≡ log.old.sight }
    ensures room { OnOk result (HasRecordRoom log.new) }
{
    log.reserve(LONGEST_FRAME)
}
