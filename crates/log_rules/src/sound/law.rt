//! A sound record's payload reads as this record.

ghost use Rattle.log_rules.specs.sound.Sound.{NamesAreSound, NamesAreWrittenBack, NamesReadBack, RecordsFitFrames, RecordsReadBack};
ghost use Rattle.log_rules.specs.sound.Written.{ReadIsSound, ReadIsWritten};

/// The XID that a log writes for a whole name reads as this name.
pub fn names_read_back()
    ensures { NamesReadBack }
{}

/// The name that an XID is read as is whole.
pub fn names_are_sound()
    ensures { NamesAreSound }
{}

/// The name that an XID is read as has this XID.
pub fn names_are_written_back()
    ensures { NamesAreWrittenBack }
{}

/// The payload of a sound record reads as this record.
pub fn records_read_back()
    ensures { RecordsReadBack }
{}

/// A sound record fits a frame.
pub fn records_fit_frames()
    ensures { RecordsFitFrames }
{}

/// The record that a frame reads as is written as this frame.
pub fn what_is_read_was_written()
    ensures { ReadIsWritten }
{}

/// What is read of a payload can be in a log.
pub fn what_is_read_is_sound()
    ensures { ReadIsSound }
{}
