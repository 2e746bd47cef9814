//! Laws of the bytes of a log.

ghost use Rattle.log_records.specs.Sights.{SoundIsRecord, WrittenIsRead};

/// The text of any records that can be in a log reads as these records.
pub fn written_is_read()
    ensures { WrittenIsRead }
{}

/// A sound record can be in a log.
pub fn sound_is_record()
    ensures { SoundIsRecord }
{}
