//! What is printed is what the grammar reads.

ghost use Rattle.log_script.specs.Places.{PlacesTell};

/// The records that are printed with their places are the records of the log, in order: each log that is
/// sound reads as just these.
pub fn records_are_those_read()
    ensures { PlacesTell }
{}
