//! Laws of what a trim keeps.

ghost use Rattle.log_rules.specs.trim.Trims.{PicksWhatStays};

/// The records that the table of a log keeps are those that stay.
pub fn picks_what_stays()
    ensures { PicksWhatStays }
{}
