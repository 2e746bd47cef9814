//! Laws of what the records of a log have said, and of what a trim keeps of a manager's data.

ghost use Rattle.kv_state.specs.Keeping.{TrimsKeepData};
ghost use Rattle.kv_state.specs.Replays.{AreLawful};

/// Where records may follow one another, each branch stands once, no key is promised twice, and the fold
/// over the records has the writes that each open branch promised, and pairs whose keys rise.
pub fn records_are_lawful()
    ensures { AreLawful }
{}

/// After a trim a manager's log makes the data that it made before; each branch that is open has the writes
/// that it promised, and its last record says the same.
pub fn trims_keep_data()
    ensures { TrimsKeepData }
{}
