//! What an audit tells of the logs that a run of a tree script left.

ghost use Rattle.rstar.specs.Laws.{AuditsOfLeftLogsAreTrue};

/// Whatever `rstar audit` writes of the logs that `rstar tree --logs` left of a run is true of just that
/// run: each case's outcome is its transaction's, and the mismatches that are shown are just those that
/// stand. It never refuses the text, and finds none of these logs damaged. The same run is that of which
/// the headline holds.
pub fn audits_of_left_logs_are_true()
    ensures { AuditsOfLeftLogsAreTrue }
{}
