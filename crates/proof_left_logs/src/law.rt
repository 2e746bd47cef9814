//! What is read of the logs that a run leaves.

ghost use Rattle.proof_left_logs.specs.Left.{LeftLogsAreRead};

/// No log is damaged of those that a tree leaves whose events were all made. It asks that each record can be
/// in its log, and that those of a manager may follow one another, as each log of a key store has it.
pub fn left_logs_are_read()
    ensures { LeftLogsAreRead }
{}
