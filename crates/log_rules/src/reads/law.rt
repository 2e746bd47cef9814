//! What a process reads of a log that was trimmed.

ghost use Rattle.log_rules.specs.reads.ReadTrims.{CoordinatorsReadTrims, ManagersReadTrims};

/// A coordinator reads of what a trim keeps of its log just what the model's trim leaves of what it read
/// before.
pub fn coordinators_read_trims()
    ensures { CoordinatorsReadTrims }
{}

/// A manager reads of what a trim keeps of its log, with its data after it, just what the model's trim
/// leaves of what it read before.
pub fn managers_read_trims()
    ensures { ManagersReadTrims }
{}
