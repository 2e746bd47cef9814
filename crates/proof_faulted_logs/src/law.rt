//! What an audit tells of the logs that a run with failed devices left.

ghost use Rattle.proof_faulted_logs.specs.Faulted.{FaultedRunsAreAuditedTruly};

/// None of the logs is damaged that a tree leaves, and their audit is true of its run, whichever devices
/// failed in it, where each process whose device failed has restarted since. It asks that each record can be
/// in its log, and that those of a manager may follow one another, as each log of a key store has it.
pub fn faulted_runs_are_audited_truly()
    ensures { FaultedRunsAreAuditedTruly }
{}
