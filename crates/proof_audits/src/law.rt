//! What an audit tells of the logs that a tree left.

ghost use Rattle.proof_audits.specs.Audits.{StatesAreAuditedTruly};

/// Where the state of a tree stands for a run of the model, in which devices may have failed, and no process
/// is failed now, the audit of logs that read as what its processes keep is true of that run: none is
/// damaged, each case's outcome is its transaction's, and the mismatches that are shown are just those that
/// stand.
pub fn states_are_audited_truly()
    ensures { StatesAreAuditedTruly }
{}
