//! What an audit tells of the logs that a closed cluster left.

ghost use Rattle.proof_closed_logs.specs.Audits.{ClosedClustersAreAuditedTruly};

/// The audit of texts that read as the logs of a closed cluster is true of the run that its journal is: none
/// is damaged, each case's outcome is its transaction's, and the mismatches that are shown are just those
/// that stand.
pub fn closed_clusters_are_audited_truly()
    ensures { ClosedClustersAreAuditedTruly }
{}
