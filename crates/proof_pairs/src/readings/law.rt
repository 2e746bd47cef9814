//! One row of each kind: the world's step makes its move on the reading of a pair.
ghost use Rattle.proof_pairs.specs.readings.StepLaws.{CascadedPassesAbort, RootDecides, RootTrims};
ghost use Rattle.proof_pairs.specs.readings.StepLaws.{ManagerFails, ManagerRestarts, ManagerVotesYes};
ghost use Rattle.proof_pairs.specs.readings.StepLaws.{ManagerVotesElsewhere, OthersLeave};

/// A manager votes YES.
pub fn manager_votes_yes()
    ensures moves { ManagerVotesYes }
{}

/// The root decides at the last vote.
pub fn root_decides()
    ensures moves { RootDecides }
{}

/// A cascaded coordinator passes an ABORT on.
pub fn cascaded_passes_abort()
    ensures moves { CascadedPassesAbort }
{}

/// A device fails as a manager promises.
pub fn manager_fails()
    ensures moves { ManagerFails }
{}

/// A manager restarts.
pub fn manager_restarts()
    ensures moves { ManagerRestarts }
{}

/// The root trims its log.
pub fn root_trims()
    ensures moves { RootTrims }
{}

/// A manager votes YES for another of its tickets.
pub fn manager_votes_elsewhere()
    ensures moves { ManagerVotesElsewhere }
{}

/// A process that has nothing of the pair makes a step.
pub fn others_leave()
    ensures moves { OthersLeave }
{}
