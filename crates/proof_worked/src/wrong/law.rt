//! Each wrong step breaks the world's invariant, and right steps after it lead to a world without the
//! headline.
ghost use Rattle.proof_worked.specs.wrong.WrongBodies;
ghost use Rattle.proof_worked.specs.wrong.WrongReports;
ghost use Rattle.proof_worked.specs.wrong.WrongReports.{BreaksReports, HarmsReports};
ghost use Rattle.proof_worked.specs.wrong.WrongSteps.{Breaks, Harms};

/// For each wrong body there are a tree and a run of it that reaches a world in which the wrong body's step
/// breaks the world's invariant: so no proof can let the body pass.
pub fn wrong_steps()
    ensures forgets_after_first_ack { Breaks WrongBodies.forgets_after_first_ack }
    ensures prepare_before_collecting { Breaks WrongBodies.prepare_before_collecting }
    ensures boot_reused { Breaks WrongBodies.boot_reused }
    ensures reads_over_a_yes { Breaks WrongBodies.reads_over_a_yes }
    ensures obeys_contradicting_commit { Breaks WrongBodies.obeys_contradicting_commit }
    ensures trim_drops_commit { Breaks WrongBodies.trim_drops_commit }
    ensures told_drops_decision { Breaks WrongBodies.told_drops_decision }
    ensures commits_on_votes_so_far { Breaks WrongBodies.commits_on_votes_so_far }
{}

/// After each of these wrong steps right ones lead to a world in which a clause of the headline fails: two
/// processes end the transaction differently, commit was decided without a vote, or an operator's decision
/// is gone.
pub fn wrong_steps_harm()
    ensures forgets_after_first_ack { Harms WrongBodies.forgets_after_first_ack }
    ensures prepare_before_collecting { Harms WrongBodies.prepare_before_collecting }
    ensures boot_reused { Harms WrongBodies.boot_reused }
    ensures reads_over_a_yes { Harms WrongBodies.reads_over_a_yes }
    ensures obeys_contradicting_commit { Harms WrongBodies.obeys_contradicting_commit }
    ensures trim_drops_commit { Harms WrongBodies.trim_drops_commit }
    ensures told_drops_decision { Harms WrongBodies.told_drops_decision }
    ensures commits_on_votes_so_far { Harms WrongBodies.commits_on_votes_so_far }
{}

/// Of the second version, for each wrong body that reports too little there are a tree and a run of it that
/// reaches a world in which the wrong body's step breaks the invariant of reports: so no proof can let the
/// body pass.
pub fn wrong_reports()
    ensures acknowledges_before_children { BreaksReports WrongReports.acknowledges_before_children }
    ensures unknown_reports_nothing { BreaksReports WrongReports.unknown_reports_nothing }
{}

/// After each of these wrong steps right ones lead to an End of the root that does not report truly: a
/// mismatch stands of which it says nothing.
pub fn wrong_reports_harm()
    ensures acknowledges_before_children { HarmsReports WrongReports.acknowledges_before_children }
    ensures unknown_reports_nothing { HarmsReports WrongReports.unknown_reports_nothing }
{}
