//! Worked runs of the model.

ghost use Rattle.protocol.specs.Rows.{Runs};
ghost use Rattle.proof_worked.specs.FlatRuns.{flat_pa_commit, flat_pc_commit, late_no_vote_pa, late_no_vote_pc, readonly_transactions, forgotten_ticket_votes_no, commit_again_after_end, commit_again_before_votes};
ghost use Rattle.proof_worked.specs.TreeRuns.{cascaded_abort_after_prepare_pc, cascaded_readonly_vote_end_lost_pc, cascaded_restart_pa, cascaded_pa_commit, cascaded_in_doubt_pa};
ghost use Rattle.proof_worked.specs.DoubtRuns.{root_restart_collecting_pc, late_inquiry_after_trim_pa, heuristic_rollback_mismatch, root_restart_committing_pa, heuristic_rollback_forgotten, heuristic_forgotten_before_vote, ask_before_prepare, ask_after_commit, trim_manager_twice, collecting_in_doubt_pc};
ghost use Rattle.proof_worked.specs.CostRuns.{CostsAreMet};
ghost use Rattle.proof_worked.specs.SecondPlays.{RunsBySecond};
ghost use Rattle.proof_worked.specs.SecondRuns.{acknowledged_from_below_pa, acknowledged_from_below_pc, mismatch_is_reported, mismatch_below_is_reported, first_acknowledgement_counts, abort_below_is_unreported};

/// The worked runs come out as they are written.
pub fn worked_runs()
    ensures flat_pa_commit { Runs flat_pa_commit }
    ensures flat_pc_commit { Runs flat_pc_commit }
    ensures late_no_vote_pa { Runs late_no_vote_pa }
    ensures root_restart_collecting_pc { Runs root_restart_collecting_pc }
    ensures late_inquiry_after_trim_pa { Runs late_inquiry_after_trim_pa }
    ensures cascaded_abort_after_prepare_pc { Runs cascaded_abort_after_prepare_pc }
    ensures cascaded_readonly_vote_end_lost_pc { Runs cascaded_readonly_vote_end_lost_pc }
    ensures heuristic_rollback_mismatch { Runs heuristic_rollback_mismatch }
    ensures late_no_vote_pc { Runs late_no_vote_pc }
    ensures readonly_transactions { Runs readonly_transactions }
    ensures root_restart_committing_pa { Runs root_restart_committing_pa }
    ensures forgotten_ticket_votes_no { Runs forgotten_ticket_votes_no }
    ensures cascaded_restart_pa { Runs cascaded_restart_pa }
    ensures heuristic_rollback_forgotten { Runs heuristic_rollback_forgotten }
    ensures heuristic_forgotten_before_vote { Runs heuristic_forgotten_before_vote }
    ensures cascaded_pa_commit { Runs cascaded_pa_commit }
    ensures ask_before_prepare { Runs ask_before_prepare }
    ensures ask_after_commit { Runs ask_after_commit }
    ensures commit_again_after_end { Runs commit_again_after_end }
    ensures commit_again_before_votes { Runs commit_again_before_votes }
    ensures trim_manager_twice { Runs trim_manager_twice }
    ensures collecting_in_doubt_pc { Runs collecting_in_doubt_pc }
    ensures cascaded_in_doubt_pa { Runs cascaded_in_doubt_pa }
{}

/// The worked runs by the second version come out as they are written.
pub fn second_runs()
    ensures acknowledged_from_below_pa { RunsBySecond acknowledged_from_below_pa }
    ensures acknowledged_from_below_pc { RunsBySecond acknowledged_from_below_pc }
    ensures mismatch_is_reported { RunsBySecond mismatch_is_reported }
    ensures mismatch_below_is_reported { RunsBySecond mismatch_below_is_reported }
    ensures first_acknowledgement_counts { RunsBySecond first_acknowledgement_counts }
    ensures abort_below_is_unreported { RunsBySecond abort_below_is_unreported }
{}

/// The law of costs (`proof_costs`) speaks of something: in a run by the second version two transactions
/// commit at once, one under each presumption, and meet its premises at the root and at each manager.
pub fn costs_are_met()
    ensures { CostsAreMet }
{}
