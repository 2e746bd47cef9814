//! What the invariant of the pairs gives: the promises, the chain through the tree, and its own
//! soundness.
ghost use Rattle.std.specs.Prelude.{true, false};
ghost use Rattle.proof_pairs.specs.Chain.{Chain, ToldFromAbove};
ghost use Rattle.proof_pairs.specs.Invariant.{PresumedAbort, PresumedCommit};
ghost use Rattle.proof_pairs.specs.Keeps.{Lateness};
ghost use Rattle.proof_pairs.specs.Opened.{Opens};
ghost use Rattle.proof_pairs.specs.Promises.{PairAgreement, AuditedOutcome, PairCommitRule};
ghost use Rattle.proof_pairs.specs.Promises.{PairMismatches, PairAnswers};
ghost use Rattle.proof_pairs.specs.Runs.{RunsUnderAbort, RunsUnderCommit};
ghost use Rattle.proof_pairs.specs.TwoPairs.{OneStep};
ghost use Rattle.proof_pairs.specs.WrongMoves.{WrongMoves};

/// One step of a cascaded coordinator moves the readings of the pair above it and of the pairs below it
/// alike.
pub fn one_step()
    ensures alike { OneStep }
{}

/// As the root commits, every participant down the tree has consented, and every pair below may know it.
pub fn chain()
    ensures presumed_abort { Chain PresumedAbort }
    ensures presumed_commit { Chain PresumedCommit }
{}

/// What the guards of a cascaded coordinator's moves say of the pair above it follows from that pair's
/// invariant.
pub fn told_from_above()
    ensures presumed_abort { ToldFromAbove PresumedAbort }
    ensures presumed_commit { ToldFromAbove PresumedCommit }
{}

/// Agreement: no process ends a transaction against its outcome, now or in a later world.
pub fn agreement()
    ensures presumed_abort { PairAgreement PresumedAbort }
    ensures presumed_commit { PairAgreement PresumedCommit }
{}

/// The commit rule: where the outcome is commit, each participant's first vote that was heard was YES or
/// READ, and each YES was sent with its promise in the forced front.
pub fn commit_rule()
    ensures presumed_abort { PairCommitRule PresumedAbort }
    ensures presumed_commit { PairCommitRule PresumedCommit }
{}

/// True answers: COMMIT or ABORT that finds a ticket in doubt tells the outcome, now and in every later
/// world.
pub fn true_answers()
    ensures presumed_abort { PairAnswers PresumedAbort }
    ensures presumed_commit { PairAnswers PresumedCommit }
{}

/// Standing mismatches: an operator's decision that was forced is in the forced front until it is
/// forgotten.
pub fn standing_mismatches()
    ensures presumed_abort { PairMismatches PresumedAbort }
    ensures presumed_commit { PairMismatches PresumedCommit }
{}

/// The auditor's lemma: a ticket in doubt has the outcome of its parent's first kept case that names it,
/// else the presumption's.
pub fn audited_outcome()
    ensures presumed_abort { AuditedOutcome PresumedAbort false }
    ensures presumed_commit { AuditedOutcome PresumedCommit true }
{}

/// The invariant holds of a tree that was just opened.
pub fn opened_tree()
    ensures opens { Opens }
{}

/// The invariant holds at each stage of whole runs, and each stage's guard can be met.
pub fn whole_runs()
    ensures presumed_abort { RunsUnderAbort }
    ensures presumed_commit { RunsUnderCommit }
{}

/// Each of these wrong moves breaks the invariant.
pub fn wrong_moves()
    ensures breaks { WrongMoves }
{}

/// What is said of a later world holds of this one, and of each world later than a later one.
pub fn later_worlds()
    ensures later { Lateness }
{}
