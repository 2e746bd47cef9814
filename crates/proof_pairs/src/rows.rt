//! Every move of the protocol keeps the invariant of a pair.
ghost use Rattle.proof_pairs.specs.Laws.{ChildRowsUnderAbort, ChildRowsUnderCommit};
ghost use Rattle.proof_pairs.specs.Laws.{HeuristicRowsUnderAbort, HeuristicRowsUnderCommit};
ghost use Rattle.proof_pairs.specs.Laws.{ChildCrashesUnderAbort, ChildCrashesUnderCommit};
ghost use Rattle.proof_pairs.specs.Laws.{ParentRowsUnderAbort, ParentRowsUnderCommit};
ghost use Rattle.proof_pairs.specs.Laws.{RootRowsUnderAbort, RootRowsUnderCommit};
ghost use Rattle.proof_pairs.specs.Laws.{CascadedRowsUnderAbort, CascadedRowsUnderCommit};
ghost use Rattle.proof_pairs.specs.Laws.{ParentCrashesUnderAbort, ParentCrashesUnderCommit};
ghost use Rattle.proof_pairs.specs.Laws.{LogMovesUnderAbort, LogMovesUnderCommit};

/// Each row of a child keeps the invariant.
pub fn child_rows()
    ensures presumed_abort { ChildRowsUnderAbort }
    ensures presumed_commit { ChildRowsUnderCommit }
{}

/// An operator's decision and the Forgot after it keep the invariant, also where the device fails.
pub fn heuristic_rows()
    ensures presumed_abort { HeuristicRowsUnderAbort }
    ensures presumed_commit { HeuristicRowsUnderCommit }
{}

/// Each fault at the child keeps the invariant, and each restart of it.
pub fn child_crashes()
    ensures presumed_abort { ChildCrashesUnderAbort }
    ensures presumed_commit { ChildCrashesUnderCommit }
{}

/// Each row of a coordinator as a parent keeps the invariant.
pub fn parent_rows()
    ensures presumed_abort { ParentRowsUnderAbort }
    ensures presumed_commit { ParentRowsUnderCommit }
{}

/// Each row of the root alone keeps the invariant.
pub fn root_rows()
    ensures presumed_abort { RootRowsUnderAbort }
    ensures presumed_commit { RootRowsUnderCommit }
{}

/// Each row of a cascaded coordinator alone keeps the invariant, and what becomes true above it.
pub fn cascaded_rows()
    ensures presumed_abort { CascadedRowsUnderAbort }
    ensures presumed_commit { CascadedRowsUnderCommit }
{}

/// Each fault at the parent keeps the invariant, and each restart of it.
pub fn parent_crashes()
    ensures presumed_abort { ParentCrashesUnderAbort }
    ensures presumed_commit { ParentCrashesUnderCommit }
{}

/// A force for the sake of another case keeps the invariant, and a trim, at the child and at the parent.
pub fn log_moves()
    ensures presumed_abort { LogMovesUnderAbort }
    ensures presumed_commit { LogMovesUnderCommit }
{}
