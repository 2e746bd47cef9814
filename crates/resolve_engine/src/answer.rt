//! What is answered of a name, and why.

ghost use Rattle.std.specs.Prelude.{◌≡◌};
ghost use Rattle.resolve_engine.specs.Answers.{word_by};

use audit_engine::Stands;
use protocol::{Case, Outcome, Presumption, ProcessId};

/// What is to be done with a branch.
#[derive(Clone, Copy, PartialEq, Eq)]
pub enum AnswerWord {
    /// Its transaction committed.
    Commit,
    /// Its transaction aborted.
    Rollback,
    /// An operator committed it.
    HeuristicCommit,
    /// An operator rolled it back.
    HeuristicRollback,
    /// The logs do not say it yet.
    Wait,
    /// The log of this process is wanted, or does not know it.
    Unknown(ProcessId),
    /// It is none of this tree.
    Foreign,
}

/// Why.
#[derive(Clone, Copy, PartialEq, Eq)]
pub enum AnswerReason {
    /// The log of its own process says so.
    Own,
    /// An operator decided it there.
    Operator,
    /// The log of this process has a case that names its ticket, and this stands of it.
    Kept(ProcessId, Case, Stands),
    /// No case in the log of this process names its ticket, so it is presumed.
    Presumed(ProcessId, Presumption),
    /// It is the root's own case, which is not decided.
    Root(ProcessId),
    /// The log of this process is not here.
    Missing(ProcessId),
    /// The log of its own process has no promise of it.
    NoPromise(ProcessId),
    /// The name is of a tree of another name.
    OtherTree,
    /// The name is none that this product gives in this tree.
    NoName,
}

/// What is answered of a name, and why.
#[derive(Clone, Copy, PartialEq, Eq)]
pub struct BranchAnswer {
    pub word: AnswerWord,
    pub reason: AnswerReason,
}

/// What is to be done with a branch whose transaction ended so.
pub fn by_outcome(outcome: Outcome) -> AnswerWord
    ensures { result ≡ word_by outcome }
{
    match outcome {
        Outcome::Committed => AnswerWord::Commit,
        Outcome::Aborted => AnswerWord::Rollback,
    }
}
