//! What a record says of its case.

ghost use Rattle.std.specs.Prelude.{◌≡◌};
ghost use Rattle.log_outcomes.specs.Sayings.{saying_of, saying_of_branch};

use protocol::{BranchName, Case, Outcome, Record};

/// How far a record says that its case has come.
#[derive(Clone, Copy, PartialEq, Eq)]
pub(crate) enum SayingStage {
    /// Its votes are collected.
    Open,
    /// It promised.
    Doubt,
    /// An operator decided it so, and it was not told its outcome.
    Decided(Outcome),
    /// It ended so.
    Ended(Outcome),
    /// It is forgotten.
    Over,
}

/// The case of a record of a branch, and how far that has come; none of a branch that is no case.
fn of_branch(branch: &BranchName, stage: SayingStage) -> Option<(Case, SayingStage)>
    ensures { result ≡ saying_of_branch branch.now stage }
{
    let case = branch.case()?;
    Some((case, stage))
}

/// The case of a record, and how far that has come.
pub(crate) fn saying(entry: &Record) -> Option<(Case, SayingStage)>
    ensures { result ≡ saying_of entry.now }
{
    match entry {
        Record::Collecting(case, _) => Some((*case, SayingStage::Open)),
        Record::Prepare(case, _) => Some((*case, SayingStage::Doubt)),
        Record::Commit(case, _) => Some((*case, SayingStage::Ended(Outcome::Committed))),
        Record::Abort(case, _) => Some((*case, SayingStage::Ended(Outcome::Aborted))),
        Record::End(case, _) | Record::Cleared(case) => Some((*case, SayingStage::Over)),
        Record::Prepared(branch, _) => of_branch(branch, SayingStage::Doubt),
        Record::HeurCommit(branch) => of_branch(branch, SayingStage::Decided(Outcome::Committed)),
        Record::HeurRollback(branch) => of_branch(branch, SayingStage::Decided(Outcome::Aborted)),
        Record::Committed(branch) | Record::Direct(branch, _) => {
            of_branch(branch, SayingStage::Ended(Outcome::Committed))
        }
        Record::RolledBack(branch) => of_branch(branch, SayingStage::Ended(Outcome::Aborted)),
        Record::Told(branch, outcome) => of_branch(branch, SayingStage::Ended(*outcome)),
        Record::Forgot(branch) => of_branch(branch, SayingStage::Over),
        Record::Opened(_) | Record::Base(_) | Record::Pair(..) => None,
    }
}
