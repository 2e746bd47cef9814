//! What a subordinate keeps of a live branch.

ghost use Rattle.std.specs.Prelude.{◌≡◌};
ghost use Rattle.sub_branches.specs.Stages.{TakesBy, awaits};

use protocol::{Case, Outcome};
use xa_xid::Xid;

/// How far a live branch has come.
#[derive(Clone, Copy, PartialEq, Eq)]
pub enum BranchStage {
    /// It takes work: the parent's case for which its ticket was given, how many works are done, and whether
    /// one was refused, so that it can only be rolled back.
    Active {
        given_for: Case,
        done: u64,
        spoiled: bool,
    },
    /// It promised, and awaits the outcome.
    Prepared,
    /// An operator decided it; the outcome that it was told since, if it was told one.
    Heuristic {
        told: Option<Outcome>,
    },
}

impl BranchStage {
    /// Whether the branch asks its parent for the outcome: it is in doubt, or an operator decided it and it
    /// was not told.
    pub fn awaits(self) -> bool
        ensures { result ≡ awaits self }
    {
        matches!(
            self,
            BranchStage::Prepared | BranchStage::Heuristic { told: None }
        )
    }

    /// The parent's case and how many works are done, where the branch takes the work with this number: it
    /// is Active, no work was refused, and this is the next one.
    pub fn takes(self, number: u64) -> Option<(Case, u64)>
        ensures { TakesBy self number result }
    {
        match self {
            BranchStage::Active {
                given_for,
                done,
                spoiled,
            } => {
                if !spoiled && number > done && number - done == 1 {
                    Some((given_for, done))
                } else {
                    None
                }
            }
            BranchStage::Prepared => None,
            BranchStage::Heuristic { .. } => None,
        }
    }
}

/// A live branch, by the XID that its manager knows it by.
#[derive(Clone, Copy, PartialEq, Eq)]
pub struct LiveBranch {
    pub xid: Xid,
    pub stage: BranchStage,
}
