//! An operator's decision.

ghost use Rattle.std.specs.Prelude.{◌≡◌};
ghost use Rattle.xa_branch.specs.Decisions.{decided_as, heur_code, told_behind};

use protocol::Outcome;
use xa_codes::Code;

/// What an operator decided of a branch, and the first outcome that it was told since.
#[derive(Clone, Copy, PartialEq, Eq)]
pub struct Decision {
    pub outcome: Outcome,
    pub told: Option<Outcome>,
}

impl Decision {
    /// A decision by which the branch was told nothing yet.
    pub fn new(outcome: Outcome) -> Self
        ensures { result ≡ decided_as outcome }
    {
        Decision {
            outcome,
            told: None,
        }
    }

    /// The decision after an outcome that comes: the first one that the branch was told counts.
    pub fn told_behind(self, outcome: Outcome) -> Self
        ensures { result ≡ told_behind outcome self }
    {
        Decision {
            outcome: self.outcome,
            told: Some(self.told.unwrap_or(outcome)),
        }
    }

    /// What the branch answers to an outcome: XA_HEURCOM or XA_HEURRB.
    pub fn code(self) -> Code
        ensures { result ≡ heur_code self.outcome }
    {
        match self.outcome {
            Outcome::Committed => Code::HeurCom,
            Outcome::Aborted => Code::HeurRb,
        }
    }
}
