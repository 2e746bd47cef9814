//! What a child in doubt is told (R*).

ghost use Rattle.std.specs.Prelude.{◌≡◌};
ghost use Rattle.protocol.specs.Names.{presumed};
ghost use Rattle.coord_records.specs.Answers.{answer_of};

use protocol::{Outcome, Presumption, Standing};

/// The outcome that an inquiry gets if nothing is known of its case.
pub fn presumed(presumption: Presumption) -> Outcome
    ensures { result ≡ presumed presumption }
{
    match presumption {
        Presumption::PresumeAbort => Outcome::Aborted,
        Presumption::PresumeCommit => Outcome::Committed,
    }
}

/// What an inquiry gets of a case that stands so: the decision, or where nothing is known what is presumed;
/// nothing, while the case is undecided.
pub fn answer(standing: Standing, presumption: Presumption) -> Option<Outcome>
    ensures { result ≡ answer_of standing presumption }
{
    match standing {
        Standing::Committing => Some(Outcome::Committed),
        Standing::Aborting => Some(Outcome::Aborted),
        Standing::Unknown => Some(presumed(presumption)),
        _ => None,
    }
}
