//! What an operator decides, in the words of a script.

ghost use Rattle.std.specs.Prelude.{◌≡◌};
ghost use Rattle.script_words.specs.Outcomes.{outcome_at};

use protocol::Outcome;

/// The outcome that a word names: `commit` or `rollback`.
pub fn outcome_of(word: &str) -> Option<Outcome>
    ensures { result ≡ outcome_at word.now }
{
    match word {
        "commit" => Some(Outcome::Committed),
        "rollback" => Some(Outcome::Aborted),
        _ => None,
    }
}
