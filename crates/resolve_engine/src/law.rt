//! The law of answers.

ghost use Rattle.resolve_engine.specs.Truths.{AnswersAreTrue};

/// Whichever run of the model left the logs that are here, with no process failed: an answer to a case of
/// which an audit of that world tells, and that is in doubt there if the log of its own process is not here,
/// says commit or rollback only as its transaction ends.
pub fn answers_are_true()
    ensures { AnswersAreTrue }
{}
