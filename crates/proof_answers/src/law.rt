//! The law of answers that last.

ghost use Rattle.proof_answers.specs.Lasting.{AnswersLast};

/// Whichever run of the model left the logs that are here, with no process failed: what an answer says of a
/// case of which an audit of that world tells, and that is in doubt there if the log of its own process is
/// not here, stays the end of its transaction, however the run goes on. An answer that says rollback since
/// the logs are complete does so where the root makes no move before its restart.
pub fn answers_last()
    ensures { AnswersLast }
{}
