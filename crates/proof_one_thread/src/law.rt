//! The law. The function does nothing: its contract is the law.

ghost use Rattle.proof_one_thread.specs.Again.{JournalsAreMadeAgain};

/// A tree on one thread that has opened, and makes the events of a journal's entries again, is refused none
/// of them but for memory, for numbers that are used up or by its device; each process's log has then the
/// records that it has in the run whose journal it is.
pub fn journals_are_made_again()
    ensures { JournalsAreMadeAgain }
{}
