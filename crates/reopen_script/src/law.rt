//! Laws of scripts that may begin with logs. The functions do nothing: each one's contract is a law.

ghost use Rattle.reopen_script.specs.Laws.{FaultsAreThese, ScriptsAreThese};

/// Without logs ahead of its events a script is what `link_script::read` reads: of the same tree and events,
/// and wrong for the same fault.
pub fn scripts_without_logs_stay()
    ensures scripts { ScriptsAreThese }
    ensures faults { FaultsAreThese }
{}
