//! Laws of the definitions. The functions do nothing: each one's contract is a law.

ghost use Rattle.process_state.specs.Laws.{LeftLogsRestartAlike, NumbersAreAlike, OpenedIsReadOff, SameCoresFindAlike, SameCoresReactAlike};

/// Between two processes that differ in nothing that counts, each input meets the same refusal or has the
/// same effect, and a child's case is found alike.
pub fn same_cores_react_alike()
    ensures react { SameCoresReactAlike }
    ensures find { SameCoresFindAlike }
{}

/// A process that opens an empty log stands as its one record says.
pub fn opened_is_read_off()
    ensures { OpenedIsReadOff }
{}

/// Which message of the net it was that came, by its number there, makes no difference to what a process
/// makes of it: so a process need not know the number.
pub fn numbers_are_alike()
    ensures { NumbersAreAlike }
{}

/// What a restart makes rests on what the crash left alone: so a process that opens over the log of an
/// earlier one restarts as that would.
pub fn left_logs_restart_alike()
    ensures { LeftLogsRestartAlike }
{}
