//! What each step tells its caller, and how seats are cut and put together.
use crate::views::{ToldEntries, View};
use atomic_table::{Join, Play, Split};

/// A process notes the messages of the journal.
pub struct NotesNet;

impl Play<ToldEntries, View> for NotesNet {
    ghost use Rattle.cluster_ties.specs.Plays.{NotesNet as Telling};

    ghost then = { Telling };
}

/// The journal has what the process made in a turn, and the pass notes it.
pub struct Puts;

impl Play<ToldEntries, View> for Puts {
    ghost use Rattle.cluster_ties.specs.Plays.{Puts as Telling};

    ghost then = { Telling };
}

/// A pass is met by the journal.
pub struct Meets;

impl Play<ToldEntries, View> for Meets {
    ghost use Rattle.cluster_ties.specs.Plays.{Meets as Telling};

    ghost then = { Telling };
}

/// The journal is looked at alone.
pub struct Looks;

impl Play<ToldEntries, View> for Looks {
    ghost use Rattle.cluster_ties.specs.Plays.{Looks as Telling};

    ghost then = { Telling };
}

/// A process is compared with the journal.
pub struct Sees;

impl Play<ToldEntries, View> for Sees {
    ghost use Rattle.cluster_ties.specs.Plays.{Sees as Telling};

    ghost then = { Telling };
}

/// The seat of a new process.
pub struct Opens;

impl Split<View> for Opens {
    ghost use Rattle.cluster_ties.specs.Views.{newcomer, opened_more};

    ghost left = { opened_more };

    ghost right = { newcomer };
}

/// A new pass.
pub struct Gives;

impl Split<View> for Gives {
    ghost use Rattle.cluster_ties.specs.Views.{given_more, new_pass};

    ghost left = { given_more };

    ghost right = { new_pass };
}

/// A seat with a process's beside it.
pub struct WithProcess;

impl Join<View> for WithProcess {
    ghost use Rattle.cluster_ties.specs.Views.{beside, spent};

    ghost both = { beside };

    ghost spent = { spent };
}

impl Split<View> for WithProcess {
    ghost use Rattle.cluster_ties.specs.Views.{process_part, without_process};

    ghost left = { without_process };

    ghost right = { process_part };
}

/// A seat with a pass beside it.
pub struct WithPass;

impl Join<View> for WithPass {
    ghost use Rattle.cluster_ties.specs.Views.{beside_pass, spent};

    ghost both = { beside_pass };

    ghost spent = { spent };
}

impl Split<View> for WithPass {
    ghost use Rattle.cluster_ties.specs.Views.{pass_part, without_pass};

    ghost left = { without_pass };

    ghost right = { pass_part };
}

/// A seat that knows nothing, to be in for one that is lent.
pub struct Spare;

impl Split<View> for Spare {
    ghost use Rattle.cluster_ties.specs.Views.{spent};

    ghost left = { λ v. v };

    ghost right = { λ v. spent };
}
