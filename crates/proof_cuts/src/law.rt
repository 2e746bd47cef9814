//! The laws. The functions do nothing: each one's contract is a law.

ghost use Rattle.proof_cuts.specs.Alone.{AloneIsTogether};
ghost use Rattle.tree_state.specs.Cuts.{CutsAreRuns, CutsGrow, RunsAreCut};
ghost use Rattle.proof_cuts.specs.Owns.{CutsHold, EndsModelled, EntersOwn, InputsAreMade, OneStands, OpensOwn, RestartsAreMade, SameStays, TrimsAreMade};
ghost use Rattle.proof_cuts.specs.Turns.{StandsOver, TurnsEnter, TurnsGoOn};

/// A journal in which the entries of each process are those of moves that it made, alone, and in which each
/// delivered message was sent before, is a run, which leaves each process as its own moves do.
pub fn cuts_are_runs()
    ensures { CutsAreRuns }
{}

/// What a process made after its own entries may be entered, whatever others have entered meanwhile.
pub fn cuts_grow()
    ensures { CutsGrow }
{}

/// Of a run each process made its moves alone.
pub fn runs_are_cut()
    ensures { RunsAreCut }
{}

/// A process that has opened has made nothing.
pub fn opens_own()
    ensures { OpensOwn }
{}

/// What a process makes of an input under its own lock is a step after its own entries.
pub fn inputs_are_made()
    ensures { InputsAreMade }
{}

/// So is its restart.
pub fn restarts_are_made()
    ensures { RestartsAreMade }
{}

/// So is its trim.
pub fn trims_are_made()
    ensures { TrimsAreMade }
{}

/// A refusal leaves it as it was.
pub fn same_stays()
    ensures { SameStays }
{}

/// Once the step is entered, the journal's entries of the process are its own.
pub fn enters_own()
    ensures { EntersOwn }
{}

/// Of a journal that is cut so the headline holds, and mismatches are reported in it.
pub fn cuts_hold()
    ensures { CutsHold }
{}

/// Where a journal is cut so, and a process's own entries are the journal's of it, some run with this journal
/// leaves the process as it is.
pub fn one_stands()
    ensures { OneStands }
{}

/// What all processes keep at the end stands for one run, whose journal it is.
pub fn ends_modelled()
    ensures { EndsModelled }
{}

/// What each process made by itself is what a tree on one thread makes that makes the events of all: each
/// process is left so, with its data.
pub fn alone_is_together()
    ensures { AloneIsTogether }
{}

/// Where a journal is cut so, and a process's own entries are the journal's of it, it stands so in a run in
/// which the journal's messages were sent.
pub fn stands_over()
    ensures { StandsOver }
{}

/// What a process makes by itself, one step after another, of what it finds in a net leaves it in such a run.
pub fn turns_go_on()
    ensures { TurnsGoOn }
{}

/// What a process made in a turn may be entered in one piece, whatever others have entered meanwhile.
pub fn turns_enter()
    ensures { TurnsEnter }
{}
