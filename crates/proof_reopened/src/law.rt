//! The laws. The functions do nothing: each one's contract is a law.

ghost use Rattle.proof_reopened.specs.Laws.{BothPartsKeep, EventsGoOn, LifeStepsGoOn, ListsGoOn, OwnLogsAreLeft, OwnLogsSinceAreLeft, RefusalsGoOn, RefusedListsGoOn, ReopenedTreesGoOn};

/// Where the processes of a tree have restarted over logs that a run of the model left, by whichever version
/// each move of it was made, the tree's state stands for a run that goes on from that run: first every
/// process goes down by a crash, and then each restarts.
pub fn reopened_trees_go_on()
    ensures { ReopenedTreesGoOn }
{}

/// What a crash leaves of a tree's own logs, however many bytes of each it keeps, is left by the run that the
/// tree stands for: whether it was opened over empty logs, or over those of an earlier run. So a tree can be
/// opened again over the logs of a tree that was opened again.
pub fn own_logs_are_left()
    ensures first { OwnLogsAreLeft }
    ensures since { OwnLogsSinceAreLeft }
{}

/// Where the state of a tree that was opened so stands for a run, what an event makes of it stands for one
/// that goes on, and so does what a refused event leaves, and a list of events; and what a step of one of its
/// programs makes of it.
pub fn reopened_runs_go_on()
    ensures applied { EventsGoOn }
    ensures stopped { RefusalsGoOn }
    ensures led { ListsGoOn }
    ensures led_until { RefusedListsGoOn }
    ensures lives { LifeStepsGoOn }
{}

/// Both parts are one run: no two processes end one transaction differently except by an operator's decision;
/// commit is decided only where every participant voted yes or read-only; each answer that finds its asker in
/// doubt tells the root's outcome; a mismatch stands until it is forgotten; and an operator's record comes
/// from an operator alone (R*). Each End that the root appends in the later part reports mismatches truly.
pub fn both_parts_keep_the_headline()
    ensures { BothPartsKeep }
{}
