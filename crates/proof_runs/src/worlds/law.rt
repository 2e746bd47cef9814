//! The laws. The functions do nothing: each one's contract is a law.

ghost use Rattle.std.specs.Prelude.{◌≡◌, ◌≢◌, ℕ, List, []};
ghost use Rattle.protocol.specs.Outcomes.{Headline};
ghost use Rattle.protocol.specs.Trees.{IsTree};
ghost use Rattle.protocol.specs.World.{Made, World, opened_world};
ghost use Rattle.protocol.specs.declared.events.Event.{Event};
ghost use Rattle.protocol.specs.declared.events.StepError.{StepError};
ghost use Rattle.protocol.specs.declared.events.StepError.TheVariants.{Device};
ghost use Rattle.protocol.specs.declared.trees.TreeProcess.{TreeProcess};
ghost use Rattle.tree_state.specs.Worlds.{Applies, Stops, WorldState};
ghost use Rattle.proof_runs.specs.worlds.Determined.{OneInputOneText};
ghost use Rattle.proof_runs.specs.worlds.Modelled.{ModelledTreesKeepHeadline};
ghost use Rattle.tree_state.specs.Runs.{IsOpenedTree, EventsLead, LeadsUntil};
ghost use Rattle.proof_runs.specs.worlds.Follows.{Follows, FollowsBehindFaults, GoesOn, GoesOnBehindFaults, IsModelled, unfailed};
ghost use Rattle.proof_runs.specs.worlds.Refusals.{IsForItself, IsRunOf, LeadsTo, Refusal};

/// A tree whose processes have opened empty logs stands for the run with no moves.
pub fn opened_trees_stand_for_the_first_run()
    ensures { (tree : List TreeProcess) (s : WorldState) → IsOpenedTree s tree → Follows [] opened_world s }
{}

/// Where the state of a tree stands for a run, what an event makes of it stands for one that goes on; so
/// does what a refused event leaves, unless a device failed in it; and so do lists of events.
pub fn runs_go_on()
    ensures applied { (s t : WorldState) (event : Event) (es : List Made) (w : World)
        → IsTree s.tree → Follows es w s
        → Applies s event t → GoesOn es w t }
    ensures stopped { (s t : WorldState) (event : Event) (e : StepError)
        (es : List Made) (w : World) → IsTree s.tree
        → e ≢ Device → Follows es w s → Stops s event e t → GoesOn es w t }
    ensures led { (s t : WorldState) (events : List Event) (es : List Made) (w : World)
        → IsTree s.tree → Follows es w s
        → EventsLead s events t → GoesOn es w t }
    ensures led_until { (s t : WorldState) (events : List Event) (n : ℕ) (e : StepError)
        (es : List Made) (w : World)
        → IsTree s.tree → e ≢ Device → Follows es w s → LeadsUntil s events n e t → GoesOn es w t }
{}

/// Runs go on after device faults. A tree whose processes have opened empty logs stands for the run with no
/// moves, and a state that stands for a run, and has entered no step in which a device failed, for one in
/// which devices may have failed. Where it so stands, what an event makes of it, what a refused event
/// leaves, whatever refused it, and what lists of events lead to stand for one that goes on; and the
/// headline holds of that run.
pub fn runs_go_on_behind_faults()
    ensures opened { (tree : List TreeProcess) (s : WorldState) → IsOpenedTree s tree
        → FollowsBehindFaults [] opened_world s }
    ensures followed { (s : WorldState) (es : List Made) (w : World) → Follows es w s
        → unfailed s.entries ≡ s.entries
        → FollowsBehindFaults es w s }
    ensures applied { (s t : WorldState) (event : Event) (es : List Made) (w : World) → IsTree s.tree
        → FollowsBehindFaults es w s → Applies s event t → GoesOnBehindFaults es w t }
    ensures stopped { (s t : WorldState) (event : Event) (e : StepError)
        (es : List Made) (w : World) → IsTree s.tree
        → FollowsBehindFaults es w s → Stops s event e t → GoesOnBehindFaults es w t }
    ensures led { (s t : WorldState) (events : List Event) (es : List Made) (w : World) → IsTree s.tree
        → FollowsBehindFaults es w s → EventsLead s events t → GoesOnBehindFaults es w t }
    ensures led_until { (s t : WorldState) (events : List Event) (n : ℕ) (e : StepError)
        (es : List Made) (w : World)
        → IsTree s.tree → FollowsBehindFaults es w s → LeadsUntil s events n e t → GoesOnBehindFaults es w t }
    ensures headline { (s : WorldState) (es : List Made) (w : World) → IsTree s.tree
        → FollowsBehindFaults es w s
        → Headline s.tree es w }
{}

/// Where the state of a tree stands for a run, the headline holds of that run, and mismatches are reported in
/// it.
pub fn the_headline_holds()
    ensures { (s : WorldState) (es : List Made) (w : World) → IsTree s.tree → Follows es w s → IsModelled s }
{}

/// What any list of events leads an opened tree to, up to the one that is refused, is a run of the model, of
/// which the headline holds and in which mismatches are reported; and an event that is refused for itself is
/// one that the model refuses there by the same error.
pub fn every_run_is_a_run_of_the_model()
    ensures { (tree : List TreeProcess) (start end : WorldState) (events : List Event)
        (refusal : Refusal) → IsTree tree
        → IsOpenedTree start tree → LeadsTo start events refusal end → IsForItself refusal
        → IsRunOf tree events refusal end }
{}

/// Where the processes are a tree, and its state stands for a run in which devices may have failed, the
/// headline holds of that run, and each End of the root in it reports truly.
pub fn modelled_trees_keep_the_headline()
    ensures { ModelledTreesKeepHeadline }
{}

/// One input has one text: by the same events two trees of the same processes, which have opened empty logs,
/// come to states that show the same, and refuse the same event by the same error; if no event is refused for
/// memory or for numbers that are used up, nor because a device failed.
pub fn one_input_has_one_text()
    ensures { OneInputOneText }
{}
