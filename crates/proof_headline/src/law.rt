//! The laws of one world, and of its steps.
ghost use Rattle.std.specs.Prelude.{◌≡◌, List, Some, true};
ghost use Rattle.proof_headline.specs.CoordinatorLaws.{CascadedLaws, RootLaws};
ghost use Rattle.proof_headline.specs.ProcessLaws.{CoordinatorLaws, ProcessLaws};
ghost use Rattle.protocol.specs.Names.{child_case};
ghost use Rattle.protocol.specs.Nodes.{Effect};
ghost use Rattle.protocol.specs.Outcomes.{Agreement, CommitRule, Headline, TrueAnswers, is_joined_message, sent};
ghost use Rattle.protocol.specs.Trees.{IsTree};
ghost use Rattle.protocol.specs.World.{IsRun, Made, Move, MayHappen, World, opened_world, world_makes};
ghost use Rattle.protocol.specs.declared.names.Case.{Case};
ghost use Rattle.protocol.specs.declared.names.Ticket.{Ticket};
ghost use Rattle.protocol.specs.declared.names.Txn.{Txn};
ghost use Rattle.protocol.specs.declared.trees.TreeProcess.{TreeProcess};
ghost use Rattle.proof_processes.specs.WorldHolds.{AllLater, IsPair, TellsPart, WorldHolds, pair_reading};
ghost use Rattle.proof_pairs.specs.Chain.{IsBelow};

/// Where the world's invariant holds, the climb from a ticket to the root tells who takes part.
pub fn parts()
    ensures { (tree : List TreeProcess) (w : World) → IsTree tree → WorldHolds tree w → (x : Txn) (t : Ticket)
        → TellsPart tree w x t }
{}

/// Where the world's invariant holds, the pair above a cascaded coordinator and each pair below it speak of
/// one case.
pub fn below()
    ensures { (tree : List TreeProcess) (w : World) → IsTree tree
        → WorldHolds tree w → (c : Case) (u t : Ticket)
        → IsPair tree c u → sent (is_joined_message c u) w.net ≡ true → IsPair tree (child_case c.txn u) t
        → IsBelow (pair_reading tree w c u) (pair_reading tree w (child_case c.txn u) t) }
{}

/// Where the world's invariant holds, no two ends of a transaction differ: each is its outcome.
pub fn agreement()
    ensures { (tree : List TreeProcess) (w : World) → IsTree tree → WorldHolds tree w → Agreement tree w }
{}

/// Where the world's invariant holds after a run, the first vote heard of each participant of a committed
/// transaction is YES or READ, and each manager's YES was sent with its promise in the forced front.
pub fn commit_rule()
    ensures { (tree : List TreeProcess) (es : List Made) (w : World) → IsTree tree
        → IsRun tree es w → WorldHolds tree w
        → CommitRule tree es w }
{}

/// The world's invariant holds of a tree that was just opened.
pub fn opened_world_holds()
    ensures { (tree : List TreeProcess) → WorldHolds tree opened_world }
{}

/// Where the steps of each process keep what `ProcessLaws` says, a step of a run keeps the world's
/// invariant, and what was true of each pair for ever; so the world's invariant holds after every run.
pub fn steps_keep_the_world()
    ensures step { (tree : List TreeProcess) → IsTree tree → ProcessLaws tree → (es : List Made) (w : World)
        → IsRun tree es w → WorldHolds tree w → (m : Move) (e : Effect) (later : World)
        → MayHappen w.net m.step.process m.step.happening → world_makes tree w m ≡ Some (e, later)
        → WorldHolds tree later × AllLater tree w later }
    ensures run { (tree : List TreeProcess) → IsTree tree → ProcessLaws tree → (es : List Made) (w : World)
        → IsRun tree es w → WorldHolds tree w }
{}

/// Where the steps of each process keep what `ProcessLaws` says, each COMMIT and each ABORT that finds its
/// case in doubt tells the outcome, now and in every later world.
pub fn true_answers()
    ensures { (tree : List TreeProcess) → IsTree tree → ProcessLaws tree → (es : List Made) (w : World)
        → IsRun tree es w → WorldHolds tree w → TrueAnswers tree w }
{}

/// Where the steps of each process keep what `ProcessLaws` says, the headline holds of every run.
pub fn headline_from_processes()
    ensures { (tree : List TreeProcess) → IsTree tree → ProcessLaws tree → (es : List Made) (w : World)
        → IsRun tree es w → Headline tree es w }
{}

/// Each step of each manager keeps what `ProcessLaws` says, so the laws of coordinators are enough: where
/// each step of each coordinator keeps it, the headline holds of every run.
pub fn headline_from_coordinators()
    ensures enough { (tree : List TreeProcess) → CoordinatorLaws tree → ProcessLaws tree }
    ensures headline { (tree : List TreeProcess) → IsTree tree → CoordinatorLaws tree
        → (es : List Made) (w : World)
        → IsRun tree es w → Headline tree es w }
{}

/// Of coordinators it is enough that each step of the root keeps what `RootLaws` says, and each step of a
/// cascaded coordinator what `CascadedLaws` says: then the headline holds of every run.
pub fn headline_from_root_and_cascaded()
    ensures { (tree : List TreeProcess) → IsTree tree → RootLaws tree → CascadedLaws tree → (es : List Made)
        (w : World) → IsRun tree es w → Headline tree es w }
{}
