//! The headline, and what leads to it.
ghost use Rattle.std.specs.Prelude.{List, ℕ};
ghost use Rattle.protocol.specs.Audits.{AllUp, AuditsAreTrue};
ghost use Rattle.proof_headline.specs.CoordinatorLaws.{CascadedLaws, RootLaws};
ghost use Rattle.protocol.specs.Outcomes.{Headline};
ghost use Rattle.protocol.specs.Trees.{IsTree};
ghost use Rattle.protocol.specs.Nodes.{Version};
ghost use Rattle.protocol.specs.World.{IsRun, IsRunBy, Made, World};
ghost use Rattle.protocol.specs.declared.trees.TreeProcess.{TreeProcess};
ghost use Rattle.proof_processes.specs.WorldHolds.{AboutGiven, AllGo, WorldHolds};

/// Over every run of every tree, with cascades, restarts, trims, losses, repeats, faults, inquiries and
/// operators' decisions, under both presumptions mixed: no two processes end one transaction differently
/// except by a manager's heuristic decision; commit is decided only where every participant voted yes or
/// read-only; every answer that finds its asker in doubt tells the root's outcome, now and in every later
/// world; a mismatch is in its log until it is forgotten; and an operator's record comes from that
/// operator alone (R*).
pub fn headline()
    ensures { (tree : List TreeProcess) (es : List Made) (w : World) → IsTree tree → IsRun tree es w
        → Headline tree es w }
{}

/// So it holds over an earlier part by either version and a later one together.
pub fn headline_of_reopened_trees()
    ensures { (tree : List TreeProcess) (v : Version) (before : ℕ) (es : List Made) (w : World) → IsTree tree
        → IsRunBy tree v before es w → Headline tree es w }
{}

/// After every run of every tree in which no process is failed, the audit of the logs' kept records gives
/// each case that it lists the outcome of its transaction, although roots have forgotten and trimmed; and
/// the mismatches that it shows are just those that stand.
pub fn audits_are_true()
    ensures { (tree : List TreeProcess) (es : List Made) (w : World) → IsTree tree
        → IsRun tree es w → AllUp tree w
        → AuditsAreTrue tree w }
{}

/// The world's invariant holds after every run of every tree.
pub fn the_world_holds()
    ensures { (tree : List TreeProcess) (es : List Made) (w : World) → IsTree tree → IsRun tree es w
        → WorldHolds tree w }
{}

/// Each step of each coordinator keeps its part of the world's invariant, and the invariant of each pair of
/// which it has a half: of the root, and of a cascaded one.
pub fn coordinators_keep_their_pairs()
    ensures root { (tree : List TreeProcess) → IsTree tree → RootLaws tree }
    ensures cascaded { (tree : List TreeProcess) → IsTree tree → CascadedLaws tree }
{}

/// In every run each message goes where it belongs, and each that is about a case is of a case that was
/// given.
pub fn messages_go_where_they_belong()
    ensures { (tree : List TreeProcess) (es : List Made) (w : World) → IsRun tree es w
        → AllGo tree w.net × AboutGiven w.net }
{}
