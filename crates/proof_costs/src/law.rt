//! The laws of costs.

ghost use Rattle.std.specs.Prelude.{List, ℕ};
ghost use Rattle.protocol.specs.declared.names.Case.{Case};
ghost use Rattle.protocol.specs.declared.names.ProcessId.{ProcessId};
ghost use Rattle.protocol.specs.declared.names.Ticket.{Ticket};
ghost use Rattle.protocol.specs.declared.names.Txn.{Txn};
ghost use Rattle.protocol.specs.declared.trees.TreeProcess.{TreeProcess};
ghost use Rattle.protocol.specs.CoordinatorRows.{Seat};
ghost use Rattle.protocol.specs.Nodes.{Version};
ghost use Rattle.protocol.specs.World.{Continues, IsRun, Made, World, journal_of};
ghost use Rattle.proof_costs.specs.Costs.{CommittedUpdateCostsBy};
ghost use Rattle.proof_costs.specs.Journals.{ManagerCommits, ManagerPays, RootCommits, RootPays};

/// A committed update of a flat tree costs its root and each of its managers the same by each version of the
/// reaction table, row by row through it, if nothing was found that contradicts the update.
pub fn committed_updates_cost_the_same()
    ensures { (ver : Version) (s : Seat) → CommittedUpdateCostsBy ver s }
{}

/// In every run of every tree, whatever the version of each move, a committed update costs a root and a
/// manager what R* says. The journal's entries show it, with any entries of others between them. Those of the
/// transaction at its root are the commit act, one YES of each child and, under Presumed Abort, one
/// acknowledgement of each that finds nothing. Those of the case at a manager are PREPARE, which it answers
/// by YES, and COMMIT. If there are more, as a repeated message or a restart, the update may cost more.
pub fn runs_cost_the_same()
    ensures root { (tree : List TreeProcess) (es : List Made) (w : World) → IsRun tree es w
        → (later : List Made) (w2 : World) → Continues tree w later w2
        → (p : ProcessId) (x : Txn) (votes acks : List Ticket)
        → RootCommits tree w (journal_of later) p x votes acks → RootPays tree w w2 (journal_of later) p x }
    ensures manager { (tree : List TreeProcess) (es : List Made) (w : World) → IsRun tree es w
        → (later : List Made) (w2 : World) → Continues tree w later w2
        → (p parent : ProcessId) (d : Case) (n : ℕ)
        → ManagerCommits tree w (journal_of later) p parent d n → ManagerPays tree w2 (journal_of later) p d }
{}
