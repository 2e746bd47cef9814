//! The laws of single processes.
ghost use Rattle.std.specs.Prelude.{◌≡◌, List, false, true};
ghost use Rattle.protocol.specs.Names.{child_case};
ghost use Rattle.protocol.specs.Nodes.{AtLeaf, AtRoot, Below, IsCoordinator, is_listed, kept, opened_node, place_of, role_of};
ghost use Rattle.protocol.specs.Outcomes.{StandingMismatches, YesIsForced, cascaded_ends, is_commit_outcome, sent};
ghost use Rattle.protocol.specs.declared.names.Case.{Case};
ghost use Rattle.protocol.specs.declared.names.Outcome.TheVariants.{Committed};
ghost use Rattle.protocol.specs.declared.names.ProcessId.{ProcessId};
ghost use Rattle.protocol.specs.declared.names.Ticket.{Ticket};
ghost use Rattle.protocol.specs.declared.names.Txn.{Txn};
ghost use Rattle.proof_processes.specs.Numbers.{IsIssuer, TicketNumbers};
ghost use Rattle.proof_processes.specs.CaseOrder.{CaseInOrder};
ghost use Rattle.proof_processes.specs.RootBegins.{OwnTransactions};
ghost use Rattle.proof_processes.specs.WorldHolds.{RootHolds, Boots, Cascades, Coordinates, IsPair, Issues, JoinedOnce, NodeHolds, WorldHolds, pair_reading};
ghost use Rattle.proof_pairs.specs.Invariant.{Common};
ghost use Rattle.proof_pairs.specs.readings.ReadingOf.{gives_case};
ghost use Rattle.protocol.specs.World.{IsRun, Made, World};
ghost use Rattle.protocol.specs.declared.trees.TreeProcess.{TreeProcess};

/// In every run of every tree, with restarts, trims, faults and inquiries, an operator's decision that was
/// ever in the forced front is there, until a Forgot of its case was appended: so each mismatch stands
/// until then.
pub fn mismatches_stand()
    ensures { (tree : List TreeProcess) (es : List Made) (w : World) → IsRun tree es w
        → StandingMismatches tree w }
{}

/// In every run of every tree, with restarts, trims, faults and inquiries, a manager's YES is sent with its
/// promise in the forced front, move by move, a repeated YES too.
pub fn promises_are_forced()
    ensures { (tree : List TreeProcess) (es : List Made) (w : World) → IsRun tree es w → YesIsForced tree es }
{}

/// In every run of every tree, the boot of all that a process keeps, its last Opened's, is no less than that
/// of its forced front, and the same where the process is up.
pub fn boots_rise()
    ensures { (tree : List TreeProcess) (es : List Made) (w : World) → IsRun tree es w → (p : ProcessId)
        → Boots (w.at p) }
{}

/// In every run of every tree, each transaction that a root has begun is its own, with a number that it gave
/// out before, in a boot that is in the forced front; and each case that the root recorded, remembers, or
/// accepted a ticket into, is of such a transaction.
pub fn roots_own_their_cases()
    ensures { (tree : List TreeProcess) (es : List Made) (w : World) → IsRun tree es w → (p : ProcessId)
        → role_of tree p ≡ AtRoot → OwnTransactions (place_of tree p) (w.at p) }
{}

/// In every run of every tree, each root keeps its part of the world's invariant as a coordinator: what it
/// remembers of a case goes with the case's records and with the votes that it heard; whom it remembers,
/// heard or named, it accepted, and JOINED named; a case's records are in order; and a case that can still
/// be decided has no Commit.
pub fn roots_hold()
    ensures { (tree : List TreeProcess) (es : List Made) (w : World) → IsRun tree es w → (p : ProcessId)
        → role_of tree p ≡ AtRoot → Coordinates (place_of tree p) w.net (w.at p) }
{}

/// In every run of every tree, each coordinator, the root or one below it, keeps its part of the world's
/// invariant: what it remembers of a case goes with the case's records and with the votes that it heard;
/// whom it remembers, heard or named, it accepted, and JOINED named; a case's records are in order; and a
/// case that can still be decided has no Commit.
pub fn coordinators_hold()
    ensures { (tree : List TreeProcess) (es : List Made) (w : World) → IsRun tree es w → (p : ProcessId)
        → IsCoordinator (role_of tree p) → Coordinates (place_of tree p) w.net (w.at p) }
{}

/// In every run of every tree, the records of each case of each coordinator stand in the order in which they
/// are written, and decisions and promises name whom they should.
pub fn cases_stand_in_order()
    ensures { (tree : List TreeProcess) (es : List Made) (w : World) → IsRun tree es w → (p : ProcessId)
        → IsCoordinator (role_of tree p) → (c : Case) → CaseInOrder c (kept (w.at p)) }
{}

/// Where the world's invariant holds, a case that JOINED gave is of a pair of the tree, which has the pair's
/// invariant; so a cascaded coordinator that committed after its promise did so by the outcome.
pub fn given_cases_have_pairs()
    ensures pair { (tree : List TreeProcess) (w : World) → WorldHolds tree w → (x : Txn) (t : Ticket)
        → sent (gives_case (child_case x t)) w.net ≡ true
        → (c : Case) × ((c.txn ≡ x) × (IsPair tree c t × Common (pair_reading tree w c t))) }
    ensures commits { (tree : List TreeProcess) (w : World) → WorldHolds tree w
        → (x : Txn) (t : Ticket) (p : ProcessId)
        → role_of tree t.child ≡ Below p → is_listed tree t.child ≡ true
        → cascaded_ends (w.at t.child) (child_case x t) Committed ≡ true → is_commit_outcome w x ≡ true }
{}

/// In every run of every tree a process gives each ticket number once, a cascaded coordinator too, also
/// after a restart; and each ticket that is active was told of by JOINED.
pub fn numbers_are_given_once()
    ensures { (tree : List TreeProcess) (es : List Made) (w : World) → IsRun tree es w → (q : ProcessId)
        → IsIssuer (role_of tree q) → TicketNumbers (place_of tree q) w.net (w.at q) }
{}

/// In every run of every tree each manager keeps its part of the world's invariant: what it recorded and
/// remembers is of cases whose tickets it gave, it promised only where it was asked, and a branch that takes
/// work has no record.
pub fn managers_hold()
    ensures { (tree : List TreeProcess) (es : List Made) (w : World) → IsRun tree es w → (q p : ProcessId)
        → role_of tree q ≡ AtLeaf p → NodeHolds (place_of tree q) w.net (w.at q) }
{}

/// In every run of every tree each cascaded coordinator has recorded, and remembers, only cases whose
/// tickets it gave, each with a number of its own, and it promised only where it was asked.
pub fn cascades_own_their_cases()
    ensures { (tree : List TreeProcess) (es : List Made) (w : World) → IsRun tree es w → (q p : ProcessId)
        → role_of tree q ≡ Below p → Issues (place_of tree q) w.net (w.at q) }
{}

/// In every run of every tree each cascaded coordinator accepts only into cases that it gave; those that it
/// remembers it gave since its last restart; of the others it remembers no accepted ticket; and it collects
/// votes only where it was asked.
pub fn cascades_hold()
    ensures { (tree : List TreeProcess) (es : List Made) (w : World) → IsRun tree es w → (q p : ProcessId)
        → role_of tree q ≡ Below p → Cascades (place_of tree q) w.net (w.at q) }
{}

/// In every run of every tree each cascaded coordinator keeps its part of the world's invariant, the whole
/// of it.
pub fn cascaded_nodes_hold()
    ensures { (tree : List TreeProcess) (es : List Made) (w : World) → IsRun tree es w → (q p : ProcessId)
        → role_of tree q ≡ Below p → NodeHolds (place_of tree q) w.net (w.at q) }
{}

/// In every run of every tree a transaction never commits once the root told `aborted` of it, appended an
/// Abort of it, or found it undecided in a restart; and each transaction that the root has begun is its own.
pub fn roots_begin()
    ensures { (tree : List TreeProcess) (es : List Made) (w : World) → IsRun tree es w → (q : ProcessId)
        → role_of tree q ≡ AtRoot → RootHolds (place_of tree q) (w.at q) }
{}

/// In every run of every tree each root keeps its part of the world's invariant, the whole of it.
pub fn root_nodes_hold()
    ensures { (tree : List TreeProcess) (es : List Made) (w : World) → IsRun tree es w → (q : ProcessId)
        → role_of tree q ≡ AtRoot → NodeHolds (place_of tree q) w.net (w.at q) }
{}

/// In every run of every tree each process keeps its part of the world's invariant, whatever its role.
pub fn nodes_hold()
    ensures { (tree : List TreeProcess) (es : List Made) (w : World) → IsRun tree es w → (q : ProcessId)
        → NodeHolds (place_of tree q) w.net (w.at q) }
{}

/// In every run of every tree JOINED gives each ticket to one case.
pub fn tickets_have_one_case()
    ensures { (tree : List TreeProcess) (es : List Made) (w : World) → IsRun tree es w → JoinedOnce w.net }
{}

/// In every run of every tree a process that is not listed stays as it opened.
pub fn unlisted_stay()
    ensures { (tree : List TreeProcess) (es : List Made) (w : World) → IsRun tree es w → (q : ProcessId)
        → is_listed tree q ≡ false → w.at q ≡ opened_node }
{}
