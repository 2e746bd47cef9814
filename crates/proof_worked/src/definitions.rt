//! Laws of the definitions, each on a function with an empty body.

ghost use Rattle.std.specs.Prelude.{◌≡◌, ◌↔◌, Bool, true, ℕ, Some, List};
ghost use Rattle.protocol.specs.declared.names.Ticket.{Ticket};
ghost use Rattle.protocol.specs.Names.{same_case, same_process, same_ticket, same_txn};
ghost use Rattle.protocol.specs.Texts.{TellsCases, TellsTickets};
ghost use Rattle.protocol.specs.CoordinatorRows.{Seat};
ghost use Rattle.protocol.specs.Counts.{CommittedUpdateCosts};
ghost use Rattle.protocol.specs.declared.names.ProcessId.{ProcessId};
ghost use Rattle.protocol.specs.declared.trees.TreeProcess.{TreeProcess};
ghost use Rattle.protocol.specs.declared.names.Case.{Case};
ghost use Rattle.protocol.specs.declared.names.Presumption.{Presumption};
ghost use Rattle.protocol.specs.declared.names.Txn.{Txn};
ghost use Rattle.protocol.specs.LogNames.{ReadsBack};
ghost use Rattle.protocol.specs.Nodes.{DataAnswer, IsCoordinator, Node, Place, Version, place_of, role_of};
ghost use Rattle.protocol.specs.declared.records.Record.{Record};
ghost use Rattle.protocol.specs.declared.standings.Vote.{Vote};
ghost use Rattle.protocol.specs.Memory.{same_vote};
ghost use Rattle.protocol.specs.Outcomes.{first_vote, has_accepted, has_heard_vote};
ghost use Rattle.protocol.specs.Views.{ManagerViews, RootBegins, RootViews};
ghost use Rattle.protocol.specs.Records.{has};
ghost use Rattle.proof_worked.specs.Histories.{AcceptedTicket, HeardFirst, has_txn, was_forced, was_found_undecided};
ghost use Rattle.protocol.specs.World.{IsRun, Made, World, made_by, net_by, node_by};

/// A run is told process by process: each process is what its own moves make of it, and the net is the
/// messages of the moves, one after another.
pub fn processes_are_their_moves()
    ensures processes { (tree : List TreeProcess) (es : List Made) (w : World)
        → IsRun tree es w → (p : ProcessId)
        → w.at p ≡ node_by (place_of tree p) (made_by p es) }
    ensures net { (tree : List TreeProcess) (es : List Made) (w : World) → IsRun tree es w
        → w.net ≡ net_by es }
{}

/// The history of forced records has each record that was ever in the forced front of the process, and no
/// other.
pub fn durable_is_what_was_forced()
    ensures { (tree : List TreeProcess) (es : List Made) (w : World) → IsRun tree es w → (p : ProcessId)
        → (q : Record → Bool) → has q (w.at p).durable ≡ was_forced (place_of tree p) q (made_by p es) }
{}

/// A coordinator's history of votes has, of each ticket in each case, the first vote that the case heard of
/// it while it collected votes, and no other; and the first vote that is read off it is this one.
pub fn voted_is_what_was_heard_first()
    ensures voted { (tree : List TreeProcess) (es : List Made) (w : World) → IsRun tree es w → (p : ProcessId)
        → IsCoordinator (role_of tree p) → (c : Case) (t : Ticket) (v : Vote)
        → (has_heard_vote (w.at p) c t (same_vote v) ≡ true) ↔ HeardFirst (place_of tree p) c t v
        (made_by p es) }
    ensures first { (tree : List TreeProcess) (es : List Made) (w : World) → IsRun tree es w → (p : ProcessId)
        → IsCoordinator (role_of tree p) → (c : Case) (t : Ticket) (v : Vote)
        → (first_vote (w.at p).voted c t ≡ Some v) ↔ HeardFirst (place_of tree p) c t v (made_by p es) }
{}

/// A coordinator's history of accepted tickets has each ticket that JOINED brought to a case that was Active
/// and had accepted none of the same child, and no other.
pub fn accepted_is_what_joined()
    ensures { (tree : List TreeProcess) (es : List Made) (w : World) → IsRun tree es w → (p : ProcessId)
        → IsCoordinator (role_of tree p) → (c : Case) (t : Ticket)
        → (has_accepted (w.at p) c t ≡ true) ↔ AcceptedTicket (place_of tree p) c t (made_by p es) }
{}

/// The history of undecided transactions has each that a restart of the root found undecided, and no other.
pub fn found_undecided_is_what_restarts_found()
    ensures { (tree : List TreeProcess) (es : List Made) (w : World) → IsRun tree es w
        → (p : ProcessId) (x : Txn)
        → has_txn x (w.at p).found_undecided ≡ was_found_undecided (place_of tree p) x (made_by p es) }
{}

/// A manager's new view, as its reaction table of either version gives it, is what its extended lists read
/// as.
pub fn manager_views_follow_the_table()
    ensures { (ver : Version) (me p : ProcessId) (tree : List TreeProcess) (n : Node) (d : Case)
        → ManagerViews ver me p tree n d }
{}

/// The root's new view, as its reaction table of either version gives it, is what its extended lists read as.
pub fn root_views_follow_the_table()
    ensures rows { (ver : Version) (me : ProcessId) (tree : List TreeProcess) (n : Node) (x : Txn)
        → RootViews ver me tree n x }
    ensures begins { (ver : Version) (me : ProcessId) (tree : List TreeProcess) (n : Node) (p : Presumption)
        (a : DataAnswer) → RootBegins ver me tree n p a }
{}

/// What a committed update of a flat tree costs its root and each of its managers, row by row through the
/// reaction table.
pub fn committed_update_costs()
    ensures { (s : Seat) → CommittedUpdateCosts s }
{}

/// What a process wrote into its log under whole names it reads there again.
pub fn own_records_read_back()
    ensures { (place : Place) (rs : List Record) → ReadsBack place rs }
{}

/// The tests of names tell exactly which names are one.
pub fn names_tell()
    ensures process { (a b : ProcessId) → (same_process a b ≡ true) ↔ (a ≡ b) }
    ensures txn { (a b : Txn) → (same_txn a b ≡ true) ↔ (a ≡ b) }
    ensures ticket { (a b : Ticket) → (same_ticket a b ≡ true) ↔ (a ≡ b) }
    ensures case { (a b : Case) → (same_case a b ≡ true) ↔ (a ≡ b) }
{}

/// No two names are spelled alike: no two tickets, and no two cases of one root.
pub fn names_are_spelled_apart()
    ensures tickets { (t u : Ticket) → TellsTickets t u }
    ensures cases { (c d : Case) → TellsCases c d }
{}
