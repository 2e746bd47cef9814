//! The order of the logs that runs leave.
ghost use Rattle.std.specs.Prelude.{◌≡◌, ◌<◌, ◌+◌, ◌^◌, ℕ, true, List};
ghost use Rattle.std.specs.List.{list_all};
ghost use Rattle.protocol.specs.declared.names.ProcessId.{ProcessId};
ghost use Rattle.protocol.specs.declared.trees.TreeProcess.{TreeProcess};
ghost use Rattle.protocol.specs.LogNames.{is_own_record, parent_of};
ghost use Rattle.protocol.specs.Nodes.{IsCoordinator, is_listed, kept, place_of, role_of};
ghost use Rattle.protocol.specs.Records.{boot_of};
ghost use Rattle.protocol.specs.Restarts.{left_of};
ghost use Rattle.protocol.specs.Trees.{IsTree};
ghost use Rattle.protocol.specs.World.{IsRun, Made, World};
ghost use Rattle.proof_log_order.specs.Orders.{AreOrdered, CanStand, IsReadWhole, NamesFit, appended, log_of};

/// In every run the records of a coordinator's log may follow one another: an Opened of a higher boot, and of
/// each case Collecting, Prepare, a decision and End in this order, each at most once, and Cleared at most
/// once, after an End that reports. It asks that the cases are the process's own, and that their numbers fit
/// the bytes of an XID.
pub fn coordinators_write_in_order()
    ensures { (tree : List TreeProcess) (es : List Made) (w : World) → IsRun tree es w → (q : ProcessId)
        → IsCoordinator (role_of tree q) → list_all (is_own_record (place_of tree q)) (kept (w.at q)) ≡ true
        → NamesFit (parent_of (role_of tree q)) (kept (w.at q))
        → AreOrdered (parent_of (role_of tree q)) (kept (w.at q)) }
{}

/// In every run of every tree the log of a coordinator, as bytes, is never damaged: it reads as its records,
/// and as a torn tail after them where bytes are there that are no whole frame. It asks that each record can
/// be in such a log.
pub fn coordinators_logs_are_read()
    ensures { (tree : List TreeProcess) (es : List Made) (w : World) → IsTree tree → IsRun tree es w
        → (q : ProcessId) → is_listed tree q ≡ true → IsCoordinator (role_of tree q)
        → CanStand (log_of tree w q) → IsReadWhole (log_of tree w q) }
{}

/// In every run what a coordinator appends at a restart can be in its log, wherever a crash cuts it, while a
/// boot below 2^63 is left: no Abort of it names more than 255 tickets. It asks that each record of the log
/// can be in it.
pub fn coordinators_can_restart()
    ensures { (tree : List TreeProcess) (es : List Made) (w : World) → IsRun tree es w → (q : ProcessId)
        → IsCoordinator (role_of tree q) → CanStand (log_of tree w q) → (k : ℕ)
        → boot_of (left_of (w.at q) k) + 1 < 2 ^ 63 → CanStand (appended tree w q k) }
{}
