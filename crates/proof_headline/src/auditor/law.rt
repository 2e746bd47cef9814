//! The laws of audits.
ghost use Rattle.std.specs.Prelude.{List};
ghost use Rattle.protocol.specs.Audits.{AllUp, AuditsAreTrue};
ghost use Rattle.protocol.specs.Trees.{IsTree};
ghost use Rattle.protocol.specs.World.{IsRun, Made, World};
ghost use Rattle.protocol.specs.declared.trees.TreeProcess.{TreeProcess};
ghost use Rattle.proof_processes.specs.WorldHolds.{WorldHolds};

/// Where the world's invariant holds after a run, and no process of the tree is failed, the audit of the
/// kept lists gives each line's case the outcome of its transaction, and the mismatches that it shows are
/// just those that stand.
pub fn audits_are_true()
    ensures { (tree : List TreeProcess) (es : List Made) (w : World) → IsTree tree → IsRun tree es w
        → WorldHolds tree w → AllUp tree w → AuditsAreTrue tree w }
{}
