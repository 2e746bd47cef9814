//! The laws of turns.
ghost use Rattle.std.specs.Prelude.{List};
ghost use Rattle.protocol.specs.Outcomes.{ByOperatorAlone};
ghost use Rattle.protocol.specs.World.{IsRun, Made};
ghost use Rattle.protocol.specs.World.{World};
ghost use Rattle.protocol.specs.declared.trees.TreeProcess.{TreeProcess};

/// In every run of every tree, with restarts, trims, faults and inquiries, a step that appends an operator's
/// record handles the operator's act that asks for just that record.
pub fn operators_alone()
    ensures { (tree : List TreeProcess) (es : List Made) (w : World) → IsRun tree es w → ByOperatorAlone es }
{}
