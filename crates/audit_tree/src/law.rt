//! Laws of the lines of an audit.

ghost use Rattle.std.specs.Prelude.{List};
ghost use Rattle.protocol.specs.Audits.{KeptLogs};
ghost use Rattle.audit_tree.specs.Reports.{LinesTellMismatches};
ghost use Rattle.protocol.specs.declared.trees.TreeProcess.{TreeProcess};

/// A line shows a mismatch just where an operator decided the case one way and its transaction ends the
/// other.
pub fn lines_tell_mismatches()
    ensures { (tree : List TreeProcess) (logs : KeptLogs) → LinesTellMismatches tree logs }
{}
