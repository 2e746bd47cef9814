//! The laws of findings and reports.
ghost use Rattle.std.specs.Prelude.{List, ℕ};
ghost use Rattle.protocol.specs.Nodes.{Second};
ghost use Rattle.protocol.specs.Trees.{IsTree};
ghost use Rattle.protocol.specs.World.{IsRun, IsRunBy, Made, World};
ghost use Rattle.protocol.specs.declared.trees.TreeProcess.{TreeProcess};
ghost use Rattle.proof_reports.specs.Findings.{AllSayTrue, MixedHadMismatch};
ghost use Rattle.proof_reports.specs.Mismatches.{AllReportTruly};
ghost use Rattle.proof_reports.specs.SecondRuns.{SecondRunsReport};

/// In every run, whichever version makes each step, who is reported as mixed by an acknowledgement was
/// decided by its operator against the outcome that is acknowledged, in the forced front of its log.
pub fn mixed_was_decided()
    ensures { (tree : List TreeProcess) (es : List Made) (w : World) → IsRun tree es w
        → AllSayTrue w.at w.net }
{}

/// In every run of every tree a ticket that an End of a root's case ever reported as mixed has had a
/// mismatch: its operator decided against the outcome of the transaction.
pub fn reported_had_mismatch()
    ensures { (tree : List TreeProcess) (es : List Made) (w : World) → IsTree tree → IsRun tree es w
        → MixedHadMismatch tree w }
{}

/// Reported mismatches: in every run of every tree, each End that a root appends since the tree was opened
/// last, by the second version, reports truly, also where its device fails. Who is reported as mixed has had
/// a mismatch; and each mismatch that stands, whose ticket and each ticket above it is named in a decision of
/// the case that accepted it, is reported as mixed, or lies at or below a ticket that is reported as
/// unreported. Which version made the run before the tree was opened last does not matter.
pub fn mismatches_are_reported()
    ensures { (tree : List TreeProcess) (before : ℕ) (es : List Made) (w : World) → IsTree tree
        → (run : IsRunBy tree Second before es w) → AllReportTruly tree Second before es w run }
{}

/// As `mismatches_are_reported`, of a run that the second version makes alone from the opened tree, whatever
/// numbers its messages have: each End that a root appends in it reports truly.
pub fn second_runs_report()
    ensures { SecondRunsReport }
{}
