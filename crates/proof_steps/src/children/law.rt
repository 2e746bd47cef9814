//! The laws of children.
ghost use Rattle.proof_steps.specs.children.ManagerProcess.{ManagerProcess};
ghost use Rattle.proof_steps.specs.children.ManagerSteps.{ManagerSteps};

/// In every run, each step of a manager keeps the invariant of each pair of the manager: every input, JOIN
/// too, every restart, whatever is left of the log, and every trim, also where the device fails in it.
pub fn manager_steps()
    ensures { ManagerSteps }
{}

/// In every run, each step of a manager keeps the pairs above it, has none below it, and is of no pair of
/// others.
pub fn manager_process()
    ensures { ManagerProcess }
{}
