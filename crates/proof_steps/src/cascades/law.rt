//! The laws of cascaded coordinators as children.
ghost use Rattle.proof_steps.specs.cascades.CascadedSteps.{CascadedChildSteps};

/// In every run, each step of a cascaded coordinator keeps the pairs above it: every input, every restart
/// and every trim, and each of them where its device fails in it.
pub fn cascaded_child_steps()
    ensures { CascadedChildSteps }
{}
