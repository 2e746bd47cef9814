//! The laws of restarts and trims.
ghost use Rattle.proof_steps.specs.crashes.CoordinatorCrashes.{CoordinatorCrashes};

/// In every run of every tree each restart of a coordinator, whatever is left of its log, and each trim,
/// also where the device fails in it, keeps the invariant of each pair below the coordinator, and what was
/// true of the pair for ever.
pub fn coordinator_crashes()
    ensures { CoordinatorCrashes }
{}
