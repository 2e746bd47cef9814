//! The laws of parents.
ghost use Rattle.proof_steps.specs.parents.ParentRows.{CoordinatorInputs, CoordinatorRows};

/// In every run of every tree in which the world's invariant holds, each input that a coordinator handles or
/// passes over keeps the pairs below it, root and cascaded, under both presumptions, whatever the child's
/// half and the pair above say.
pub fn coordinator_rows()
    ensures { CoordinatorRows }
{}

/// In every run of every tree in which the world's invariant holds, each input of a coordinator keeps the
/// pairs below it, even if the device fails in it, whatever of its records was appended and whatever of the
/// log was forced.
pub fn coordinator_inputs()
    ensures { CoordinatorInputs }
{}
