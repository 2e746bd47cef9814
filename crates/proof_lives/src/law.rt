//! The laws. The functions do nothing: each one's contract is a law.

ghost use Rattle.proof_lives.specs.Lives.{LivesAreRuns, StepsGoOn};
ghost use Rattle.proof_lives.specs.Outcomes.{RootsTellSo};
ghost use Rattle.proof_lives.specs.Tells.{EntriesTellSo, ToldIsSo};

/// Where the state of a tree stands for a run, in which devices may have failed, what a step of one of its
/// programs makes of it stands for one that goes on, a program's end in any step and its start among them.
/// So whatever programs come and go, the tree makes a run of the model; the headline holds of it, and
/// mismatches are reported in it.
pub fn lives_are_runs()
    ensures step { StepsGoOn }
    ensures lives { LivesAreRuns }
{}

/// In every run of every tree, what the application was told of a transaction's end is its outcome; so is
/// what the journal says of a tree whose state stands for a run.
pub fn what_is_told_is_so()
    ensures moves { ToldIsSo }
    ensures entries { EntriesTellSo }
{}

/// Where the state of a tree stands for a run, what the records of a root that is up tell of how a
/// transaction ended is its outcome.
pub fn roots_tell_so()
    ensures { RootsTellSo }
{}
