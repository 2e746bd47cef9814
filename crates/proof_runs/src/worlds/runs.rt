//! The laws. The functions do nothing: each one's contract is a law.

ghost use Rattle.proof_runs.specs.worlds.Laws.{FaultsMoveRuns, InputsMoveRuns, RefusalsMoveNothing, RestartFaultsMoveRuns, RestartsMoveRuns, RunsFit, RunsHaveOpened, RunsKeepOpen, RunsKeepOwn, TrimFaultsMoveRuns, TrimRefusalsMoveNothing, TrimsMoveRuns};

/// In every run of every tree each process whose device did not fail keeps of its cases what the laws of
/// roots, of coordinators below them and of managers ask for.
pub fn runs_fit()
    ensures { RunsFit }
{}

/// After every run of every tree, what a listed process makes of an input, where it stands for the model's
/// process there, is a move of the model's world: it shows the same, and the process stands for what the move
/// leaves. So the run goes on by it, where a message that it hears was sent to it.
pub fn inputs_move_runs()
    ensures { InputsMoveRuns }
{}

/// After every run of every tree, what a process refuses is no move of the model's world, and it still
/// stands for the model's process there.
pub fn refusals_move_nothing()
    ensures { RefusalsMoveNothing }
{}

/// After every run of every tree, a device's failure in an input of a listed process is a move of the
/// model's world with a fault in it, and the process stands for what that leaves; where the model passes the
/// input over, if no record was written or forced.
pub fn faults_move_runs()
    ensures { FaultsMoveRuns }
{}

/// In every run of every tree each listed process keeps records of its own cases alone, and an Opened stands
/// in its log; and while its device did not fail, an open case has on its lists what it should, at a manager
/// no record.
pub fn runs_keep_their_records()
    ensures own { RunsKeepOwn }
    ensures opened { RunsHaveOpened }
    ensures open { RunsKeepOpen }
{}

/// After every run of every tree, a restart of a listed process, where it stands for the model's process
/// there, is a move of the model's world: it shows the same, and the process stands for what the move
/// leaves. So the run goes on.
pub fn restarts_move_runs()
    ensures { RestartsMoveRuns }
{}

/// A device's failure in the restart is a move of the model's world with a fault in it, and the process
/// stands for what that leaves.
pub fn restart_faults_move_runs()
    ensures { RestartFaultsMoveRuns }
{}

/// After every run of every tree, a trim of a listed process that is up, where it stands for the model's
/// process there and the records of its log can be in one, is a move of the model's world: as many
/// records remain, and the process stands for what the move leaves.
pub fn trims_move_runs()
    ensures { TrimsMoveRuns }
{}

/// A device's failure in the trim is a move of the model's world with a fault in it, and the process stands
/// for what that leaves.
pub fn trim_faults_move_runs()
    ensures { TrimFaultsMoveRuns }
{}

/// A trim that a failed process refuses is no move of the model's world, and the process still stands for
/// the model's.
pub fn trim_refusals_move_nothing()
    ensures { TrimRefusalsMoveNothing }
{}
