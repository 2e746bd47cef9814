//! The laws. The functions do nothing: each one's contract is a law.

ghost use Rattle.tree_state.specs.Steps.{FaultsAreMoves, InputsAreMoves, RefusalsAreMoves, RestartFaultsAreMoves, RestartsAreMoves, TrimFaultsAreMoves, TrimRefusalsAreMoves, TrimsAreMoves};
ghost use Rattle.proof_runs.specs.Laws.{BreaksAsTheModel, CascadesMakeAsTheModel, ManagersMakeAsTheModel, MeetsAsTheModel, OpenedStands, RefusesAsTheModel, RootsMakeAsTheModel, SameStandsForTheSame};

/// Where a process stands for a process of the model, each input meets at it the row, the refusal or the
/// nothing that it meets there.
pub fn inputs_meet_the_models_turns()
    ensures { MeetsAsTheModel }
{}

/// Where a manager stands for a manager of the model, it makes of each input what that makes of it: it shows
/// the same, and stands for what is left.
pub fn managers_make_as_the_model()
    ensures { ManagersMakeAsTheModel }
{}

/// Where a root stands for a root of the model that keeps of its cases what holds in every run, it makes of
/// each input what that makes of it: it shows the same, and stands for what is left.
pub fn roots_make_as_the_model()
    ensures { RootsMakeAsTheModel }
{}

/// Where a coordinator below the root stands for one of the model that keeps of its cases what holds in every
/// run, it makes of each input that is not passed over what that makes of it: it shows the same, and stands
/// for what is left.
pub fn cascades_make_as_the_model()
    ensures { CascadesMakeAsTheModel }
{}

/// A process between which and one that stands for a process of the model nothing is otherwise stands for
/// that too.
pub fn same_stands_for_the_same()
    ensures { SameStandsForTheSame }
{}

/// Where a process stands for a process of the model, that refuses what it refuses, by the same error, and it
/// still stands for it.
pub fn refuses_as_the_model()
    ensures { RefusesAsTheModel }
{}

/// Where a process stands for a process of the model and its device fails in an input, that of the model may
/// fail in it too so that the one stands for what is left of the other.
pub fn breaks_as_the_model()
    ensures { BreaksAsTheModel }
{}

/// Where a process of any role stands for a process of the model that keeps of its cases what holds in every
/// run, each input that it makes is a move of that: it shows the same, and stands for what is left. Where the
/// model passes an input over, the process does nothing with it.
pub fn inputs_are_moves()
    ensures { InputsAreMoves }
{}

/// What it refuses is refused there by the same error, and it still stands for it.
pub fn refusals_are_moves()
    ensures { RefusalsAreMoves }
{}

/// Where its device fails in an input, that is a move with a fault in it, and it stands for what that leaves;
/// where the model passes the input over, if no record was written or forced.
pub fn faults_are_moves()
    ensures { FaultsAreMoves }
{}

/// A process that opens an empty log stands for the model's process as it opens.
pub fn opened_stands()
    ensures { OpenedStands }
{}

/// Where a process of any role that keeps records of its own alone stands for a process of the model, its
/// restart is a move of that: it shows the same, and stands for what is left. N unforced records are
/// kept there as stand whole within the bytes that are kept.
pub fn restarts_are_moves()
    ensures { RestartsAreMoves }
{}

/// Where its device fails in the restart, that is a move with a fault in it, and it stands for what that
/// leaves.
pub fn restart_faults_are_moves()
    ensures { RestartFaultsAreMoves }
{}

/// Where a process of any role that is up stands for a process of the model that keeps what every run keeps,
/// and the records of its log can be in one, its trim is a move of that: N records remain in both,
/// and it stands for what is left.
pub fn trims_are_moves()
    ensures { TrimsAreMoves }
{}

/// Where its device fails in the trim, that is a move with a fault in it, and it stands for what that leaves.
pub fn trim_faults_are_moves()
    ensures { TrimFaultsAreMoves }
{}

/// A process that has failed refuses a trim, as the model's process does for which it stands, and it still
/// stands for it.
pub fn trim_refusals_are_moves()
    ensures { TrimRefusalsAreMoves }
{}
