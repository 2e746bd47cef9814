//! What a state is made of. Threads, branches, keys and values are numbers here: a transcript's reader gives
//! each name one number, and no number two names.

ghost use Rattle.std.specs.Prelude.{◌≡◌};
ghost use Rattle.judge_state.specs.Parts.{is_at_work, is_in_doubt};

/// What is known of an operator's, or the manager's own, decision of a branch.
#[derive(Clone, Copy, PartialEq, Eq)]
pub enum JudgedDecision {
    /// There is one, and it may be any.
    Unknown,
    Commit,
    Rollback,
    /// In part one, in part the other.
    Mixed,
}

/// How a branch stands.
#[derive(Clone, Copy, PartialEq, Eq)]
pub enum Stand {
    /// At work: active where a thread is in it, else idle.
    Active,
    /// In doubt.
    Prepared,
    /// Can only be rolled back.
    RollbackOnly,
    /// Decided heuristically, and not yet forgotten.
    Heuristic(JudgedDecision),
}

/// A branch that the manager knows.
#[derive(Clone, Copy, PartialEq, Eq)]
pub struct JudgedBranch {
    pub name: u32,
    pub stand: Stand,
    /// The thread that began it.
    pub owner: u32,
    /// How many values were committed when it began.
    pub since: usize,
}

impl JudgedBranch {
    /// Whether it is neither prepared nor decided.
    pub fn is_at_work(self) -> bool
        ensures { result ≡ is_at_work self }
    {
        matches!(self.stand, Stand::Active | Stand::RollbackOnly)
    }

    /// Whether it is prepared, or decided heuristically: what a recover lists.
    pub fn is_in_doubt(self) -> bool
        ensures { result ≡ is_in_doubt self }
    {
        matches!(self.stand, Stand::Prepared | Stand::Heuristic(_))
    }
}

/// The association of a thread with a branch.
#[derive(Clone, Copy, PartialEq, Eq)]
pub struct Link {
    pub thread: u32,
    pub branch: u32,
    /// T2; else T1.
    pub suspended: bool,
}

/// A value that a branch has written, and that nobody else sees yet. The value 0 is none.
#[derive(Clone, Copy, PartialEq, Eq)]
pub struct Work {
    pub branch: u32,
    pub key: u32,
    pub value: u32,
}

/// A value that was committed.
#[derive(Clone, Copy, PartialEq, Eq)]
pub struct JudgedWrite {
    /// The branch that wrote it: None outside of any branch.
    pub branch: Option<u32>,
    pub key: u32,
    pub value: u32,
    /// Whether it was committed for sure: not so of a mixed or unknown decision.
    pub sure: bool,
}

/// A branch that an open scan may give, or has given.
#[derive(Clone, Copy, PartialEq, Eq)]
pub struct Listed {
    pub thread: u32,
    pub branch: u32,
    pub given: bool,
    /// Whether the scan may not end without it.
    pub due: bool,
}
