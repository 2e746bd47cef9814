//! What the first lines of a transcript say of a manager.

/// What a manager promises never to do: promises narrow what is admitted.
#[derive(Clone, Copy, PartialEq, Eq)]
pub struct Never {
    /// No XA_HEUR* without an operator's decision.
    pub heuristics: bool,
    /// No XAER_RMERR and no XAER_RMFAIL.
    pub failures: bool,
    /// No XA_RB* of its own will.
    pub rollback: bool,
}

/// What a manager lacks: excuses widen what is admitted.
#[derive(Clone, Copy, PartialEq, Eq)]
pub struct Lacks {
    /// It takes no TMJOIN.
    pub join: bool,
    /// It takes no TMSUSPEND and no TMRESUME.
    pub suspend: bool,
    /// It takes no TMMIGRATE.
    pub migrate: bool,
    /// A thread has at most one branch at work, which no other thread may end.
    pub threads: bool,
    /// A recover without a scan gives any list.
    pub scan: bool,
    /// A recover gives all that there is, whatever the count.
    pub count: bool,
    /// It has no state in which it is not open.
    pub opening: bool,
    /// What ends a prepared branch is not forced: a crash may bring the branch back.
    pub forced: bool,
    /// A read may see what others have not committed.
    pub isolation: bool,
    /// It takes no XID without a branch qualifier.
    pub empty_bqual: bool,
}

/// By what a manager is judged.
#[derive(Clone, Copy, PartialEq, Eq)]
pub struct Rules {
    pub never: Never,
    pub lacks: Lacks,
}
