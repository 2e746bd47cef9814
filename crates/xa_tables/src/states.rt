//! The states of a manager, of an association and of a branch.

ghost use Rattle.std.specs.Prelude.{◌≡◌};
ghost use Rattle.xa_tables.specs.Tables.{is_in_doubt};

/// The state of a manager.
#[derive(Clone, Copy, PartialEq, Eq)]
pub enum InitState {
    /// Not open.
    R0,
    /// Open.
    R1,
}

/// The state of the association of a thread with a branch.
#[derive(Clone, Copy, PartialEq, Eq)]
pub enum AssocState {
    /// None.
    T0,
    /// Active.
    T1,
    /// Suspended by the thread, which alone resumes it.
    T2,
    /// Suspended for migration: it belongs to nobody until any one thread resumes it.
    M,
}

/// The state of a branch.
#[derive(Clone, Copy, PartialEq, Eq)]
pub enum BranchState {
    /// Unknown.
    S0,
    /// Active: a thread is in it.
    S1,
    /// Idle.
    S2,
    /// Prepared.
    S3,
    /// Can only be rolled back.
    S4,
    /// Decided by an operator, and not yet forgotten.
    S5,
}

impl BranchState {
    /// Whether a branch in this state is in doubt: prepared, or decided by an operator. These are what a
    /// recover lists.
    pub fn is_in_doubt(self) -> bool
        ensures { result ≡ is_in_doubt self }
    {
        matches!(self, BranchState::S3 | BranchState::S5)
    }
}
