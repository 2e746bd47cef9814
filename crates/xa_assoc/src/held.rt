//! What is held: by which thread a branch is suspended, and how a branch is held by any.

use xa_xid::Xid;

/// A branch that a thread has suspended.
#[derive(Clone, Copy, PartialEq, Eq, Hash)]
pub(crate) struct Suspended {
    pub(crate) thread: u32,
    pub(crate) xid: Xid,
}

/// How a branch is held.
#[derive(Clone, Copy, PartialEq, Eq)]
pub struct OfBranch {
    /// A thread is active in it (T1).
    pub active: bool,
    /// A thread has suspended it (T2).
    pub suspended: bool,
    /// It is suspended for migration (M).
    pub migrated: bool,
}
