//! What a resource manager refuses.

ghost use Rattle.std.specs.Prelude.{◌≡◌};
ghost use Rattle.xa_assoc.specs.Errors.{number_of};

use std::alloc::AllocError;
use thiserror::Error;
use xa_xid::Xid;

/// Why a manager did not do a thread's work; nothing changed.
#[derive(Clone, Copy, Debug, PartialEq, Eq, Error)]
pub enum WorkError {
    /// There was no memory.
    #[error("no memory")]
    Memory,
    /// The thread is active in no branch.
    #[error("the thread is active in no branch")]
    NotAssociated,
    /// Another branch holds the key: the one of those in the way that took it first.
    #[error("another branch holds the key")]
    Locked(Xid),
    /// The key has no bytes or more than 64, or the value more than 256.
    #[error("the key or the value is too long")]
    TooLong,
    /// The branch has written 64 different keys, and this is another.
    #[error("the branch has written 64 keys")]
    TooManyWrites,
    /// The manager's device failed; it answers nothing else until a restart.
    #[error("the manager has failed")]
    RmFail,
    /// The branch can be rolled back alone.
    #[error("the branch can only be rolled back")]
    RollbackOnly,
}

impl From<AllocError> for WorkError {
    ghost use Rattle.xa_assoc.specs.declared.errors.WorkError.TheVariants as refusal;

    ghost from_gives = { λ e w. w ≡ refusal.Memory };

    fn from(_error: AllocError) -> WorkError {
        WorkError::Memory
    }
}

impl WorkError {
    /// The number by which a script's output names it, from 1 to 6; 0 for want of memory, which no output
    /// names.
    pub fn number(&self) -> u32
        ensures { result ≡ number_of self.now }
    {
        match self {
            WorkError::Memory => 0,
            WorkError::NotAssociated => 1,
            WorkError::Locked(_) => 2,
            WorkError::TooLong => 3,
            WorkError::TooManyWrites => 4,
            WorkError::RmFail => 5,
            WorkError::RollbackOnly => 6,
        }
    }
}
