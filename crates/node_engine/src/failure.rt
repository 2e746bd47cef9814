//! Why a node ends before its input does.

use std::alloc::{AllocError, AllocFailed};
use thiserror::Error;

/// Why a node ended before its input did.
#[derive(Clone, Copy, Debug, PartialEq, Eq, Error)]
pub enum NodeFailure {
    /// A read failed, or would have been the 2^64th. Each line before was answered.
    #[error("reading failed")]
    Read,
    /// Memory was refused under a line, which was made or not, and was not answered.
    #[error("out of memory")]
    Memory,
    /// A write failed. Of the answer to the last line a beginning was written.
    #[error("writing failed")]
    Write,
    /// The device failed under a line, which was made or not, and was not answered.
    #[error("the device failed")]
    Device,
    /// The messages since the opening count 2^64 or more, with those of a line that was made and was not
    /// answered.
    #[error("numbers are used up")]
    Exhausted,
}

impl From<AllocError> for NodeFailure {
    ghost use Rattle.node_engine.specs.declared.failure.NodeFailure.TheVariants.{Memory};
    ghost use Rattle.std.specs.Prelude.{◌≡◌};

    ghost from_gives = { λ _ e. e ≡ Memory };

    fn from(_e: AllocError) -> NodeFailure {
        NodeFailure::Memory
    }
}

impl<T: Drop> From<AllocFailed<T>> for NodeFailure {
    ghost use Rattle.node_engine.specs.declared.failure.NodeFailure.TheVariants.{Memory};
    ghost use Rattle.std.specs.Prelude.{◌≡◌};

    ghost from_gives = { λ _ e. e ≡ Memory };

    fn from(_e: AllocFailed<T>) -> NodeFailure {
        NodeFailure::Memory
    }
}
