//! Why records leave nothing. `from_gives` is the contract of a `from`: what `?` makes of the error.

ghost use Rattle.std.specs.Prelude.{◌≡◌};
ghost use Rattle.kv_state.specs.Replays.{replay_number};

use log_text::ReadFault;
use std::alloc::AllocError;
use thiserror::Error;

/// Why the records of a log leave no key store.
#[derive(Clone, Copy, Debug, PartialEq, Eq, Error)]
pub enum ReplayError {
    /// There was no memory.
    #[error("no memory")]
    Memory,
    /// A record may not follow those before it, or an open branch promised what no branch can have written.
    #[error("malformed records")]
    Malformed,
    /// The records count 2^63 commits or more.
    #[error("too many commits")]
    Exhausted,
}

impl ReplayError {
    /// Its number: Memory 1, Malformed 3, Exhausted 4.
    pub fn number(self) -> u8
        ensures { result ≡ replay_number self }
    {
        match self {
            ReplayError::Memory => 1,
            ReplayError::Malformed => 3,
            ReplayError::Exhausted => 4,
        }
    }
}

impl From<AllocError> for ReplayError {
    ghost use Rattle.std.specs.Prelude.{◌≡◌};
    ghost use Rattle.kv_state.specs.declared.fault.ReplayError.TheVariants.{Memory};

    ghost from_gives = { λ _ e. e ≡ Memory };

    fn from(_error: AllocError) -> ReplayError {
        ReplayError::Memory
    }
}

impl From<ReadFault> for ReplayError {
    ghost use Rattle.std.specs.Prelude.{◌≡◌};
    ghost use Rattle.kv_state.specs.Replays.{error_of};

    ghost from_gives = { λ fault e. e ≡ error_of fault };

    fn from(fault: ReadFault) -> ReplayError {
        match fault {
            ReadFault::Memory => ReplayError::Memory,
            ReadFault::Malformed => ReplayError::Malformed,
        }
    }
}
