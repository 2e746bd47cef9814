//! Why the states that may follow are not told.

use std::alloc::{AllocError, AllocFailed};
use thiserror::Error;

/// More states than these are not gone through.
pub const MOST_STATES: usize = 20_000;

/// Why the states that may follow are not told.
#[derive(Clone, Copy, Debug, PartialEq, Eq, Error)]
pub enum JudgeError {
    /// Memory was refused.
    #[error("out of memory")]
    Memory,
    /// There are more than can be gone through.
    #[error("more states are possible than can be gone through")]
    TooMany,
}

impl From<AllocError> for JudgeError {
    ghost use Rattle.judge_rules.specs.declared.errors.JudgeError.TheVariants.{Memory};
    ghost use Rattle.std.specs.Prelude.{◌≡◌};

    ghost from_gives = { λ _ e. e ≡ Memory };

    fn from(_e: AllocError) -> JudgeError {
        JudgeError::Memory
    }
}

impl<T: Drop> From<AllocFailed<T>> for JudgeError {
    ghost use Rattle.judge_rules.specs.declared.errors.JudgeError.TheVariants.{Memory};
    ghost use Rattle.std.specs.Prelude.{◌≡◌};

    ghost from_gives = { λ _ e. e ≡ Memory };

    fn from(_e: AllocFailed<T>) -> JudgeError {
        JudgeError::Memory
    }
}
