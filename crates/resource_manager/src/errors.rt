//! Why a resource manager did not restart, why its log was not trimmed, and why a branch was not decided.

ghost use Rattle.std.specs.Prelude.{◌≡◌};
ghost use Rattle.resource_manager.specs.Numbers.{decide_number, restart_number, trim_number};

use std::alloc::AllocError;
use thiserror::Error;

/// Why a manager did not restart.
#[derive(Clone, Copy, Debug, PartialEq, Eq, Error)]
pub enum RestartError {
    /// There was no memory; nothing changed.
    #[error("no memory")]
    Memory,
    /// The device failed; the manager has failed until a restart.
    #[error("the device failed")]
    Device,
    /// The boots are used up: none below 2^63 comes after the last one; nothing changed.
    #[error("the boots are used up")]
    Exhausted,
}

impl RestartError {
    /// Its number: Memory 1, Device 2, Exhausted 4.
    pub fn number(self) -> u8
        ensures { result ≡ restart_number self }
    {
        match self {
            RestartError::Memory => 1,
            RestartError::Device => 2,
            RestartError::Exhausted => 4,
        }
    }
}

impl From<AllocError> for RestartError {
    ghost use Rattle.resource_manager.specs.declared.errors.RestartError.TheVariants as error;

    ghost from_gives = { λ e r. r ≡ error.Memory };

    fn from(_error: AllocError) -> RestartError {
        RestartError::Memory
    }
}

/// Why the log of a manager was not trimmed.
#[derive(Clone, Copy, Debug, PartialEq, Eq, Error)]
pub enum TrimError {
    /// There was no memory; nothing changed.
    #[error("no memory")]
    Memory,
    /// The device failed; the manager has failed until a restart.
    #[error("the device failed")]
    Device,
    /// The manager had failed; nothing changed.
    #[error("the manager has failed")]
    Failed,
}

impl TrimError {
    /// Its number: Memory 1, Device 2, Failed 5.
    pub fn number(self) -> u8
        ensures { result ≡ trim_number self }
    {
        match self {
            TrimError::Memory => 1,
            TrimError::Device => 2,
            TrimError::Failed => 5,
        }
    }
}

impl From<AllocError> for TrimError {
    ghost use Rattle.resource_manager.specs.declared.errors.TrimError.TheVariants as error;

    ghost from_gives = { λ e r. r ≡ error.Memory };

    fn from(_error: AllocError) -> TrimError {
        TrimError::Memory
    }
}

/// Why an operator's decision of a branch was not made.
#[derive(Clone, Copy, Debug, PartialEq, Eq, Error)]
pub enum DecideError {
    /// There was no memory; nothing changed.
    #[error("no memory")]
    Memory,
    /// The device failed under the record of the decision; the manager has failed until a restart.
    #[error("the device failed")]
    Device,
    /// The manager had failed; nothing changed.
    #[error("the manager has failed")]
    Failed,
    /// The branch is not prepared; nothing changed.
    #[error("the branch is not in doubt")]
    NotInDoubt,
    /// A limit of the manager's own is met; nothing changed.
    #[error("a limit of the manager is met")]
    Exhausted,
}

impl DecideError {
    /// Its number: Memory 1, Exhausted 4; 5 where the device has failed, or fails now (XAER_RMFAIL);
    /// NotInDoubt 7.
    pub fn number(self) -> u8
        ensures { result ≡ decide_number self }
    {
        match self {
            DecideError::Memory => 1,
            DecideError::Exhausted => 4,
            DecideError::Device | DecideError::Failed => 5,
            DecideError::NotInDoubt => 7,
        }
    }
}

impl From<AllocError> for DecideError {
    ghost use Rattle.resource_manager.specs.declared.errors.DecideError.TheVariants as error;

    ghost from_gives = { λ e r. r ≡ error.Memory };

    fn from(_error: AllocError) -> DecideError {
        DecideError::Memory
    }
}
