//! Why an event was not posted.

ghost use Rattle.std.specs.Prelude.{◌≡◌};
ghost use Rattle.cluster_process.specs.Posts.{post_error_number};

use protocol::StepError;
use std::alloc::AllocError;
use thiserror::Error;

/// Why an event was not posted. Nothing has changed then.
#[derive(Clone, Copy, Debug, PartialEq, Eq, Error)]
pub enum PostError {
    /// It is a settle, or delivers a message that the journal has not.
    #[error("no message of the journal")]
    Stranger,
    /// The journal has a million entries.
    #[error("the journal is full")]
    JournalFull,
    /// The process refused the step.
    #[error("the process refused the step")]
    Step(StepError),
    /// A growth was refused.
    #[error("no memory for the step")]
    Memory,
}

impl From<AllocError> for PostError {
    ghost use Rattle.std.specs.Prelude.{◌≡◌};
    ghost use Rattle.cluster_process.specs.declared.errors.PostError.TheVariants.{Memory};

    ghost from_gives = { λ _ e. e ≡ Memory };

    fn from(_e: AllocError) -> PostError {
        PostError::Memory
    }
}

impl From<StepError> for PostError {
    ghost use Rattle.std.specs.Prelude.{◌≡◌};
    ghost use Rattle.cluster_process.specs.Posts.{post_error};

    ghost from_gives = { λ why e. e ≡ post_error why };

    fn from(why: StepError) -> PostError {
        match why {
            StepError::Memory => PostError::Memory,
            _ => PostError::Step(why),
        }
    }
}

impl PostError {
    /// The number that is printed, 1 to 4.
    pub fn number(self) -> u8
        ensures { result ≡ post_error_number self }
    {
        match self {
            PostError::Stranger => 1,
            PostError::JournalFull => 2,
            PostError::Step(_) => 3,
            PostError::Memory => 4,
        }
    }
}
