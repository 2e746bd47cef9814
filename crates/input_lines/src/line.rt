//! A line of an input, as it is kept.

ghost use Rattle.std.specs.Prelude.{◌≡◌};
ghost use Rattle.input_lines.specs.Lines.{beyond, is_none_left};

use std::alloc::{AllocError, AllocFailed};
use thiserror::Error;

/// How many bytes a line has at most, before its line feed.
pub const LONGEST: usize = 4096;

/// A line of an input.
#[derive(Debug, Drop)]
pub struct InputLine {
    /// What comes before its line feed; of one that is too long `LONGEST` bytes and one more.
    pub kept: Vec<u8>,
    /// Whether a line feed ends it; else it ends with the input.
    pub is_fed: bool,
}

impl InputLine {
    /// Whether it has more than `LONGEST` bytes before its line feed.
    pub fn is_too_long(&self) -> bool
        ensures { result ≡ beyond self.now.kept.items }
    {
        self.kept.len() > LONGEST
    }

    /// Whether there is no line any more.
    pub fn is_none(&self) -> bool
        ensures { result ≡ is_none_left self.now.kept.items self.now.is_fed }
    {
        self.kept.is_empty() && !self.is_fed
    }
}

/// Why no line was read.
#[derive(Clone, Copy, Debug, PartialEq, Eq, Error)]
pub enum InputLineFault {
    /// A read failed, or would have been the 2^64th.
    #[error("reading failed")]
    Read,
    /// Memory was refused.
    #[error("out of memory")]
    Memory,
}

impl From<AllocError> for InputLineFault {
    ghost use Rattle.input_lines.specs.declared.line.InputLineFault.TheVariants.{Memory};
    ghost use Rattle.std.specs.Prelude.{◌≡◌};

    ghost from_gives = { λ _ e. e ≡ Memory };

    fn from(_e: AllocError) -> InputLineFault {
        InputLineFault::Memory
    }
}

impl<T: Drop> From<AllocFailed<T>> for InputLineFault {
    ghost use Rattle.input_lines.specs.declared.line.InputLineFault.TheVariants.{Memory};
    ghost use Rattle.std.specs.Prelude.{◌≡◌};

    ghost from_gives = { λ _ e. e ≡ Memory };

    fn from(_e: AllocFailed<T>) -> InputLineFault {
        InputLineFault::Memory
    }
}
