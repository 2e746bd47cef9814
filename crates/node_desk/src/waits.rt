//! An input that can be waited for.

ghost use Rattle.std.specs.Prelude.{◌≡◌};

use std::io::{self, BufRead, BufReader, Read};
use std::time::Duration;

/// A reader that tells whether there is something to read.
pub trait Waits: BufRead {
    /// Whether bytes are at hand, or the input is at its end, within this time.
    fn has_input(&mut self, at_most: Duration) -> io::Result<bool>
        ensures { Self.remaining self.new ≡ Self.remaining self.old };

    /// Whether a whole line is at hand: reading it does not wait.
    fn is_at_hand(&self) -> bool;
}

/// A reader that is never waited for: to read of it takes as long as it takes.
impl<R: Read> Waits for BufReader<R> {
    fn has_input(&mut self, _at_most: Duration) -> io::Result<bool> {
        Ok(true)
    }

    fn is_at_hand(&self) -> bool {
        self.buffer().contains(&b'\n')
    }
}
