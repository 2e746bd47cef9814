//! How a run ends.

ghost use Rattle.std.specs.Prelude.{◌≡◌};
ghost use Rattle.report_io.specs.Streams.{status_number};

/// How a run ended.
#[derive(Clone, Copy, PartialEq, Eq)]
pub enum Status {
    /// All calls were made.
    Ended,
    /// The script was refused.
    Refused,
    /// An event was refused.
    Stopped,
}

impl Status {
    /// The exit status.
    pub fn number(self) -> u8
        ensures { result ≡ status_number self }
    {
        match self {
            Status::Ended => 0,
            Status::Refused => 1,
            Status::Stopped => 2,
        }
    }
}
