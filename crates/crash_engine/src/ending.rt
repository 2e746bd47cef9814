//! How a run over all crashes ends.

ghost use Rattle.std.specs.Prelude.{◌≡◌};
ghost use Rattle.crash_engine.specs.Texts.{ending_number};

/// How a run over all crashes of a script ended.
#[derive(Clone, Copy, PartialEq, Eq)]
pub enum CrashStatus {
    /// Every event was made, and every crash ends with no case in doubt and no mismatch.
    Clean,
    /// The script was refused.
    Refused,
    /// An event was refused.
    Stopped,
    /// Every event was made, and a crash ends with a case in doubt or a mismatch, or its own run was refused
    /// an event.
    Finds,
}

impl CrashStatus {
    /// The exit status.
    pub fn number(self) -> u8
        ensures { result ≡ ending_number self }
    {
        match self {
            CrashStatus::Clean => 0,
            CrashStatus::Refused => 1,
            CrashStatus::Stopped => 2,
            CrashStatus::Finds => 3,
        }
    }
}
