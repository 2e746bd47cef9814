//! How an audit ends.

ghost use Rattle.std.specs.Prelude.{◌≡◌};
ghost use Rattle.audit_engine.specs.Audits.{ending_number};

/// How an audit ended.
#[derive(Clone, Copy, PartialEq, Eq)]
pub enum AuditStatus {
    /// No line shows a mismatch.
    Agrees,
    /// A line shows a mismatch.
    Differs,
    /// A log is damaged, or the input was refused.
    Refused,
}

impl AuditStatus {
    /// The exit status.
    pub fn number(self) -> u8
        ensures { result ≡ ending_number self }
    {
        match self {
            AuditStatus::Agrees => 0,
            AuditStatus::Refused => 1,
            AuditStatus::Differs => 3,
        }
    }
}
