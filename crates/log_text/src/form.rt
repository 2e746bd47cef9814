//! The form of a log: its format, and whose it is.

ghost use Rattle.std.specs.Prelude.{◌≡◌, ◌+◌};
ghost use Rattle.protocol.specs.LogNames.{unnamed};
ghost use Rattle.protocol.specs.declared.records.Record.TheVariants.{Opened};
ghost use Rattle.log_text.specs.Forms.{form_in, format_in, header, log_form, old_form, size_bytes, unowned};
ghost use Rattle.log_text.specs.Payloads.{owner_text, record_text};

use protocol::{Kind, ProcessId};

/// The format of a log, which its header names.
#[derive(Clone, Copy, PartialEq, Eq)]
pub enum LogFormat {
    /// The payload of a frame has at most 65,535 bytes, and Opened says the boot alone.
    First,
    /// The payload of a frame has at most 4,294,967,295 bytes, and Opened says whose log it is, too.
    Second,
}

/// What the bytes of a log hang on, beside its records: its format, whose log it is, and the sort of that
/// process.
#[derive(Clone, Copy, PartialEq, Eq)]
pub struct LogForm {
    pub format: LogFormat,
    pub process: ProcessId,
    pub kind: Kind,
}

/// How many bytes a header has.
pub const HEADER_SIZE: usize = 5;

impl LogForm {
    /// The form of the log that this process writes.
    pub fn of(process: ProcessId, kind: Kind) -> LogForm
        ensures { result ≡ log_form process kind }
    {
        LogForm {
            format: LogFormat::Second,
            process,
            kind,
        }
    }

    /// The log of the same process by the first format.
    pub fn old(self) -> LogForm
        ensures { result ≡ old_form self }
    {
        LogForm {
            format: LogFormat::First,
            process: self.process,
            kind: self.kind,
        }
    }

    /// The form by which these bytes are read as the log of this process.
    pub fn of_bytes(bytes: &[u8], process: ProcessId, kind: Kind) -> LogForm
        ensures { result ≡ form_in bytes.now process kind }
    {
        LogForm {
            format: LogFormat::of_bytes(bytes),
            process,
            kind,
        }
    }

    /// A form of the second format, for what hangs on neither process nor sort.
    pub(crate) fn unowned() -> LogForm
        ensures { result ≡ unowned }
    {
        LogForm::of(ProcessId(0), Kind::Coordinator)
    }

    /// Opened with this boot, as it is in a log of this form, which is that of a process.
    pub fn opened(self, boot: u64) -> [u8; 18]
        requires { self.format ≡ LogFormat.Second }
        ensures { result ≡ record_text self (unnamed (Opened boot)) }
    {
        let [a, b, c, d, e, f, g, h] = boot.to_be_bytes();
        let [i, j, k, l, sort] = self.owner();
        [0x01, 0, 0, 0, 13, a, b, c, d, e, f, g, h, i, j, k, l, sort]
    }

    /// Whose log it is, as Opened says it by the second format: the process, and its sort.
    pub(crate) fn owner(self) -> [u8; 5]
        ensures { result ≡ owner_text self }
    {
        let [a, b, c, d] = self.process.0.to_be_bytes();
        let sort = match self.kind {
            Kind::Coordinator => 0,
            Kind::Manager => 1,
        };
        [a, b, c, d, sort]
    }
}

impl LogFormat {
    /// What a log of this format begins with: `RLOG` and the format's number.
    pub fn header(self) -> [u8; 5]
        ensures { result ≡ header self }
    {
        match self {
            LogFormat::First => *b"RLOG\x01",
            LogFormat::Second => *b"RLOG\x02",
        }
    }

    /// How many bytes a frame has before its payload: the kind, and the payload's length.
    pub fn frame_head(self) -> usize
        ensures { result ≡ 1 + size_bytes self }
    {
        match self {
            LogFormat::First => 3,
            LogFormat::Second => 5,
        }
    }

    /// The format by which bytes are read as a log: the first, where their fifth byte is 1.
    pub fn of_bytes(bytes: &[u8]) -> LogFormat
        ensures { result ≡ format_in bytes.now }
    {
        match bytes.get(4) {
            Some(1) => LogFormat::First,
            _ => LogFormat::Second,
        }
    }
}
