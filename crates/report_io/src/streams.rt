//! Reads all there is, and writes a text and nothing else.

ghost use Rattle.std.specs.Prelude.{◌≡◌, ◌⊎◌, OnOk, IfOk, IfErr, IfSome};
ghost use Rattle.std.specs.Io.KnownBytes.{Appends, Keeps};
ghost use Rattle.report_io.specs.Streams.{WritesFront};

use std::alloc::{AllocError, AllocFailed, Global};
use std::io::{ErrorKind, Read, Write};
use thiserror::Error;

/// Why a run could not go on.
#[derive(Clone, Copy, Debug, PartialEq, Eq, Error)]
pub enum Failure {
    /// A read failed, or was the 2^30th. Nothing was written.
    #[error("reading failed")]
    Read,
    /// Memory was refused. Nothing was written.
    #[error("out of memory")]
    Memory,
    /// The device of a log failed, which no log in memory has. Nothing was written.
    #[error("the device of a log failed")]
    Device,
    /// Numbers are used up: the run wants one of 2^63, or a record that no log holds, or a count of 2^64.
    /// Nothing was written.
    #[error("numbers are used up")]
    Exhausted,
    /// A write failed, took no byte, or was the 2^30th. What was written is a beginning of the text.
    #[error("writing failed")]
    Write,
}

impl From<AllocError> for Failure {
    ghost use Rattle.report_io.specs.declared.streams.Failure.TheVariants.{Memory};
    ghost use Rattle.std.specs.Prelude.{◌≡◌};

    ghost from_gives = { λ _ e. e ≡ Memory };

    fn from(_e: AllocError) -> Failure {
        Failure::Memory
    }
}

impl<T: Drop> From<AllocFailed<T>> for Failure {
    ghost use Rattle.report_io.specs.declared.streams.Failure.TheVariants.{Memory};
    ghost use Rattle.std.specs.Prelude.{◌≡◌};

    ghost from_gives = { λ _ e. e ≡ Memory };

    fn from(_e: AllocFailed<T>) -> Failure {
        Failure::Memory
    }
}

/// The call of one kind that is taken for a failure.
const CALL_LIMIT: u32 = 1 << 30;

/// Reads all there is. A read that is interrupted is made again, and counts as a call.
pub fn read_all<R: Read>(alloc: Global, reader: &mut R) -> Result<Vec<u8>, Failure>
    ensures all { IfOk result (λ v. IfSome (R.remaining reader.old) (λ input. v.items ≡ input)) }
    ensures err { IfErr result (λ e. (e ≡ Failure.Read) ⊎ (e ≡ Failure.Memory)) }
{
    let mut bytes = Vec::new(alloc);
    let mut buffer = [0u8; 4096];
    for _ in 1..CALL_LIMIT {
        match reader.read(&mut buffer) {
            Ok(0) => return Ok(bytes),
            Ok(count) => bytes.extend_from_slice(&buffer[..count])?,
            Err(e) if e.kind() == ErrorKind::Interrupted => {}
            Err(_) => return Err(Failure::Read),
        }
    }
    Err(Failure::Read)
}

/// Writes these bytes. A write that is interrupted is made again, and counts as a call. After a failure a
/// front of the bytes was written.
pub fn write_all<W: Write>(writer: &mut W, text: &[u8]) -> Result<(), Failure>
    ensures ok { OnOk result (Appends (W.contents writer.old) (W.contents writer.new) text.now) }
    ensures err { IfErr result (λ e. (e ≡ Failure.Write)
        × WritesFront (W.contents writer.old) (W.contents writer.new) text.now) }
{
    let mut at = 0;
    for _ in 1..CALL_LIMIT {
        if at == text.len() {
            return flush(writer);
        }
        match writer.write(&text[at..]) {
            Ok(0) => return Err(Failure::Write),
            Ok(count) => at += count,
            Err(e) if e.kind() == ErrorKind::Interrupted => {}
            Err(_) => return Err(Failure::Write),
        }
    }
    Err(Failure::Write)
}

/// Sees that what was written is let out.
fn flush<W: Write>(writer: &mut W) -> Result<(), Failure>
    ensures keeps { Keeps (W.contents writer.old) (W.contents writer.new) }
    ensures err { IfErr result (λ e. e ≡ Failure.Write) }
{
    writer.flush().map_err(|_| Failure::Write)
}
