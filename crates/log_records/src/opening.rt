//! Opening a log over the bytes of a store.

ghost use Rattle.std.specs.Prelude.{◌≡◌, ◌≤◌, ◌-◌, None, Some, IfOk, IfErr, OnOk, length, take, drop};
ghost use Rattle.log_text.specs.Reading.{read_record};
ghost use Rattle.log_records.specs.Errors.{open_error_number};
ghost use Rattle.log_records.specs.Openings.{EndsTorn, IsFault, IsLogFound, IsNoLog, after_frame, is_old};
ghost use Rattle.protocol.specs.Records.{same_bytes};

use log_rules::order::Seen;
use log_text::{HEADER_SIZE, LogForm, LogFormat, ReadFault, first_frame, read_record};
use std::alloc::{AllocError, Global};
use thiserror::Error;

/// Why a log was not opened.
#[derive(Clone, Copy, Debug, PartialEq, Eq, Error)]
pub enum LogOpenError {
    /// There was no memory; the store is as it was.
    #[error("no memory")]
    Memory,
    /// The device failed, as a torn tail was removed or an empty log was given its header.
    #[error("the device failed")]
    Device,
    /// The bytes are no log: the first byte of the first frame that is wrong, 0 for the header.
    #[error("damaged at byte {0}")]
    Damaged(usize),
    /// The log is of the first format; the store is as it was, and `RecLog::migrate` carries it over.
    #[error("a log of the first format")]
    OldFormat,
}

impl LogOpenError {
    /// The number of the refusal, from 1 to 4.
    pub fn number(self) -> u8
        ensures { result ≡ open_error_number self }
    {
        match self {
            LogOpenError::Memory => 1,
            LogOpenError::Device => 2,
            LogOpenError::Damaged(_) => 3,
            LogOpenError::OldFormat => 4,
        }
    }
}

impl From<AllocError> for LogOpenError {
    ghost use Rattle.std.specs.Prelude.{◌≡◌};
    ghost use Rattle.log_records.specs.declared.opening.LogOpenError.TheVariants.{Memory};

    ghost from_gives = { λ _ e. e ≡ Memory };

    fn from(_error: AllocError) -> LogOpenError {
        LogOpenError::Memory
    }
}

/// Takes the record of a frame. Malformed comes exactly if there is none, or it may not follow the records so
/// far. After an error nothing more is known.
fn take_frame(
    alloc: Global,
    seen: &mut Seen,
    form: LogForm,
    frame_kind: u8,
    payload: &[u8],
) -> Result<(), ReadFault>
    ensures ok { OnOk result (after_frame seen.old
        (read_record form frame_kind payload.now) ≡ Some seen.new) }
    ensures err { IfErr result (λ e. e ≡ ReadFault.Malformed
        → after_frame seen.old (read_record form frame_kind payload.now) ≡ None) }
{
    let record = read_record(alloc, form, frame_kind, payload)?;
    seen.take(record)
}

/// How many bytes of a torn tail are after the sound frames in the bytes after a header.
fn torn_tail(alloc: Global, form: LogForm, bytes: &[u8]) -> Result<usize, LogOpenError>
    ensures ok { IfOk result (λ torn. EndsTorn form bytes.now torn) }
    ensures err { IfErr result (λ e. IsFault form bytes.now e) }
{
    let mut seen = Seen::new(alloc);
    let mut rest = bytes;
    while let Some((frame_kind, payload, behind)) = first_frame(form.format, rest) {
        let place = HEADER_SIZE + (bytes.len() - rest.len());
        match take_frame(alloc, &mut seen, form, frame_kind, payload) {
            Ok(()) => {}
            Err(ReadFault::Malformed) => return Err(LogOpenError::Damaged(place)),
            Err(ReadFault::Memory) => return Err(LogOpenError::Memory),
        }
        rest = behind;
    }
    Ok(rest.len())
}

/// What a store's bytes are to a log that opens.
#[derive(Clone, Copy)]
pub enum StoreText {
    /// No header yet: an empty log.
    Empty,
    /// A header and sound frames, and a torn tail of N bytes.
    Sound(usize),
}

/// What these bytes are as a log of this form.
#[tactic(auto, unfolding(log_rules::specs::order::Logs::read_log))]
pub fn find(alloc: Global, form: LogForm, bytes: &[u8]) -> Result<StoreText, LogOpenError>
    ensures ok { IfOk result (λ found. IsLogFound form bytes.now found) }
    ensures err { IfErr result (λ e. IsNoLog form bytes.now e) }
{
    if bytes.len() < HEADER_SIZE {
        return if is_same(bytes, &form.format.header()[..bytes.len()]) {
            Ok(StoreText::Empty)
        } else {
            Err(LogOpenError::Damaged(0))
        };
    }
    let (header, frames) = bytes.split_at(HEADER_SIZE);
    if !is_same(header, &form.format.header()) {
        return Err(LogOpenError::Damaged(0));
    }
    let torn = torn_tail(alloc, form, frames)?;
    Ok(StoreText::Sound(torn))
}

#[tactic(auto, using(crate::proofs::Keys::same_bytes_is_equality))]
pub(crate) fn is_same(one: &[u8], other: &[u8]) -> bool
    ensures { result ≡ same_bytes one.now other.now }
{
    one == other
}

/// Whether the bytes begin as a log of the first format.
pub(crate) fn is_old(bytes: &[u8]) -> bool
    ensures { result ≡ is_old bytes.now }
{
    let front = &bytes[..bytes.len().min(HEADER_SIZE)];
    is_same(front, &LogFormat::First.header())
}
