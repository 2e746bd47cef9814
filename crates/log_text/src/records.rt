//! The record of a frame.

ghost use Rattle.std.specs.Prelude.{◌≡◌, option_map, IfOk, IfErr, None, Some, OnErr};
ghost use Rattle.log_text.specs.Parts.{key_at};
ghost use Rattle.log_text.specs.Reading.{below, branch_record, case_record, pair_by, coordinator_record, manager_record, opened_boot, owned_boot, read_record};

use crate::form::{LogForm, LogFormat};
use crate::names::name_at;
use crate::parts::{bytes_of, key_at, reports_of, tickets_of, value_at, writes_of};
use byteorder::{BigEndian, ByteOrder};
use protocol::{BranchName, Case, Kind, LogRecord, NUMBERS, Outcome, ProcessId, Record};
use std::alloc::{AllocError, AllocFailed, Global};
use thiserror::Error;

/// Why no record is read.
#[derive(Clone, Copy, Debug, PartialEq, Eq, Error)]
pub enum ReadFault {
    /// There was no memory for the record.
    #[error("no memory")]
    Memory,
    /// The bytes are no record.
    #[error("no record")]
    Malformed,
}

impl From<AllocError> for ReadFault {
    ghost use Rattle.std.specs.Prelude.{◌≡◌};
    ghost use Rattle.log_text.specs.declared.records.ReadFault.TheVariants.{Memory};

    ghost from_gives = { λ _ e. e ≡ Memory };

    fn from(_error: AllocError) -> ReadFault {
        ReadFault::Memory
    }
}

impl<T: Drop> From<AllocFailed<T>> for ReadFault {
    ghost use Rattle.std.specs.Prelude.{◌≡◌};
    ghost use Rattle.log_text.specs.declared.records.ReadFault.TheVariants.{Memory};

    ghost from_gives = { λ _ e. e ≡ Memory };

    fn from(_error: AllocFailed<T>) -> ReadFault {
        ReadFault::Memory
    }
}

/// A number of 8 bytes, below 2^63.
fn below(bytes: &[u8]) -> Option<u64>
    ensures { result ≡ below bytes.now }
{
    if bytes.len() != 8 {
        return None;
    }
    let number = BigEndian::read_u64(bytes);
    if number < NUMBERS { Some(number) } else { None }
}

/// A record of a case, by its kind and what is left after its name.
fn case_record(
    alloc: Global,
    kind: u8,
    parent: Option<ProcessId>,
    case: Case,
    rest: &[u8],
) -> Result<LogRecord, ReadFault>
    ensures ok { IfOk result (λ r. case_record kind parent case rest.now ≡ Some r) }
    ensures err { IfErr result (λ e. e ≡ ReadFault.Malformed → case_record kind parent case rest.now ≡ None) }
{
    let entry = match kind {
        0x02 => Record::Collecting(case, tickets_of(alloc, rest)?),
        0x03 => Record::Prepare(case, tickets_of(alloc, rest)?),
        0x04 => Record::Commit(case, tickets_of(alloc, rest)?),
        0x05 => Record::Abort(case, tickets_of(alloc, rest)?),
        0x06 if rest.is_empty() => Record::End(case, None),
        0x07 => Record::End(case, Some(reports_of(alloc, rest)?)),
        0x08 if rest.is_empty() => Record::Cleared(case),
        _ => return Err(ReadFault::Malformed),
    };
    Ok(LogRecord { entry, parent })
}

/// A coordinator's record after its kind.
#[tactic(auto, unfolding(crate::specs::Reading::coordinator_record))]
fn coordinator_record(alloc: Global, kind: u8, payload: &[u8]) -> Result<LogRecord, ReadFault>
    ensures ok { IfOk result (λ r. coordinator_record kind payload.now ≡ Some r) }
    ensures err { IfErr result (λ e. e ≡ ReadFault.Malformed → coordinator_record kind payload.now ≡ None) }
{
    match name_at(payload) {
        Some(((parent, BranchName::Case(case)), rest)) => case_record(
            alloc, kind, parent, case, rest,
        ),
        _ => Err(ReadFault::Malformed),
    }
}

/// A record of a branch, by its kind and what is left after its name.
fn branch_record(
    alloc: Global,
    kind: u8,
    branch: BranchName,
    rest: &[u8],
) -> Result<Record, ReadFault>
    ensures ok { IfOk result (λ r. branch_record kind branch rest.now ≡ Some r) }
    ensures err { IfErr result (λ e. e ≡ ReadFault.Malformed → branch_record kind branch rest.now ≡ None) }
{
    Ok(match (kind, rest) {
        (0x11, _) => Record::Prepared(branch, writes_of(alloc, rest)?),
        (0x14, _) => Record::Direct(branch, writes_of(alloc, rest)?),
        (0x12, []) => Record::Committed(branch),
        (0x13, []) => Record::RolledBack(branch),
        (0x15, []) => Record::HeurCommit(branch),
        (0x16, []) => Record::HeurRollback(branch),
        (0x17, [1]) => Record::Told(branch, Outcome::Committed),
        (0x17, [0]) => Record::Told(branch, Outcome::Aborted),
        (0x18, []) => Record::Forgot(branch),
        _ => return Err(ReadFault::Malformed),
    })
}

/// A manager's Pair: a key and a value, with nothing after them.
fn pair_record(alloc: Global, payload: &[u8]) -> Result<LogRecord, ReadFault>
    ensures ok { IfOk result (λ r. pair_by (key_at payload.now) ≡ Some r) }
    ensures err { IfErr result (λ e. e ≡ ReadFault.Malformed → pair_by (key_at payload.now) ≡ None) }
{
    let Some((key, rest)) = key_at(payload) else {
        return Err(ReadFault::Malformed);
    };
    match value_at(rest) {
        Some((value, [])) => Ok(LogRecord {
            entry: Record::Pair(bytes_of(alloc, key)?, bytes_of(alloc, value)?),
            parent: None,
        }),
        _ => Err(ReadFault::Malformed),
    }
}

/// A manager's record after its kind.
#[tactic(auto, unfolding(crate::specs::Reading::manager_record))]
fn manager_record(alloc: Global, kind: u8, payload: &[u8]) -> Result<LogRecord, ReadFault>
    ensures ok { IfOk result (λ r. manager_record kind payload.now ≡ Some r) }
    ensures err { IfErr result (λ e. e ≡ ReadFault.Malformed → manager_record kind payload.now ≡ None) }
{
    if kind == 0x19 {
        let Some(count) = below(payload) else {
            return Err(ReadFault::Malformed);
        };
        return Ok(LogRecord {
            entry: Record::Base(count),
            parent: None,
        });
    }
    if kind == 0x1a {
        return pair_record(alloc, payload);
    }
    let Some(((parent, branch), rest)) = name_at(payload) else {
        return Err(ReadFault::Malformed);
    };
    let entry = branch_record(alloc, kind, branch, rest)?;
    Ok(LogRecord { entry, parent })
}

/// The boot that an Opened says, by the second format also of whose log it is.
fn owned_boot(form: LogForm, payload: &[u8]) -> Option<u64>
    ensures { result ≡ owned_boot form payload.now }
{
    if payload.len() < 8 {
        return None;
    }
    let (boot, owner) = payload.split_at(8);
    if owner == form.owner().as_slice() {
        below(boot)
    } else {
        None
    }
}

/// The boot that an Opened of a log of this form carries.
fn opened_boot(form: LogForm, payload: &[u8]) -> Option<u64>
    ensures { result ≡ opened_boot form payload.now }
{
    match form.format {
        LogFormat::First => below(payload),
        LogFormat::Second => owned_boot(form, payload),
    }
}

/// The record of a frame of this kind and payload, in a log of this form. Malformed comes exactly where the
/// kind is unknown or of the other sort of process, or the payload is not exactly that of a record; by the
/// second format also where Opened says that the log is another's.
#[tactic(auto, unfolding(crate::specs::Reading::read_record))]
pub fn read_record(
    alloc: Global,
    form: LogForm,
    kind: u8,
    payload: &[u8],
) -> Result<LogRecord, ReadFault>
    ensures ok { IfOk result (λ r. read_record form kind payload.now ≡ Some r) }
    ensures err { IfErr result (λ e. e ≡ ReadFault.Malformed → read_record form kind payload.now ≡ None) }
{
    if kind == 0x01 {
        let Some(boot) = opened_boot(form, payload) else {
            return Err(ReadFault::Malformed);
        };
        return Ok(LogRecord {
            entry: Record::Opened(boot),
            parent: None,
        });
    }
    match form.kind {
        Kind::Coordinator => coordinator_record(alloc, kind, payload),
        Kind::Manager => manager_record(alloc, kind, payload),
    }
}
