//! Records written as bytes.

ghost use Rattle.std.specs.Prelude.{◌≡◌, ◌<◌, ◌≤◌, ◌+◌, ◌-◌, ◌++◌, ◌∷◌, [], None, OnOk, IfOk, drop, length, replicate, take};
ghost use Rattle.std.specs.List.{All};
ghost use Rattle.byteorder.specs.Endian.{big_bytes};
ghost use Rattle.xa_xid.specs.Bytes.{xid_bytes};
ghost use Rattle.protocol.specs.LogNames.{name_xid};
ghost use Rattle.protocol_words.specs.Variants.{CaseBranch};
ghost use Rattle.log_text.specs.Forms.{size_bytes, size_limit, unowned};
ghost use Rattle.log_text.specs.Payloads.{
  FitsFrame,
  FitsFrameIn,
  IsSized,
  SizedValue,
  SizedWrite,
  boot_in,
  key_text,
  kind_byte,
  left_text,
  name_text,
  opened_text,
  payload_text,
  record_size,
  record_text,
  reports_text,
  ticket_text,
  tickets_text,
  value_text,
  write_text,
  writes_text,
};

use crate::branch::{BranchEntry, branch_bytes};
use crate::form::{LogForm, LogFormat};
use crate::ghosts::GhostRecord;
use crate::xids::{branch_xid, format_of, ticket_name, txn_name};
use protocol::{
    BranchName, Bytes, Case, LogRecord, Outcome, ProcessId, Record, Reports, Ticket, Tickets, Write,
};
use std::alloc::{AllocError, Global};
use xa_xid::Xid;

/// How many bytes a frame is thought to have. A longer one grows.
pub(crate) const FRAME: usize = 128;

/// The XID that a log writes for a name: a branch, and the parent of a case below the root. It takes no
/// memory.
pub fn name_xid(parent: Option<ProcessId>, branch: BranchName) -> Xid
    ensures { result ≡ name_xid parent branch }
{
    match branch {
        BranchName::Case(case) => match (case.ticket, parent) {
            (Some(ticket), Some(parent)) => branch_xid(case.txn, Some((parent, ticket))),
            _ => branch_xid(case.txn, None),
        },
        BranchName::Foreign(xid) => xid,
    }
}

/// The bytes of an XID of these parts.
#[tactic(auto, using(crate::proofs::Texts::joined4))]
fn push_parts(text: &mut Vec<u8>, format: i32, gtrid: &[u8], bqual: &[u8]) -> Result<(), AllocError>
    requires gtrid { length gtrid.now < 256 }
    requires bqual { length bqual.now < 256 }
    ensures { OnOk result (text.new.items ≡ text.old.items
        ++ xid_bytes (record { format = format; gtrid = gtrid.now; bqual = bqual.now })) }
{
    text.extend_from_slice(&format.to_be_bytes())?;
    text.extend_from_slice(&[gtrid.len() as u8, bqual.len() as u8])?;
    text.extend_from_slice(gtrid)?;
    text.extend_from_slice(bqual)
}

/// The bytes of an XID.
pub(crate) fn push_xid(text: &mut Vec<u8>, xid: &Xid) -> Result<(), AllocError>
    ensures { OnOk result (text.new.items ≡ text.old.items ++ xid_bytes xid.now) }
{
    let (format, gtrid, bqual) = xid.parts();
    push_parts(text, format, gtrid, bqual)
}

/// The bytes of a case's XID.
fn push_case(text: &mut Vec<u8>, parent: Option<ProcessId>, case: &Case) -> Result<(), AllocError>
    ensures { OnOk result (text.new.items ≡ text.old.items ++ name_text parent (CaseBranch case.now)) }
{
    let format = format_of(case.txn.presumption);
    let gtrid = txn_name(case.txn);
    match (case.ticket, parent) {
        (Some(ticket), Some(parent)) => {
            push_parts(text, format, &gtrid, &ticket_name(parent, ticket))
        }
        _ => push_parts(text, format, &gtrid, &[]),
    }
}

fn push_name(
    text: &mut Vec<u8>,
    parent: Option<ProcessId>,
    branch: &BranchName,
) -> Result<(), AllocError>
    ensures { OnOk result (text.new.items ≡ text.old.items ++ name_text parent branch.now) }
{
    match branch {
        BranchName::Case(case) => push_case(text, parent, case),
        BranchName::Foreign(xid) => push_xid(text, xid),
    }
}

#[tactic(auto, unfolding(crate::specs::Payloads::ticket_text), using(crate::proofs::Texts::joined3))]
fn push_ticket(text: &mut Vec<u8>, ticket: &Ticket) -> Result<(), AllocError>
    ensures { OnOk result (text.new.items ≡ text.old.items ++ ticket_text ticket.now) }
{
    text.extend_from_slice(&ticket.child.0.to_be_bytes())?;
    text.extend_from_slice(&ticket.boot.to_be_bytes())?;
    text.extend_from_slice(&ticket.number.to_be_bytes())
}

fn push_tickets(text: &mut Vec<u8>, tickets: &Tickets) -> Result<(), AllocError>
    requires { length tickets.now < 256 }
    ensures { OnOk result (text.new.items ≡ text.old.items ++ tickets_text tickets.now) }
{
    text.push(tickets.len() as u8)?;
    for ticket in tickets.as_slice() {
        push_ticket(text, ticket)?;
    }
    Ok(())
}

fn push_reports(text: &mut Vec<u8>, reports: &Reports) -> Result<(), AllocError>
    requires mixed { length reports.now.mixed < 256 }
    requires unreported { length reports.now.unreported < 256 }
    ensures { OnOk result (text.new.items ≡ text.old.items ++ reports_text reports.now) }
{
    push_tickets(text, &reports.mixed)?;
    push_tickets(text, &reports.unreported)
}

fn push_key(text: &mut Vec<u8>, key: &Bytes) -> Result<(), AllocError>
    requires { length key.now < 256 }
    ensures { OnOk result (text.new.items ≡ text.old.items ++ key_text key.now) }
{
    text.push(key.len() as u8)?;
    text.extend_from_slice(key.as_slice())
}

#[tactic(auto, unfolding(crate::specs::Payloads::value_text))]
fn push_value(text: &mut Vec<u8>, value: &Bytes) -> Result<(), AllocError>
    requires { length value.now < 65536 }
    ensures { OnOk result (text.new.items ≡ text.old.items ++ value_text value.now) }
{
    text.extend_from_slice(&(value.len() as u16).to_be_bytes())?;
    text.extend_from_slice(value.as_slice())
}

#[tactic(auto, unfolding(crate::specs::Payloads::write_text))]
fn push_write(text: &mut Vec<u8>, write: &Write) -> Result<(), AllocError>
    requires { SizedWrite write.now }
    ensures { OnOk result (text.new.items ≡ text.old.items ++ write_text write.now) }
{
    push_key(text, &write.key)?;
    match &write.value {
        None => {
            text.push(0)?;
            Ok(())
        }
        Some(value) => {
            text.push(1)?;
            push_value(text, value)
        }
    }
}

pub(crate) fn push_writes(text: &mut Vec<u8>, writes: &[Write]) -> Result<(), AllocError>
    requires count { length writes.now < 256 }
    requires each { All SizedWrite writes.now }
    ensures { OnOk result (text.new.items ≡ text.old.items ++ writes_text writes.now) }
{
    text.push(writes.len() as u8)?;
    for write in writes {
        push_write(text, write)?;
    }
    Ok(())
}

/// What Opened carries.
#[tactic(auto, using(crate::proofs::Texts::joined2))]
fn push_opened(text: &mut Vec<u8>, form: LogForm, boot: u64) -> Result<(), AllocError>
    ensures { OnOk result (text.new.items ≡ text.old.items ++ opened_text form boot) }
{
    text.extend_from_slice(&boot.to_be_bytes())?;
    match form.format {
        LogFormat::First => Ok(()),
        LogFormat::Second => text.extend_from_slice(&form.owner()),
    }
}

fn push_payload(
    text: &mut Vec<u8>,
    form: LogForm,
    parent: Option<ProcessId>,
    entry: &Record,
) -> Result<(), AllocError>
    requires { IsSized entry.now }
    ensures { OnOk result (text.new.items ≡ text.old.items ++ payload_text form parent entry.now) }
{
    match entry {
        Record::Opened(boot) => push_opened(text, form, *boot),
        Record::Base(count) => text.extend_from_slice(&count.to_be_bytes()),
        Record::Collecting(case, tickets)
        | Record::Prepare(case, tickets)
        | Record::Commit(case, tickets)
        | Record::Abort(case, tickets) => {
            push_case(text, parent, case)?;
            push_tickets(text, tickets)
        }
        Record::End(case, None) | Record::Cleared(case) => push_case(text, parent, case),
        Record::End(case, Some(reports)) => {
            push_case(text, parent, case)?;
            push_reports(text, reports)
        }
        Record::Prepared(branch, writes) | Record::Direct(branch, writes) => {
            push_name(text, parent, branch)?;
            push_writes(text, writes.as_slice())
        }
        Record::Committed(branch)
        | Record::RolledBack(branch)
        | Record::HeurCommit(branch)
        | Record::HeurRollback(branch)
        | Record::Forgot(branch) => push_name(text, parent, branch),
        Record::Told(branch, outcome) => {
            push_name(text, parent, branch)?;
            text.push(matches!(outcome, Outcome::Committed) as u8)?;
            Ok(())
        }
        Record::Pair(key, value) => {
            push_key(text, key)?;
            push_value(text, value)
        }
    }
}

/// The byte of a record's kind.
fn kind_byte(entry: &Record) -> u8
    ensures { result ≡ kind_byte entry.now }
{
    match entry {
        Record::Opened(_) => 0x01,
        Record::Collecting(..) => 0x02,
        Record::Prepare(..) => 0x03,
        Record::Commit(..) => 0x04,
        Record::Abort(..) => 0x05,
        Record::End(_, None) => 0x06,
        Record::End(_, Some(_)) => 0x07,
        Record::Cleared(_) => 0x08,
        Record::Prepared(..) => 0x11,
        Record::Committed(_) => 0x12,
        Record::RolledBack(_) => 0x13,
        Record::Direct(..) => 0x14,
        Record::HeurCommit(_) => 0x15,
        Record::HeurRollback(_) => 0x16,
        Record::Told(..) => 0x17,
        Record::Forgot(_) => 0x18,
        Record::Base(_) => 0x19,
        Record::Pair(..) => 0x1a,
    }
}

/// A frame's kind, with room for the length of its payload.
pub(crate) fn push_head(text: &mut Vec<u8>, format: LogFormat, kind: u8) -> Result<(), AllocError>
    ensures { OnOk result (text.new.items ≡ text.old.items ++ kind ∷ replicate (size_bytes format) 0) }
{
    match format {
        LogFormat::First => text.extend_from_slice(&[kind, 0, 0]),
        LogFormat::Second => text.extend_from_slice(&[kind, 0, 0, 0, 0]),
    }
}

/// Writes the length of a frame's payload where there is room for it.
pub(crate) fn write_length(text: &mut Vec<u8>, format: LogFormat)
    requires room { 1 + size_bytes format ≤ length text.old.items }
    requires short { length text.old.items < 1 + size_bytes format + size_limit format }
    ensures { text.new.items ≡ take 1 text.old.items
        ++ (big_bytes (size_bytes format) (length text.old.items - (1 + size_bytes format))
        ++ drop (1 + size_bytes format) text.old.items) }
{
    let length = text.len() - format.frame_head();
    match format {
        LogFormat::First => {
            let length = (length as u16).to_be_bytes();
            text[1] = length[0];
            text[2] = length[1];
        }
        LogFormat::Second => {
            let length = (length as u32).to_be_bytes();
            text[1] = length[0];
            text[2] = length[1];
            text[3] = length[2];
            text[4] = length[3];
        }
    }
}

/// The record as it is in a log of this form.
#[tactic(auto, unfolding(crate::specs::Payloads::record_text, crate::specs::Frames::frame_text))]
fn record_bytes(
    alloc: Global,
    form: LogForm,
    entry: &Record,
    parent: Option<ProcessId>,
) -> Result<Vec<u8>, AllocError>
    requires { FitsFrameIn form (record { entry = entry.now; parent = parent }) }
    ensures { IfOk result (λ text. text.items
        ≡ record_text form (record { entry = entry.now; parent = parent })) }
{
    let mut text = Vec::with_capacity(alloc, FRAME)?;
    push_head(&mut text, form.format, kind_byte(entry))?;
    push_payload(&mut text, form, parent, entry)?;
    write_length(&mut text, form.format);
    Ok(text)
}

/// The frame that a record is in the log of a process. It is made before anything is written, as it takes
/// memory. The record itself is not kept: only clauses read it.
#[derive(Drop)]
pub struct Frame {
    made_of: GhostRecord,
    bytes: Vec<u8>,
    /// The boot of an Opened, which also says whose log it is: that the log knows to which it is written.
    boot: Option<u64>,
    ghost spells: { bytes.items ≡ record_text unowned made_of.value },
    ghost boots: { boot ≡ boot_in made_of.value.entry },
}

/// The record as it is in the log of a process, whosever it is.
fn frame_bytes(
    alloc: Global,
    entry: &Record,
    parent: Option<ProcessId>,
) -> Result<Vec<u8>, AllocError>
    requires { FitsFrame (record { entry = entry.now; parent = parent }) }
    ensures { IfOk result (λ text. text.items
        ≡ record_text unowned (record { entry = entry.now; parent = parent })) }
{
    record_bytes(alloc, LogForm::unowned(), entry, parent)
}

/// The boot of an Opened.
fn boot_of(entry: &Record) -> Option<u64>
    ensures { result ≡ boot_in entry.now }
{
    match entry {
        Record::Opened(boot) => Some(*boot),
        _ => None,
    }
}

impl Frame {
    ghost use Rattle.log_text.specs.Branches.{branch_record};
    ghost use Rattle.log_text.specs.Made.{frame_record};

    /// The frame of a record under the parent of its name.
    pub fn of(alloc: Global, entry: &Record, parent: Option<ProcessId>) -> Result<Frame, AllocError>
        requires { FitsFrame (record { entry = entry.now; parent = parent }) }
        ensures { IfOk result (λ frame. frame_record frame
            ≡ record { entry = entry.now; parent = parent }) }
    {
        let bytes = frame_bytes(alloc, entry, parent)?;
        Ok(Frame {
            made_of: GhostRecord::of(entry, &parent),
            bytes,
            boot: boot_of(entry),
        })
    }

    /// The frame of a record of the branch of this XID, made of the XID's bytes: no name is spelled.
    pub fn of_branch(alloc: Global, entry: &BranchEntry<'_>, xid: &Xid) -> Result<Frame, AllocError>
        requires { FitsFrame (branch_record entry.now xid.now) }
        ensures { IfOk result (λ frame. frame_record frame ≡ branch_record entry.now xid.now) }
    {
        let bytes = branch_bytes(alloc, entry, xid)?;
        Ok(Frame {
            made_of: GhostRecord::of_branch(xid, entry),
            bytes,
            boot: None,
        })
    }

    /// The frame of a record.
    pub fn new(alloc: Global, entry: LogRecord) -> Result<Frame, AllocError>
        requires { FitsFrame entry }
        ensures { IfOk result (λ frame. frame_record frame ≡ entry) }
    {
        Frame::of(alloc, &entry.entry, entry.parent)
    }

    /// How many bytes it has in the log of a process.
    pub fn size(&self) -> usize
        ensures { result ≡ record_size (frame_record self.now) }
    {
        self.bytes.len()
    }

    /// The boot, where it is the frame of an Opened: then the log's form has its bytes (`LogForm::opened`).
    pub fn boot(&self) -> Option<u64>
        ensures { result ≡ boot_in (frame_record self.now).entry }
    {
        self.boot
    }

    /// The bytes that are in the log of any process, where it is no frame of an Opened.
    #[tactic(auto, using(crate::proofs::Owned::other_is))]
    pub fn bytes(&self) -> &[u8]
        requires { boot_in (frame_record self.now).entry ≡ None }
        ensures { (f : LogForm) → f.format ≡ LogFormat.Second
            → result.now ≡ record_text f (frame_record self.now) }
    {
        &self.bytes
    }

    /// Adds the bytes that are in a log of this form, which is that of a process.
    #[tactic(auto, using(crate::proofs::Owned::opened_whole))]
    pub fn push(&self, form: LogForm, text: &mut Vec<u8>) -> Result<(), AllocError>
        requires { form.format ≡ LogFormat.Second }
        ensures { OnOk result (text.new.items ≡ text.old.items ++ record_text form (frame_record self.now)) }
    {
        match self.boot() {
            Some(boot) => text.extend_from_slice(&form.opened(boot)),
            None => text.extend_from_slice(self.bytes()),
        }
    }
}
