//! The records of a branch.

ghost use Rattle.std.specs.Prelude.{◌≡◌, ◌++◌, IfOk, OnOk};
ghost use Rattle.protocol.specs.declared.records.BranchName.{BranchName};
ghost use Rattle.log_text.specs.Branches.{IsSizedRest, branch_record, entry_under, rest_text};
ghost use Rattle.log_text.specs.Forms.{unowned};
ghost use Rattle.log_text.specs.Parts.{name_in};
ghost use Rattle.log_text.specs.Payloads.{FitsFrame, IsSized, kind_byte, payload_text, record_text};

use crate::encode::{FRAME, push_head, push_writes, push_xid, write_length};
use crate::form::LogFormat;
use protocol::{Outcome, Write};
use std::alloc::{AllocError, Global};
use xa_xid::Xid;

/// A record of a branch, but for the branch's name.
#[derive(Clone, Copy)]
pub enum BranchEntry<'a> {
    /// The branch promised; these are its writes.
    Prepared(&'a [Write]),
    /// A prepared branch committed.
    Committed,
    /// A prepared branch rolled back.
    RolledBack,
    /// The branch committed in one phase; these are its writes.
    Direct(&'a [Write]),
    /// An operator decided that the branch commits.
    HeurCommit,
    /// An operator decided that the branch rolls back.
    HeurRollback,
    /// A branch that an operator decided was told this outcome.
    Told(Outcome),
    /// An operator's decision is forgotten.
    Forgot,
}

impl BranchEntry<'_> {
    /// The byte of the record's kind.
    fn kind(&self) -> u8
        ensures { (b : BranchName) → result ≡ kind_byte (entry_under self.now b) }
    {
        match self {
            BranchEntry::Prepared(_) => 0x11,
            BranchEntry::Committed => 0x12,
            BranchEntry::RolledBack => 0x13,
            BranchEntry::Direct(_) => 0x14,
            BranchEntry::HeurCommit => 0x15,
            BranchEntry::HeurRollback => 0x16,
            BranchEntry::Told(_) => 0x17,
            BranchEntry::Forgot => 0x18,
        }
    }
}

/// Adds what is after the name.
fn push_rest(text: &mut Vec<u8>, entry: &BranchEntry<'_>) -> Result<(), AllocError>
    requires { IsSizedRest entry.now }
    ensures { OnOk result (text.new.items ≡ text.old.items ++ rest_text entry.now) }
{
    match entry {
        BranchEntry::Prepared(writes) | BranchEntry::Direct(writes) => push_writes(text, writes),
        BranchEntry::Told(outcome) => {
            text.push(matches!(outcome, Outcome::Committed) as u8)?;
            Ok(())
        }
        _ => Ok(()),
    }
}

/// Adds the payload of the record of this XID's branch.
fn push_branch(text: &mut Vec<u8>, xid: &Xid, entry: &BranchEntry<'_>) -> Result<(), AllocError>
    requires { IsSized (entry_under entry.now (name_in xid.now).1) }
    ensures { OnOk result (text.new.items ≡ text.old.items
        ++ payload_text unowned (name_in xid.now).0 (entry_under entry.now (name_in xid.now).1)) }
{
    push_xid(text, xid)?;
    push_rest(text, entry)?;
    Ok(())
}

/// The record of this XID's branch as it is in the log of any process.
#[tactic(auto, unfolding(crate::specs::Payloads::record_text, crate::specs::Frames::frame_text))]
pub(crate) fn branch_bytes(
    alloc: Global,
    entry: &BranchEntry<'_>,
    xid: &Xid,
) -> Result<Vec<u8>, AllocError>
    requires { FitsFrame (branch_record entry.now xid.now) }
    ensures { IfOk result (λ text. text.items ≡ record_text unowned (branch_record entry.now xid.now)) }
{
    let mut text = Vec::with_capacity(alloc, FRAME)?;
    push_head(&mut text, LogFormat::Second, entry.kind())?;
    push_branch(&mut text, xid, entry)?;
    write_length(&mut text, LogFormat::Second);
    Ok(text)
}
