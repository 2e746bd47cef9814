//! The names in records.

ghost use Rattle.std.specs.Prelude.{◌≡◌, Some, None, option_map};
ghost use Rattle.protocol.specs.Branches.{branch_parts};
ghost use Rattle.xa_xid.specs.Xids.{IsXid};
ghost use Rattle.log_text.specs.Parts.{name_at, name_in};

use crate::xids::read_branch;
use protocol::{BranchName, Case, ProcessId, Ticket, Txn};
use xa_xid::Xid;

/// The name of a transaction at its root.
fn root_name(xid: &Xid, txn: Txn) -> (Option<ProcessId>, BranchName)
    requires { branch_parts txn None ≡ xid.now }
    ensures { result ≡ name_in xid.now }
{
    (None, BranchName::Case(Case { txn, ticket: None }))
}

/// The name of a transaction at the process of this ticket.
fn child_name(
    xid: &Xid,
    txn: Txn,
    parent: ProcessId,
    ticket: Ticket,
) -> (Option<ProcessId>, BranchName)
    requires { branch_parts txn (Some (parent, ticket)) ≡ xid.now }
    ensures { result ≡ name_in xid.now }
{
    let ticket = Some(ticket);
    (Some(parent), BranchName::Case(Case { txn, ticket }))
}

/// The name that an XID is: the case that has this XID, with its parent below the root, or else the XID
/// itself.
pub fn name_in(xid: &Xid) -> (Option<ProcessId>, BranchName)
    requires { IsXid xid.now }
    ensures { result ≡ name_in xid.now }
{
    match read_branch(xid) {
        Ok((txn, None)) => root_name(xid, txn),
        Ok((txn, Some((parent, ticket)))) => child_name(xid, txn, parent, ticket),
        Err(_) => (None, BranchName::Foreign(*xid)),
    }
}

/// The name at the front of these bytes, and the bytes after it.
pub fn name_at(bytes: &[u8]) -> Option<((Option<ProcessId>, BranchName), &[u8])>
    ensures { option_map (λ p. (p.0, p.1.now)) result ≡ name_at bytes.now }
{
    match Xid::front(bytes) {
        Ok((xid, size)) => {
            let (_, rest) = bytes.split_at(size);
            Some((name_in(&xid), rest))
        }
        Err(_) => None,
    }
}
