//! The XID of a case, and the case of an XID.

ghost use Rattle.std.specs.Prelude.{◌≡◌, ◌≢◌, Option, IfOk, OnErr, IfSome, IfNone, length};
ghost use Rattle.protocol.specs.Branches.{
  branch_format,
  branch_parts,
  below_bytes,
  txn_bytes,
  ticket_bytes,
  FitsTxn,
  FitsBelow,
  FitsBranchName,
};
ghost use Rattle.protocol_words.specs.Types.{AnyProcess, AnyTicket, AnyTxn};
ghost use Rattle.protocol.specs.declared.names.Presumption.{Presumption as AnyPresumption};

use byteorder::{BigEndian, ByteOrder};
use protocol::{Presumption, ProcessId, Ticket, Txn};
use thiserror::Error;
use xa_xid::Xid;

/// An XID that names no case of a tree.
#[derive(Clone, Copy, Debug, PartialEq, Eq, Error)]
#[error("the XID names no case")]
pub struct ForeignXid;

/// The XID of the transaction at the process of the ticket below this parent; with none, of the root's case.
/// It takes no memory.
pub fn branch_xid(txn: Txn, below: Option<(ProcessId, Ticket)>) -> Xid
    ensures { result ≡ branch_parts txn below }
{
    let format = format_of(txn.presumption);
    let gtrid = txn_name(txn);
    let named = match below {
        None => Xid::new(format, &gtrid, &[]),
        Some((parent, ticket)) => Xid::new(format, &gtrid, &ticket_name(parent, ticket)),
    };
    match named {
        Ok(xid) => xid,
        Err(_) => unreachable!(),
    }
}

/// The format of the XIDs of cases under this presumption.
pub(crate) fn format_of(presumption: Presumption) -> i32
    ensures { result ≡ branch_format presumption }
{
    match presumption {
        Presumption::PresumeAbort => 4001,
        Presumption::PresumeCommit => 4002,
    }
}

fn presumption_of(format: i32) -> Option<Presumption>
    ensures found { IfSome result (λ presumption. branch_format presumption ≡ format) }
    ensures none { IfNone result ((presumption : AnyPresumption) → branch_format presumption ≢ format) }
{
    match format {
        4001 => Some(Presumption::PresumeAbort),
        4002 => Some(Presumption::PresumeCommit),
        _ => None,
    }
}

/// The gtrid of a transaction's cases.
#[tactic(auto, unfolding(protocol::specs::Branches::txn_bytes))]
pub(crate) fn txn_name(txn: Txn) -> [u8; 20]
    ensures { result ≡ txn_bytes txn }
{
    let mut name = [0; 20];
    BigEndian::write_u32(&mut name, txn.root.0);
    BigEndian::write_u64(&mut name[4..], txn.boot);
    BigEndian::write_u64(&mut name[12..], txn.sequence);
    name
}

/// The bqual of the case of the ticket below this parent.
#[tactic(auto, unfolding(protocol::specs::Branches::ticket_bytes))]
pub(crate) fn ticket_name(parent: ProcessId, ticket: Ticket) -> [u8; 24]
    ensures { result ≡ ticket_bytes (parent, ticket) }
{
    let mut name = [0; 24];
    BigEndian::write_u32(&mut name, parent.0);
    BigEndian::write_u32(&mut name[4..], ticket.child.0);
    BigEndian::write_u64(&mut name[8..], ticket.boot);
    BigEndian::write_u64(&mut name[16..], ticket.number);
    name
}

/// The transaction that a name reads as, if it has a transaction's 20 bytes.
fn txn_read(presumption: Presumption, name: &[u8]) -> Option<Txn>
    ensures spelled { IfSome result (λ txn. (txn_bytes txn ≡ name.now) × (txn.presumption ≡ presumption)) }
    ensures all { (x : AnyTxn) → FitsTxn x → x.presumption ≡ presumption → txn_bytes x
        ≡ name.now → result ≡ Some x }
{
    if name.len() != 20 {
        return None;
    }
    Some(Txn {
        root: ProcessId(BigEndian::read_u32(name)),
        boot: BigEndian::read_u64(&name[4..]),
        sequence: BigEndian::read_u64(&name[12..]),
        presumption,
    })
}

/// The parent and the ticket that a name of 24 bytes reads as.
fn ticket_read(name: &[u8]) -> (ProcessId, Ticket)
    requires { length name.now ≡ 24 }
    ensures spelled { ticket_bytes result ≡ name.now }
    ensures all { (b : AnyProcess × AnyTicket) → FitsBranchName b → ticket_bytes b ≡ name.now → result ≡ b }
{
    let ticket = Ticket {
        child: ProcessId(BigEndian::read_u32(&name[4..])),
        boot: BigEndian::read_u64(&name[8..]),
        number: BigEndian::read_u64(&name[16..]),
    };
    (ProcessId(BigEndian::read_u32(name)), ticket)
}

/// What a branch's name reads as, if it has the 24 bytes of a ticket below a parent, or none.
#[tactic(auto, using(crate::proofs::xids::BranchLaws::no_ticket))]
fn below_read(name: &[u8]) -> Option<Option<(ProcessId, Ticket)>>
    ensures spelled { IfSome result (λ below. below_bytes below ≡ name.now) }
    ensures all { (b : Option (AnyProcess × AnyTicket)) → FitsBelow b → below_bytes b
        ≡ name.now → result ≡ Some b }
{
    if name.is_empty() {
        Some(None)
    } else if name.len() == 24 {
        Some(Some(ticket_read(name)))
    } else {
        None
    }
}

/// The case of an XID, if it is of one: what it reads as spells the XID again.
fn case_read(xid: &Xid) -> Option<(Txn, Option<(ProcessId, Ticket)>)>
    ensures spelled { IfSome result (λ named. branch_parts named.0 named.1 ≡ xid.now) }
    ensures all { (x : AnyTxn) (b : Option (AnyProcess × AnyTicket)) → FitsTxn x → FitsBelow b
        → branch_parts x b ≡ xid.now → result ≡ Some (x, b) }
{
    let (format, gtrid, bqual) = xid.parts();
    let presumption = presumption_of(format)?;
    let txn = txn_read(presumption, gtrid)?;
    let below = below_read(bqual)?;
    Some((txn, below))
}

/// The transaction of a case's XID, and below the root the parent and the ticket. `ForeignXid` comes exactly
/// if no case has this XID. It takes no memory.
pub fn read_branch(xid: &Xid) -> Result<(Txn, Option<(ProcessId, Ticket)>), ForeignXid>
    ensures found { IfOk result (λ named. branch_parts named.0 named.1 ≡ xid.now) }
    ensures foreign { OnErr result ((x : AnyTxn)
        (b : Option (AnyProcess × AnyTicket)) → FitsTxn x → FitsBelow b
        → branch_parts x b ≢ xid.now) }
{
    match case_read(xid) {
        Some(named) => Ok(named),
        None => Err(ForeignXid),
    }
}
