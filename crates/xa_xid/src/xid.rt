//! XIDs.

ghost use Rattle.std.specs.Prelude.{◌≡◌, ◌↔◌, IsTrue, IfOk, IfErr, Some, None, length};
ghost use Rattle.std.specs.Cmp.Rules.{hashing};
ghost use Rattle.std.specs.Hash as fed;
ghost use Rattle.std.proofs.Common.{rules};
ghost use Rattle.xa_xid.specs.Digests.{xid_digest};
ghost use Rattle.xa_xid.specs.Xids.{branch_fault, xid_fault};
ghost use Rattle.xa_xid.specs.declared.xid.Xid.{Xid as AnyXid};

use crate::error::XidError;
use crate::part::XidPart;
use std::hash::{Hash, Hasher};
use std::marker::Model;

/// The name of a transaction branch (C193, chapter 4): a format, a global transaction's name of 1 to
/// 64 bytes and a branch's name of at most 64 bytes; or the null XID, which names none.
///
/// C193 asks 1 to 64 bytes of both names; a branch's name of 0 bytes is a widening of this profile.
#[derive(Clone, Copy, Debug, PartialEq, Eq)]
pub struct Xid {
    /// The digest of the parts, which each look-up asks for.
    digest: u64,
    format: i32,
    gtrid: XidPart,
    bqual: XidPart,
}

/// A number made of all parts.
#[tactic(auto, unfolding(crate::specs::Digests::xid_digest))]
fn digest_of(format: i32, gtrid: &XidPart, bqual: &XidPart) -> u64
    ensures { result ≡ xid_digest (record { format = format; gtrid = gtrid.now; bqual = bqual.now }) }
{
    bqual.digest(gtrid.digest(format.cast_unsigned() as u64))
}

impl Model for Xid {
    ghost use Rattle.std.specs.Prelude.{◌≡◌};
    ghost use Rattle.xa_xid.specs.Digests.{xid_digest};
    ghost use Rattle.xa_xid.specs.Xids.{XidParts, IsXid};

    ghost Value = { XidParts };

    ghost view = { λ x. record { format = x.format; gtrid = x.gtrid; bqual = x.bqual } };

    ghost invariant = { λ x. IsXid (record { format = x.format; gtrid = x.gtrid; bqual = x.bqual })
        × (x.digest ≡ xid_digest (record { format = x.format; gtrid = x.gtrid; bqual = x.bqual })) };

    ghost inverse = { λ x. record {
      digest = xid_digest x;
      format = x.format;
      gtrid = x.gtrid;
      bqual = x.bqual;
    } };
}

impl Xid {
    ghost use Rattle.xa_xid.specs.Xids.{null_xid, IsXid};

    /// The null XID: format -1 and no bytes. It names no branch.
    pub fn null() -> Self
        ensures { result ≡ null_xid }
    {
        Xid::of_parts(-1, &[], &[])
    }

    /// The name of a branch, of these parts.
    ///
    /// Refused are, in this order, a negative format (BadFormat, whatever the lengths), a `gtrid` that is
    /// not 1 to 64 bytes long (GtridLength) and a `bqual` longer than 64 bytes (BqualLength).
    pub fn new(format: i32, gtrid: &[u8], bqual: &[u8]) -> Result<Self, XidError>
        ensures ok { IfOk result (λ xid.
            (xid ≡ record { format = format; gtrid = gtrid.now; bqual = bqual.now })
            × (branch_fault format (length gtrid.now) (length bqual.now) ≡ None)) }
        ensures err { IfErr result (λ error.
            branch_fault format (length gtrid.now) (length bqual.now) ≡ Some error) }
    {
        match fault_of_branch(format, gtrid.len(), bqual.len()) {
            Some(error) => Err(error),
            None => Ok(Xid::of_parts(format, gtrid, bqual)),
        }
    }

    /// The XID of parts in which nothing is wrong.
    pub(crate) fn of_parts(format: i32, gtrid: &[u8], bqual: &[u8]) -> Self
        requires { xid_fault format (length gtrid.now) (length bqual.now) ≡ None }
        ensures value { result ≡ record { format = format; gtrid = gtrid.now; bqual = bqual.now } }
        ensures sound { IsXid result }
    {
        let gtrid = XidPart::new(gtrid);
        let bqual = XidPart::new(bqual);
        Xid {
            digest: digest_of(format, &gtrid, &bqual),
            format,
            gtrid,
            bqual,
        }
    }

    /// Whether this is the null XID.
    pub fn is_null(&self) -> bool
        ensures { IsTrue result ↔ (self.now ≡ null_xid) }
    {
        self.format == -1
    }

    /// The format, the global transaction's name and the branch's.
    pub fn parts(&self) -> (i32, &[u8], &[u8])
        ensures format { result.0 ≡ self.now.format }
        ensures gtrid { result.1.now ≡ self.now.gtrid }
        ensures bqual { result.2.now ≡ self.now.bqual }
        ensures sound { IsXid self.now }
    {
        (self.format, self.gtrid.as_slice(), self.bqual.as_slice())
    }

    /// A number made of all that the XID has, to be hashed.
    pub fn digest(&self) -> u64
        ensures { result ≡ xid_digest self.now }
    {
        self.digest
    }
}

/// One number is fed, made of all that an XID has.
impl Hash for Xid {
    ghost hash_input = { λ x. fed.u64 (xid_digest x) };

    ghost respects_eq = { Prim.search (hashing, rules) };

    fn hash<H: Hasher>(&self, state: &mut H) {
        state.write_u64(self.digest());
    }
}

/// Two XIDs are equal exactly where their parts are.
pub fn equal_by_parts()
    ensures { (a b : AnyXid) → IsTrue (⟦<Xid as PartialEq>⟧.eq a b) ↔ (a ≡ b) }
{}

/// Why parts of these lengths name no branch.
fn fault_of_branch(format: i32, gtrid: usize, bqual: usize) -> Option<XidError>
    ensures { result ≡ branch_fault format gtrid bqual }
{
    if format < 0 {
        Some(XidError::BadFormat)
    } else if gtrid == 0 || gtrid > 64 {
        Some(XidError::GtridLength)
    } else if bqual > 64 {
        Some(XidError::BqualLength)
    } else {
        None
    }
}

/// Why parts of these lengths are no XID.
pub(crate) fn fault_of_xid(format: i32, gtrid: usize, bqual: usize) -> Option<XidError>
    ensures { result ≡ xid_fault format gtrid bqual }
{
    if format == -1 && gtrid == 0 && bqual == 0 {
        None
    } else {
        fault_of_branch(format, gtrid, bqual)
    }
}
