//! XIDs in bytes.

ghost use Rattle.std.specs.Prelude.{◌≡◌, ◌++◌, List, ℕ, IfOk, IfErr, Some, length, drop};
ghost use Rattle.xa_xid.specs.Xids.{XidParts, IsXid};
ghost use Rattle.xa_xid.specs.Bytes.{xid_bytes, front_fault, bytes_fault};

use crate::error::XidError;
use crate::xid::{Xid, fault_of_xid};
use std::alloc::{AllocError, Global};

impl Xid {
    /// The XID in bytes: the format (4 bytes, high byte first), the lengths of gtrid and bqual (1 byte
    /// each), gtrid, bqual. They are 6 to 134 bytes.
    pub fn to_bytes(&self, alloc: Global) -> Result<Vec<u8>, AllocError>
        ensures { IfOk result (λ bytes. bytes.items ≡ xid_bytes self.now) }
    {
        let (format, gtrid, bqual) = self.parts();
        let mut bytes = Vec::with_capacity(alloc, 6 + gtrid.len() + bqual.len())?;
        bytes.extend_from_slice(&format.to_be_bytes())?;
        bytes.extend_from_slice(&[gtrid.len() as u8, bqual.len() as u8])?;
        bytes.extend_from_slice(gtrid)?;
        bytes.extend_from_slice(bqual)?;
        Ok(bytes)
    }

    /// The XID that these bytes are.
    ///
    /// Refused are, in this order, fewer than six bytes (Truncated), a negative format unless it is -1 with
    /// both lengths 0 (BadFormat), a gtrid that is not 1 to 64 bytes long (GtridLength), a bqual longer than
    /// 64 bytes (BqualLength), too few bytes for both (Truncated), and bytes after them (Trailing). No
    /// memory is taken.
    pub fn from_bytes(bytes: &[u8]) -> Result<Xid, XidError>
        ensures ok { IfOk result (λ xid. IsXid xid × (bytes.now ≡ xid_bytes xid)) }
        ensures err { IfErr result (λ error. bytes_fault bytes.now ≡ Some error) }
        ensures none { IfErr result (λ _. (xid : XidParts) → IsXid xid
            → bytes.now ≡ xid_bytes xid → ⊥) }
    {
        match Xid::front(bytes) {
            Err(error) => Err(error),
            Ok((_, length)) if length < bytes.len() => Err(XidError::Trailing),
            Ok((xid, _)) => Ok(xid),
        }
    }

    /// The XID that begins these bytes, and how many of them it takes.
    ///
    /// Refused as by [`Xid::from_bytes`], but never for bytes after it. No memory is taken.
    pub fn front(bytes: &[u8]) -> Result<(Xid, usize), XidError>
        ensures ok { IfOk result (λ (xid, size). IsXid xid × (size ≡ length (xid_bytes xid))
            × (bytes.now ≡ xid_bytes xid ++ drop size bytes.now)) }
        ensures err { IfErr result (λ error. front_fault bytes.now ≡ Some error) }
        ensures none { IfErr result (λ _. (xid : XidParts) (rest : List ℕ) → IsXid xid
            → bytes.now ≡ xid_bytes xid ++ rest → ⊥) }
    {
        let [a, b, c, d, gtrid, bqual, rest @ ..] = bytes else {
            return Err(XidError::Truncated);
        };
        let format = i32::from_be_bytes([*a, *b, *c, *d]);
        let gtrid = *gtrid as usize;
        let bqual = *bqual as usize;
        if let Some(error) = fault_of_xid(format, gtrid, bqual) {
            return Err(error);
        }
        if rest.len() < gtrid + bqual {
            return Err(XidError::Truncated);
        }
        let (gtrid, rest) = rest.split_at(gtrid);
        let (bqual, _) = rest.split_at(bqual);
        let xid = Xid::of_parts(format, gtrid, bqual);
        Ok((xid, 6 + gtrid.len() + bqual.len()))
    }
}
