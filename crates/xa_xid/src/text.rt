//! XIDs in text.

ghost use Rattle.std.specs.Prelude.{◌≡◌, ◌≤◌, IfOk, IfErr, IfSome, IfNone, length, string_bytes};
ghost use Rattle.spellings.specs.HexText.{IsHexadecimal, Spells};
ghost use Rattle.xa_xid.specs.Xids.{XidParts, IsXid, FitsParts};
ghost use Rattle.xa_xid.specs.Text.{xid_text, ArePieces, IsTextFault};

use crate::error::XidError;
use crate::part::XidPart;
use crate::xid::{Xid, fault_of_xid};
use spellings::hexadecimal::{self, Hexadecimal, is_hexadecimal};
use spellings::numeral::integer_of;
use spellings::word::cut;
use std::alloc::{AllocError, Global};
use std::fmt;

impl fmt::Display for Xid {
    ghost use Rattle.std.specs.Prelude.{Some};
    ghost use Rattle.xa_xid.specs.Text.{xid_text};

    ghost output = { λ xid. Some (xid_text xid) };

    fn fmt<W: fmt::Write>(&self, f: &mut fmt::Formatter<W>) -> fmt::Result {
        let (format, gtrid, bqual) = self.parts();
        let gtrid = Hexadecimal(gtrid);
        let bqual = Hexadecimal(bqual);
        write!(f, "{format}:{gtrid}:{bqual}")
    }
}

impl Xid {
    /// The XID in text, as `7:aa:` or `-1::`: the format in decimal, a colon, gtrid in lower-case
    /// hexadecimal, a colon, bqual.
    pub fn text(&self, alloc: Global) -> Result<String, AllocError>
        ensures { IfOk result (λ text. string_bytes text ≡ xid_text self.now) }
    {
        self.to_string(alloc)
    }

    /// The XID that a text spells.
    ///
    /// Refused are, in this order, a text that is not a 32-bit number, a colon, bytes in hexadecimal, a colon
    /// and bytes in hexadecimal, each in its one spelling (Syntax); a negative format, unless the text is
    /// `-1::` (BadFormat); a gtrid that is not 1 to 64 bytes long (GtridLength); a bqual longer than 64 bytes
    /// (BqualLength). No memory is taken.
    pub fn parse(text: &str) -> Result<Xid, XidError>
        ensures ok { IfOk result (λ xid. IsXid xid × (text.now ≡ xid_text xid)) }
        ensures err { IfErr result (λ error. IsTextFault text.now error) }
        ensures none { IfErr result (λ _. (xid : XidParts) → IsXid xid → text.now ≡ xid_text xid → ⊥) }
    {
        let Some((format, gtrid, bqual)) = pieces_of(text) else {
            return Err(XidError::Syntax);
        };
        if let Some(error) = fault_of_xid(format, gtrid.len() / 2, bqual.len() / 2) {
            return Err(error);
        }
        let gtrid = part_of(gtrid);
        let bqual = part_of(bqual);
        Ok(Xid::of_parts(format, gtrid.as_slice(), bqual.as_slice()))
    }
}

/// The format and the hexadecimal texts of gtrid and bqual, where a text spells parts.
fn pieces_of(text: &str) -> Option<(i32, &str, &str)>
    ensures found { IfSome result (λ p. (x : XidParts) × ArePieces text.now p.0 p.1.now p.2.now x) }
    ensures none { IfNone result ((x : XidParts) → FitsParts x → text.now ≡ xid_text x → ⊥) }
{
    let (format, rest) = cut(text, ':')?;
    let (gtrid, bqual) = cut(rest, ':')?;
    let format = integer_of(format)?;
    if is_hexadecimal(gtrid) && is_hexadecimal(bqual) {
        Some((format, gtrid, bqual))
    } else {
        None
    }
}

/// The part that a hexadecimal text spells.
fn part_of(text: &str) -> XidPart
    requires spelled { IsHexadecimal text.now }
    requires size { length text.now ≤ 128 }
    ensures { Spells text.now result }
{
    let mut bytes = [0; 64];
    let len = text.len() / 2;
    hexadecimal::decode(text, &mut bytes[..len]);
    XidPart::new(&bytes[..len])
}
