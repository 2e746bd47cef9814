//! A part of an XID: at most 64 bytes, kept in place.

ghost use Rattle.std.specs.Prelude.{◌≡◌, ◌≢◌, ◌≤◌, ◌*◌, true, false, length, nat_eq, take};
ghost use Rattle.std.specs.Cmp.Lexicographic.{pointwise, nat_list_eq_equiv};
ghost use Rattle.std.specs.Cmp.{partial_equiv_from_equiv};
ghost use Rattle.xa_xid.specs.Digests.{part_digest};

use crate::digest::mixed;
use std::marker::Model;

/// At most 64 bytes.
#[derive(Clone, Copy, Debug)]
pub struct XidPart {
    len: u8,
    bytes: [u8; 64],
}

impl Model for XidPart {
    ghost use Rattle.std.specs.Prelude.{ℕ, List, length, take};
    ghost use Rattle.xa_xid.specs.Part.{IsPart, filled, filled_again};

    ghost Value = { List ℕ };

    ghost view = { λ p. take p.len p.bytes };

    ghost invariant = { λ p. IsPart p.len p.bytes };

    ghost inverse = { λ part. record { len = length part; bytes = filled part } };

    ghost inverse_ok = { λ p h. filled_again p.len p.bytes h };
}

impl XidPart {
    /// The part of these bytes.
    pub fn new(bytes: &[u8]) -> Self
        requires { length bytes.now ≤ 64 }
        ensures { result ≡ bytes.now }
    {
        let mut filled = [0; 64];
        filled[..bytes.len()].copy_from_slice(bytes);
        XidPart {
            len: bytes.len() as u8,
            bytes: filled,
        }
    }

    /// The bytes of the part.
    pub fn as_slice(&self) -> &[u8]
        ensures value { result.now ≡ self.now }
        ensures length { length result.now ≤ 64 }
    {
        &self.bytes[..self.len as usize]
    }

    /// A digest with the part mixed in: its length, then its bytes, eight at a time.
    pub fn digest(&self, before: u64) -> u64
        ensures { result ≡ part_digest before self.now }
    {
        let (eights, _) = self.bytes.as_chunks::<8>();
        let mut digest = mixed(before, self.len as u64);
        for bytes in &eights[..(self.len as usize).div_ceil(8)] {
            digest = mixed(digest, u64::from_le_bytes(*bytes));
        }
        digest
    }
}

/// Whether the first N eights of two arrays are equal.
fn are_equal(a: &[u8; 64], b: &[u8; 64], count: usize) -> bool
    requires { count ≤ 8 }
    ensures yes { result ≡ true → take (count * 8) a.now ≡ take (count * 8) b.now }
    ensures no { result ≡ false → a.now ≢ b.now }
{
    let (eights, _) = a.as_chunks::<8>();
    let (others, _) = b.as_chunks::<8>();
    for i in 0..count {
        if u64::from_le_bytes(eights[i]) != u64::from_le_bytes(others[i]) {
            return false;
        }
    }
    true
}

impl PartialEq for XidPart {
    ghost eq = { pointwise nat_eq };

    ghost laws = { partial_equiv_from_equiv nat_list_eq_equiv };

    fn eq(&self, other: &XidPart) -> bool {
        self.len == other.len
            && are_equal(&self.bytes, &other.bytes, (self.len as usize).div_ceil(8))
    }
}

impl Eq for XidPart {
    ghost laws = { nat_list_eq_equiv };
}
