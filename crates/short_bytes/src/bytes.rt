//! Bytes in order.

ghost use Rattle.std.specs.Prelude.{◌≡◌, ◌≤◌, IfOk, IsOk, length};
ghost use Rattle.short_bytes.specs.Stores.{IsSound, stored};

use std::alloc::{AllocError, Global};
use std::marker::Model;

/// How many bytes are in place, so that they and where they stand take two words.
const PLACES: usize = 14;

/// Where bytes stand.
#[derive(Drop)]
enum Store {
    /// N of these, from the first on.
    Short(u8, [u8; 14]),
    /// All of them, apart.
    Long(Box<Vec<u8>>),
}

/// Bytes in order. Up to 14 take no memory of their own. Contracts see the list.
#[derive(Drop)]
pub struct Bytes {
    store: Store,
}

impl Model for Bytes {
    ghost use Rattle.std.specs.Prelude.{ℕ, List};
    ghost use Rattle.short_bytes.specs.Stores.{IsSound, stored};

    ghost Value = { List ℕ };

    ghost view = { λ b. stored b.store };

    ghost invariant = { λ b. IsSound b.store };
}

/// At most 14 bytes, in place.
fn short(bytes: &[u8]) -> Store
    requires { length bytes.now ≤ 14 }
    ensures sound { IsSound result }
    ensures stored { stored result ≡ bytes.now }
{
    let mut places = [0; PLACES];
    places[..bytes.len()].copy_from_slice(bytes);
    Store::Short(bytes.len() as u8, places)
}

impl Bytes {
    /// These bytes, copied; up to 14 take no memory.
    pub fn from_slice(alloc: Global, bytes: &[u8]) -> Result<Bytes, AllocError>
        ensures bytes { IfOk result (λ made. made ≡ bytes.now) }
        ensures succeeds { length bytes.now ≤ 14 → IsOk result }
    {
        if bytes.len() <= PLACES {
            return Ok(Bytes {
                store: short(bytes),
            });
        }
        let apart = Vec::from_slice(alloc, bytes)?;
        Ok(Bytes {
            store: Store::Long(Box::new(alloc, apart)?),
        })
    }

    /// The bytes, as a slice.
    pub fn as_slice(&self) -> &[u8]
        ensures { result.now ≡ self.now }
    {
        match &self.store {
            Store::Short(len, places) => &places[..*len as usize],
            Store::Long(bytes) => bytes.as_slice(),
        }
    }

    /// How many there are.
    pub fn len(&self) -> usize
        ensures { result ≡ length self.now }
    {
        self.as_slice().len()
    }

    /// A copy of the bytes; up to 14 take no memory.
    pub fn copied(&self, alloc: Global) -> Result<Bytes, AllocError>
        ensures bytes { IfOk result (λ copy. copy ≡ self.now) }
        ensures succeeds { length self.now ≤ 14 → IsOk result }
    {
        match &self.store {
            Store::Short(len, places) => Ok(Bytes {
                store: Store::Short(*len, *places),
            }),
            Store::Long(bytes) => Bytes::from_slice(alloc, bytes.as_slice()),
        }
    }
}
