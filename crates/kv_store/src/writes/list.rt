//! The writes of one branch.

ghost use Rattle.std.specs.Prelude.{◌≡◌, ◌<◌, IfOk, find, position};
ghost use Rattle.std.specs.Vec.{vec_capacity, vec_len};
ghost use Rattle.std.specs.Option.{option_copied};
ghost use Rattle.protocol.specs.Plays.{with_write};
ghost use Rattle.kv_store.specs.writes.Writes.{is_of, is_within_limit};

use protocol::Write;
use std::alloc::{AllocError, Global};

/// The most different keys that a branch writes.
const KEYS: usize = 64;

/// Whether a write is of this key.
fn is_of(write: &Write, key: &[u8]) -> bool
    ensures { result ≡ is_of key.now write.now }
{
    write.key.as_slice() == key
}

/// Where the write of a key stands.
fn place_of(writes: &[Write], key: &[u8]) -> Option<usize>
    ensures { result ≡ position (is_of key.now) writes.now }
{
    writes.iter().position(|write| is_of(write, key))
}

/// The write of a key.
pub(crate) fn find<'a>(writes: &'a [Write], key: &[u8]) -> Option<&'a Write>
    ensures { option_copied result ≡ find (is_of key.now) writes.now }
{
    writes.iter().find(|write| is_of(write, key))
}

/// Whether a branch with these writes may write this key: it has, or it has written fewer than 64 different
/// ones.
pub(crate) fn is_within_limit(writes: &[Write], key: &[u8]) -> bool
    ensures { result ≡ is_within_limit writes.now key.now }
{
    writes.len() < KEYS || find(writes, key).is_some()
}

/// Adds a write, in the place of an earlier one of its key.
pub(crate) fn put(list: &mut Vec<Write>, write: Write)
    requires { vec_len list.old < vec_capacity list.old }
    ensures { list.new.items ≡ with_write list.old.items write.key write.value }
{
    match place_of(list, write.key.as_slice()) {
        Some(place) => list[place] = write,
        None => list.push(write).unwrap(),
    }
}

/// A copy of the writes.
pub(crate) fn copied(alloc: Global, writes: &[Write]) -> Result<Vec<Write>, AllocError>
    ensures { IfOk result (λ copy. copy.items ≡ writes.now) }
{
    let mut copy = Vec::with_capacity(alloc, writes.len())?;
    for write in writes {
        copy.push(write.copied(alloc)?)?;
    }
    Ok(copy)
}
