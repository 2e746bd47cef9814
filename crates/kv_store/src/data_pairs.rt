//! The data as pairs of a key and its value, keys rising.

ghost use Rattle.std.specs.Prelude.{◌≡◌, ◌++◌, IfOk, OnOk, map};
ghost use Rattle.kv_store.specs.Pairs.{AreKeysOf, ArePairsOf, is_next, pair_if, pairs_at};
ghost use Rattle.kv_store.specs.Versions.{value_at};

use crate::versions::Versions;
use protocol::Bytes;
use std::alloc::{AllocError, Global};

/// The bytes of each of these keys.
fn bytes_of(alloc: Global, keys: &[Vec<u8>]) -> Result<Vec<&[u8]>, AllocError>
    ensures { IfOk result (λ bytes. map (λ k. k.now) bytes.items ≡ map (λ k. k.items) keys.now) }
{
    let mut bytes = Vec::new(alloc);
    for key in keys {
        bytes.push(key.as_slice())?;
    }
    Ok(bytes)
}

/// The pair of a key that has this value.
fn pair(alloc: Global, key: &[u8], value: &[u8]) -> Result<(Bytes, Bytes), AllocError>
    ensures { IfOk result (λ pair. pair ≡ (key.now, value.now)) }
{
    let key = Bytes::from_slice(alloc, key)?;
    let value = Bytes::from_slice(alloc, value)?;
    Ok((key, value))
}

/// Whether the key is the first of these.
fn is_next(key: &[u8], behind: &[&[u8]]) -> bool
    ensures { result ≡ is_next key.now (map (λ k. k.now) behind.now) }
{
    match behind.first() {
        Some(next) => *next == key,
        None => false,
    }
}

/// Adds the pair of a key that has a value.
fn add_pair(
    alloc: Global,
    pairs: &mut Vec<(Bytes, Bytes)>,
    key: &[u8],
    versions: &Versions,
) -> Result<(), AllocError>
    ensures { OnOk result (pairs.new.items
        ≡ pairs.old.items ++ pair_if key.now (value_at versions.now versions.now.count key.now)) }
{
    if let Some(value) = versions.read(key) {
        pairs.push(pair(alloc, key, value)?)?;
    }
    Ok(())
}

/// The pairs of these keys that have a value; of a key that is beside itself, one.
fn pairs_at(
    alloc: Global,
    keys: &[&[u8]],
    versions: &Versions,
) -> Result<Vec<(Bytes, Bytes)>, AllocError>
    ensures { IfOk result (λ pairs. pairs.items ≡ pairs_at versions.now (map (λ k. k.now) keys.now)) }
{
    let mut pairs = Vec::new(alloc);
    for (i, key) in keys.iter().enumerate() {
        if !is_next(key, &keys[i + 1..]) {
            add_pair(alloc, &mut pairs, key, versions)?;
        }
    }
    Ok(pairs)
}

/// The data, keys rising.
pub(crate) fn pairs_of(
    alloc: Global,
    keys: &[Vec<u8>],
    versions: &Versions,
) -> Result<Vec<(Bytes, Bytes)>, AllocError>
    requires { AreKeysOf versions.now (map (λ k. k.items) keys.now) }
    ensures { IfOk result (λ pairs. ArePairsOf versions.now pairs.items) }
{
    let mut keys = bytes_of(alloc, keys)?;
    keys.sort_unstable();
    pairs_at(alloc, &keys, versions)
}
