//! Many commits of one key.

use crate::players::bytes;
use kv_store::Versions;
use protocol::{Bytes, Write};
use std::alloc::{AllocError, Global};
use std::test::Fail;

/// The value `1`, or none.
fn value(alloc: Global, is_put: bool) -> Result<Option<Bytes>, AllocError> {
    if is_put {
        Ok(Some(bytes(alloc, b"1")?))
    } else {
        Ok(None)
    }
}

/// The write of the key `a`: the value `1`, or a deletion.
fn write(alloc: Global, is_put: bool) -> Result<Write, AllocError> {
    let key = bytes(alloc, b"a")?;
    let value = value(alloc, is_put)?;
    Ok(Write { key, value })
}

/// This write alone.
fn write_of(alloc: Global, is_put: bool) -> Result<Vec<Write>, AllocError> {
    let mut writes = Vec::new(alloc);
    writes.push(write(alloc, is_put)?)?;
    Ok(writes)
}

/// By halving the 100,000 reads take less than two million steps; one version after another they would take
/// five thousand million.
#[test]
fn a_hundred_thousand_commits_of_one_key(rt: HostRuntime) -> Result<(), Fail> {
    let alloc = rt.alloc();
    let mut versions = Versions::new(alloc, 0);
    let put = write_of(alloc, true)?;
    let delete = write_of(alloc, false)?;
    for count in 0..100_000 {
        assert!(rt; versions.count() == count);
        if count % 2 == 0 {
            versions.apply(&put)?;
        } else {
            versions.apply(&delete)?;
        }
    }
    for count in 0..=100_000 {
        let found = versions.read_at(count, b"a");
        assert!(rt; found.is_ok_and(|value| value.is_some() == (count % 2 == 1)));
    }
    Ok(())
}
