//! A branch of a manager, from its ticket to its end.

ghost use Rattle.std.specs.Prelude.{◌≡◌, [], false, None, IfOk, OnOk};
ghost use Rattle.run_notes.specs.Managers.{is_bad_op, is_full_for, op_key, op_writes, takes};

use indexmap::IndexMap;
use protocol::{BranchName as Name, Op, Write};
use std::alloc::{AllocError, Global};

/// The longest key and the longest value, in bytes, and the most keys that a branch writes.
const KEY: usize = 64;

const VALUE: usize = 256;

const KEYS: usize = 64;

/// What spoiled a branch.
#[derive(Drop)]
pub(crate) enum Spoiled {
    /// This branch held this key.
    Held(Vec<u8>, Name),
    /// A key has no bytes or more than 64, or a value more than 256.
    TooLong,
    /// It would have written more than 64 keys.
    TooMany,
}

/// A branch of a manager.
#[derive(Drop)]
pub(crate) struct Branch {
    pub(crate) name: Name,
    /// The number of works that were done, in order.
    pub(crate) done: u64,
    pub(crate) spoiled: Option<Spoiled>,
    pub(crate) has_promised: bool,
    /// What it leaves at each key that it wrote: a value, or nothing.
    pub(crate) writes: IndexMap<Vec<u8>, Option<Vec<u8>>>,
    /// The keys that it holds.
    pub(crate) keys: Vec<Vec<u8>>,
}

/// The key of an operation.
pub(crate) fn key_of(op: &Op) -> &[u8]
    ensures { result.now ≡ op_key op.now }
{
    match op {
        Op::Put(key, _) | Op::Get(key) | Op::Delete(key) => key.as_slice(),
    }
}

/// Whether an operation writes.
pub(crate) fn writes(op: &Op) -> bool
    ensures { result ≡ op_writes op.now }
{
    match op {
        Op::Get(_) => false,
        Op::Put(_, _) | Op::Delete(_) => true,
    }
}

/// Whether no store does this operation, by the length of its key or of its value.
pub(crate) fn is_too_long(op: &Op) -> bool
    ensures { result ≡ is_bad_op op.now }
{
    let key = key_of(op);
    let is_long = match op {
        Op::Put(_, value) => value.len() > VALUE,
        Op::Get(_) | Op::Delete(_) => false,
    };
    is_long || key.is_empty() || key.len() > KEY
}

impl Branch {
    /// A branch that has done nothing.
    pub(crate) fn new(alloc: Global, name: Name) -> Branch
        ensures name { result.name ≡ name }
        ensures done { result.done ≡ 0 }
        ensures spoiled { result.spoiled ≡ None }
        ensures promised { result.has_promised ≡ false }
        ensures writes { result.writes.entries ≡ [] }
        ensures keys { result.keys.items ≡ [] }
    {
        Branch {
            name,
            done: 0,
            spoiled: None,
            has_promised: false,
            writes: IndexMap::new(alloc),
            keys: Vec::new(alloc),
        }
    }

    /// A branch that promised these writes.
    pub(crate) fn promised(
        alloc: Global,
        name: Name,
        writes: &[Write],
    ) -> Result<Branch, AllocError> {
        let mut branch = Branch::new(alloc, name);
        branch.has_promised = true;
        for write in writes {
            let value = match &write.value {
                None => None,
                Some(value) => Some(value.as_slice()),
            };
            branch.write(alloc, write.key.as_slice(), value)?;
        }
        Ok(branch)
    }

    /// Whether it does the work with this number, unless that is refused.
    pub(crate) fn takes(&self, index: u64) -> bool
        ensures { result ≡ takes self.now index }
    {
        !self.has_promised && self.spoiled.is_none() && index.checked_sub(1) == Some(self.done)
    }

    /// Whether it may not write this key, because it has written 64 others.
    pub(crate) fn is_full_for(&self, key: &[u8]) -> bool
        ensures { result ≡ is_full_for self.now key.now }
    {
        self.writes.len() >= KEYS && !self.writes.contains_key(key)
    }

    /// It leaves this value at a key, or nothing.
    pub(crate) fn write(
        &mut self,
        alloc: Global,
        key: &[u8],
        value: Option<&[u8]>,
    ) -> Result<(), AllocError> {
        let value = match value {
            None => None,
            Some(value) => Some(Vec::from_slice(alloc, value)?),
        };
        let _ = self.writes.insert(Vec::from_slice(alloc, key)?, value)?;
        Ok(())
    }
}
