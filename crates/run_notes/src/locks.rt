//! Which branch holds which key.

ghost use Rattle.std.specs.Prelude.{◌≡◌};
ghost use Rattle.run_notes.specs.Managers.{at_key, blocker_by, holder_else, other, other_of};

use indexmap::{IndexMap, IndexSet};
use std::alloc::{AllocError, Global};
use xa_xid::Xid;

/// The holders of a key: at most one that wrote it, or some that read it.
#[derive(Drop)]
struct Holders {
    writer: Option<Xid>,
    readers: IndexSet<Xid>,
}

impl Holders {
    fn new(alloc: Global) -> Holders {
        Holders {
            writer: None,
            readers: IndexSet::new(alloc),
        }
    }

    /// A branch other than this one that has read the key.
    fn other_reader(&self, xid: &Xid) -> Option<Xid>
        ensures { result ≡ other_of xid.now self.now.readers.keys }
    {
        match self.readers.get_index(0) {
            None => None,
            Some(first) => {
                if *first == *xid {
                    self.readers.get_index(1).copied()
                } else {
                    Some(*first)
                }
            }
        }
    }

    /// A branch other than this one that keeps it from the key.
    fn blocker(&self, xid: &Xid, is_written: bool) -> Option<Xid>
        ensures { result ≡ holder_else xid.now is_written self.now.writer self.now.readers.keys }
    {
        if let Some(writer) = self.writer {
            if writer != *xid {
                return Some(writer);
            }
        }
        if is_written {
            self.other_reader(xid)
        } else {
            None
        }
    }

    /// Whether this branch is one of them.
    fn has(&self, xid: &Xid) -> bool {
        self.writer == Some(*xid) || self.readers.contains(xid)
    }

    /// A branch takes the key.
    fn add(&mut self, xid: &Xid, is_written: bool) -> Result<(), AllocError> {
        if is_written {
            self.writer = Some(*xid);
        } else {
            let _ = self.readers.insert(*xid)?;
        }
        Ok(())
    }

    /// A branch releases the key.
    fn remove(&mut self, xid: &Xid) {
        if self.writer == Some(*xid) {
            self.writer = None;
        }
        let _ = self.readers.swap_remove(xid);
    }

    fn is_empty(&self) -> bool {
        self.writer.is_none() && self.readers.is_empty()
    }
}

/// The holders of each key that is held.
#[derive(Drop)]
pub(crate) struct Locks {
    alloc: Global,
    keys: IndexMap<Vec<u8>, Holders>,
}

impl Locks {
    /// No locks.
    pub(crate) fn new(alloc: Global) -> Locks {
        Locks {
            alloc,
            keys: IndexMap::new(alloc),
        }
    }

    /// A branch other than this one that keeps it from a key.
    pub(crate) fn blocker(&self, xid: &Xid, key: &[u8], is_written: bool) -> Option<Xid>
        ensures { result ≡ blocker_by xid.now is_written (at_key self.now.keys.entries key.now) }
    {
        match self.keys.get(key) {
            None => None,
            Some(holders) => holders.blocker(xid, is_written),
        }
    }

    /// A branch takes a key that no other keeps from it. Whether it did not hold it before.
    pub(crate) fn take(
        &mut self,
        xid: &Xid,
        key: &[u8],
        is_written: bool,
    ) -> Result<bool, AllocError> {
        if let Some(holders) = self.keys.get_mut(key) {
            let is_new = !holders.has(xid);
            holders.add(xid, is_written)?;
            return Ok(is_new);
        }
        let mut holders = Holders::new(self.alloc);
        holders.add(xid, is_written)?;
        let _ = self
            .keys
            .insert(Vec::from_slice(self.alloc, key)?, holders)?;
        Ok(true)
    }

    /// A branch releases a key.
    fn release_key(&mut self, xid: &Xid, key: &[u8]) {
        let Some(holders) = self.keys.get_mut(key) else {
            return;
        };
        holders.remove(xid);
        if holders.is_empty() {
            let _ = self.keys.swap_remove(key);
        }
    }

    /// A branch releases these keys.
    pub(crate) fn release(&mut self, xid: &Xid, keys: &[Vec<u8>]) {
        for key in keys {
            self.release_key(xid, key.as_slice());
        }
    }

    /// Every branch releases its keys.
    pub(crate) fn clear(&mut self) {
        self.keys.clear();
    }
}
