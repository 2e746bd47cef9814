//! The open scans of the branches in doubt.

ghost use Rattle.std.specs.Prelude.{◌≡◌, [], IfOk, OnOk, OnErr, Some, None, nat_le, length, take, drop, unwrap_or, if◌then◌else◌};
ghost use Rattle.xa_branch.specs.Scans.{has_scan, scan_of, SetsScan};

use indexmap::IndexMap;
use std::alloc::{AllocError, Global};
use std::marker::Model;
use xa_codes::Code;
use xa_xid::Xid;

/// The most threads that have an open scan at a time.
const THREADS: usize = 256;

/// What each thread with an open scan has still to be given.
#[derive(Drop)]
pub struct Scans {
    alloc: Global,
    left: IndexMap<u32, Vec<Xid>>,
}

impl Model for Scans {
    ghost use Rattle.xa_branch.specs.Scans.{ScanList, left_of};

    ghost Value = { ScanList };

    ghost view = { λ s. left_of s.left.entries };
}

impl Scans {
    /// No scans.
    pub fn new(alloc: Global) -> Self
        ensures { result ≡ [] }
    {
        Scans {
            alloc,
            left: IndexMap::new(alloc),
        }
    }

    /// Closes all scans.
    pub fn clear(&mut self)
        ensures { self.new ≡ [] }
    {
        self.left.clear();
    }

    /// Whether a thread has an open scan.
    pub fn is_open(&self, thread: u32) -> bool
        ensures { result ≡ has_scan self.now thread }
    {
        self.left.contains_key(&thread)
    }

    /// Whether 256 threads have open scans.
    pub fn is_full(&self) -> bool
        ensures { result ≡ nat_le 256 (length self.now) }
    {
        self.left.len() >= THREADS
    }

    /// What a thread's scan has still to give: nothing if none is open.
    pub fn rest(&self, thread: u32) -> Result<Vec<Xid>, AllocError>
        ensures { IfOk result (λ v. v.items ≡ unwrap_or (scan_of self.now thread) []) }
    {
        match self.left.get(&thread) {
            None => Ok(Vec::new(self.alloc)),
            Some(rest) => rest.as_slice().to_vec(self.alloc),
        }
    }

    /// Gives a thread the first of these, at most N, and leaves it a scan of the others, or none where
    /// the scan ends.
    pub fn give(
        &mut self,
        thread: u32,
        rest: &[Xid],
        count: u32,
        ends: bool,
    ) -> Result<Vec<Xid>, AllocError>
        ensures given { IfOk result (λ v. v.items ≡ take count rest.now) }
        ensures left { OnOk result (SetsScan self.old self.new thread
            (if ends then None else Some (drop count rest.now))) }
        ensures err { OnErr result (self.new ≡ self.old) }
    {
        let (given, left) = rest.split_at(rest.len().min(count as usize));
        let items = given.to_vec(self.alloc)?;
        if ends {
            self.close(thread);
        } else {
            self.set(thread, left.to_vec(self.alloc)?)?;
        }
        Ok(items)
    }

    /// Leaves a thread a scan with this rest.
    fn set(&mut self, thread: u32, rest: Vec<Xid>) -> Result<(), AllocError>
        ensures ok { OnOk result (SetsScan self.old self.new thread (Some rest.items)) }
        ensures err { OnErr result (self.new ≡ self.old) }
    {
        self.left.insert(thread, rest)?;
        Ok(())
    }

    /// Closes a thread's scan.
    fn close(&mut self, thread: u32)
        ensures { SetsScan self.old self.new thread None }
    {
        let _ = self.left.swap_remove(&thread);
    }
}
