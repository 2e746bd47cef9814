//! The suspended associations, with how many each thread and each branch has.

ghost use Rattle.std.specs.Prelude.{◌≡◌, ◌≤◌, ◌<◌, ◌^◌, OnOk, OnErr, IsOk, IsTrue, true, false, []};
ghost use Rattle.std.specs.List.{list_any};
ghost use Rattle.indexmap.specs.IndexMap.{spare};
ghost use Rattle.xa_assoc.specs.Associations.{ArePositiveCounts, has_some};
ghost use Rattle.xa_assoc.specs.Names.{same, same_seat};
ghost use Rattle.xa_assoc.specs.Seats.{count_of, holds, Turns};

use crate::held::Suspended;
use indexmap::{IndexMap, IndexSet};
use std::alloc::{AllocError, Global};
use std::hash::Hash;
use std::marker::Model;
use xa_xid::Xid;

/// The suspended associations.
#[derive(Drop)]
pub(crate) struct Seats {
    taken: IndexSet<Suspended>,
    by_thread: IndexMap<u32, u64>,
    by_branch: IndexMap<Xid, u64>,
}

impl Model for Seats {
    ghost use Rattle.std.specs.Prelude.{List};
    ghost use Rattle.xa_assoc.specs.declared.held.Suspended.{Suspended};
    ghost use Rattle.xa_assoc.specs.Seats.{IsCounted};

    ghost Value = { List Suspended };

    ghost view = { λ s. s.taken.keys };

    ghost invariant = { λ s. IsCounted s.taken.keys s.by_thread.entries s.by_branch.entries };
}

impl Seats {
    /// No suspended associations.
    pub(crate) fn new(alloc: Global) -> Self
        ensures { result ≡ [] }
    {
        Seats {
            taken: IndexSet::new(alloc),
            by_thread: IndexMap::new(alloc),
            by_branch: IndexMap::new(alloc),
        }
    }

    /// Whether a thread has suspended a branch.
    pub(crate) fn contains(&self, thread: u32, xid: &Xid) -> bool
        ensures { result ≡ holds self.now (record { thread = thread; xid = xid.now }) }
    {
        !self.taken.is_empty() && self.taken.contains(&Suspended { thread, xid: *xid })
    }

    /// Whether a thread has suspended any branch.
    pub(crate) fn has_thread(&self, thread: u32) -> bool
        ensures { result ≡ has_some self.now thread }
    {
        !self.taken.is_empty() && count(&self.by_thread, &thread) > 0
    }

    /// Whether any thread has suspended a branch.
    pub(crate) fn has_branch(&self, xid: &Xid) -> bool
        ensures { result ≡ list_any (λ s. same s.xid xid.now) self.now }
    {
        !self.taken.is_empty() && count(&self.by_branch, xid) > 0
    }

    /// A thread suspends a branch that it has not suspended.
    pub(crate) fn insert(&mut self, seat: Suspended) -> Result<(), AllocError>
        requires free { holds self.old seat ≡ false }
        ensures ok { OnOk result (Turns self.old self.new seat true) }
        ensures err { OnErr result (self.new ≡ self.old) }
    {
        let of_thread = count(&self.by_thread, &seat.thread);
        let of_branch = count(&self.by_branch, &seat.xid);
        self.by_thread.reserve(1)?;
        self.by_branch.reserve(1)?;
        self.taken.insert(seat)?;
        // `len` is called for what bounds the counts, which the proof cites.
        let _seats = self.taken.len();
        recount(&mut self.by_thread, seat.thread, of_thread + 1).unwrap();
        recount(&mut self.by_branch, seat.xid, of_branch + 1).unwrap();
        Ok(())
    }

    /// A thread has suspended a branch no longer.
    pub(crate) fn remove(&mut self, seat: &Suspended)
        requires taken { holds self.old seat.now ≡ true }
        ensures { Turns self.old self.new seat.now false }
    {
        let of_thread = count(&self.by_thread, &seat.thread);
        let of_branch = count(&self.by_branch, &seat.xid);
        let _ = self.taken.swap_remove(seat);
        recount(&mut self.by_thread, seat.thread, of_thread - 1).unwrap();
        recount(&mut self.by_branch, seat.xid, of_branch - 1).unwrap();
    }

    /// Nothing is suspended any longer.
    pub(crate) fn clear(&mut self)
        ensures { self.new ≡ [] }
    {
        self.taken.clear();
        self.by_thread.clear();
        self.by_branch.clear();
    }
}

/// How often a key is counted.
pub(crate) fn count<K: Eq + Hash>(counts: &IndexMap<K, u64>, key: &K) -> u64
    ensures { result ≡ count_of K.eq counts.now.entries key.now }
{
    counts.get(key).copied().unwrap_or(0)
}

/// Counts a key this often. One that is counted no times is not kept.
pub(crate) fn recount<K: Eq + Hash + Drop>(
    counts: &mut IndexMap<K, u64>,
    key: K,
    count: u64,
) -> Result<(), AllocError>
    ensures own { OnOk result (count_of K.eq counts.new.entries key ≡ count) }
    ensures others { OnOk result ((l : K) → K.eq key l ≡ false → count_of K.eq counts.new.entries l
        ≡ count_of K.eq counts.old.entries l) }
    ensures err { OnErr result (counts.new.entries ≡ counts.old.entries) }
    ensures fewer { count ≤ count_of K.eq counts.old.entries key → IsOk result }
    ensures room { 0 < spare counts.old → IsOk result }
    ensures counted { ArePositiveCounts counts.old.entries → ArePositiveCounts counts.new.entries }
{
    if count == 0 {
        let _ = counts.swap_remove(&key);
    } else {
        counts.insert(key, count)?;
    }
    Ok(())
}
