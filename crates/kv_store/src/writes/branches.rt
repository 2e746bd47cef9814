//! What each branch at work has written.

ghost use Rattle.std.specs.Prelude.{◌≡◌, [], Some, None, true, IfOk, OnOk, OnErr, find, position};
ghost use Rattle.std.specs.Map.{keys_of, lookup};
ghost use Rattle.std.specs.Option.{option_copied};
ghost use Rattle.log_rules.specs.sound.Sound.{IsSoundWrite};
ghost use Rattle.protocol.specs.Plays.{with_write};
ghost use Rattle.kv_store.specs.writes.Writes.{AreKept, AreWrites, HasRoomAt, HasRoomFor, LeavesWrites, ListedAt, SameWrites, is_of, is_within_limit, same, table_of, writes_of};

use crate::writes::list::{copied, find, is_within_limit, put};
use few_keys::place_of;
use indexmap::IndexMap;
use protocol::Write;
use std::alloc::{AllocError, Global};
use std::marker::Model;
use xa_xid::Xid;

/// The list of each branch.
type Lists = IndexMap<Xid, Vec<Write>>;

/// What each branch at work has written, in order of each key's first write.
#[derive(Drop)]
pub struct BranchWrites {
    alloc: Global,
    lists: Lists,
}

impl Model for BranchWrites {
    ghost use Rattle.kv_store.specs.writes.Writes.{AreKept, WriteTable, table_of};

    ghost Value = { WriteTable };

    ghost view = { λ b. table_of b.lists.entries };

    ghost invariant = { λ b. AreKept (table_of b.lists.entries) };
}

impl BranchWrites {
    /// No branches. It takes no memory.
    pub fn new(alloc: Global) -> Self
        ensures { result ≡ [] }
    {
        BranchWrites {
            alloc,
            lists: IndexMap::new(alloc),
        }
    }

    /// Each branch has written what a branch can write.
    pub fn are_kept(&self)
        ensures { AreKept self.now }
    {
        let _ = &self.alloc;
    }

    /// Where the list of a branch stands, if it has one.
    pub fn place(&self, xid: &Xid) -> Option<usize>
        ensures { ListedAt self.now xid.now result }
    {
        place_of(&self.lists, xid)
    }

    /// What the branch has written whose list stands here: nothing if it has none.
    pub fn at(&self, place: Option<usize>) -> &[Write]
        requires { (x : Xid) × ListedAt self.now x place }
        ensures writes { (x : Xid) → ListedAt self.now x place → result.now ≡ writes_of self.now x }
        ensures limits { AreWrites result.now }
    {
        match place {
            None => &[],
            Some(place) => self.lists[place].as_slice(),
        }
    }

    /// What a branch has written: nothing where it is not known here.
    pub fn of(&self, xid: &Xid) -> &[Write]
        ensures writes { result.now ≡ writes_of self.now xid.now }
        ensures limits { AreWrites result.now }
    {
        self.at(self.place(xid))
    }

    /// What a branch left at a key, if it wrote it.
    pub fn find(&self, xid: &Xid, key: &[u8]) -> Option<&Write>
        ensures { option_copied result ≡ find (is_of key.now) (writes_of self.now xid.now) }
    {
        find(self.of(xid), key)
    }

    /// Makes room for a branch's write of this key, and says where the branch's list stands; None: the branch
    /// has written 64 different keys, and this is another. Memory: it may write the key, and nothing changed.
    pub fn room_for(&mut self, xid: &Xid, key: &[u8]) -> Result<Option<usize>, AllocError>
        ensures stays { SameWrites self.old self.new }
        ensures ok { IfOk result (λ found. HasRoomFor self.new xid.now key.now found) }
        ensures err { OnErr result (is_within_limit (writes_of self.old xid.now) key.now ≡ true) }
    {
        match place_of(&self.lists, xid) {
            None => Ok(Some(begin(self.alloc, &mut self.lists, xid)?)),
            Some(place) => {
                if !is_within_limit(self.lists[place].as_slice(), key) {
                    return Ok(None);
                }
                grow(&mut self.lists, place)?;
                Ok(Some(place))
            }
        }
    }

    /// A write of the branch whose list stands here and has room for it, in the place of an earlier one of
    /// its key. It takes no memory.
    pub fn put_at(&mut self, place: usize, write: Write)
        requires room { (x : Xid) × HasRoomFor self.old x write.key (Some place) }
        requires sound { IsSoundWrite write }
        ensures { (x : Xid) → position (same x) (keys_of self.old) ≡ Some place
            → LeavesWrites self.old self.new x
            (with_write (writes_of self.old x) write.key write.value) }
    {
        put(&mut self.lists[place], write);
    }

    /// The writes of a branch that a log says it promised. Memory: nothing changed.
    pub fn restore(&mut self, xid: &Xid, writes: &[Write]) -> Result<(), AllocError>
        requires { AreWrites writes.now }
        ensures ok { OnOk result (LeavesWrites self.old self.new xid.now writes.now) }
        ensures err { OnErr result (SameWrites self.old self.new) }
    {
        let list = copied(self.alloc, writes)?;
        self.lists.insert(*xid, list)?;
        Ok(())
    }

    /// The branch is gone whose list stands here, if it has one, with its writes. It takes no memory.
    pub fn remove_at(&mut self, place: Option<usize>)
        ensures { (x : Xid) → ListedAt self.old x place → LeavesWrites self.old self.new x [] }
    {
        if let Some(place) = place {
            let _ = self.lists.swap_remove_index(place);
        }
    }
}

/// Begins the list of a branch that has none, with room for one write, and says where it stands. Memory:
/// nothing changed.
fn begin(alloc: Global, lists: &mut Lists, xid: &Xid) -> Result<usize, AllocError>
    requires { lookup (same xid.now) lists.old.entries ≡ None }
    ensures stays { SameWrites (table_of lists.old.entries) (table_of lists.new.entries) }
    ensures room { IfOk result (λ place. HasRoomAt (table_of lists.new.entries) xid.now place) }
{
    let list = Vec::with_capacity(alloc, 1)?;
    let (place, _) = lists.insert_full(*xid, list)?;
    Ok(place)
}

/// Makes room for one write more in the list that stands here. Memory: nothing changed.
fn grow(lists: &mut Lists, place: usize) -> Result<(), AllocError>
    requires { (x : Xid) × (position (same x) (keys_of lists.old.entries) ≡ Some place) }
    ensures stays { SameWrites (table_of lists.old.entries) (table_of lists.new.entries) }
    ensures room { OnOk result ((x : Xid) → position (same x) (keys_of lists.old.entries) ≡ Some place
        → HasRoomAt (table_of lists.new.entries) x place) }
{
    lists[place].reserve(1)
}
