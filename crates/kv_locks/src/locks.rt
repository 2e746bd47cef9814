//! Which branch holds which key.

ghost use Rattle.std.specs.Prelude.{◌≡◌, ℕ, List, [], true, IfErr, OnOk, OnErr, Some};
ghost use Rattle.key_lists.specs.declared.holders.Mode.TheVariants as mode;
ghost use Rattle.key_lists.specs.Tables.{Becomes, table_of};
ghost use Rattle.key_lists.specs.Holders.{blocked_by, holds, keeps_rule};
ghost use Rattle.kv_locks.specs.Locks.{GivesLock, HoldsAtMost, KeepsKeys, LetsKeyGo, RefusesLock, ReleasesLocks, TakesKey, holders_of, keys_of, lock_number, names_key, place_of};

use indexmap::IndexMap;
use key_lists::{Holder, Mode, blocked_by, given, holds, raise, remove};
use std::alloc::{AllocError, Global};
use std::marker::Model;
use thiserror::Error;
use xa_xid::Xid;

/// Why a lock was not given; nothing changed.
#[derive(Clone, Copy, Debug, PartialEq, Eq, Error)]
pub enum LockError {
    /// There was no memory.
    #[error("no memory")]
    Memory,
    /// Another branch holds the key, and the two would not both be shared: the one of those that took it
    /// first.
    #[error("held by another branch")]
    Held(Xid),
}

impl LockError {
    /// Its number: Memory 1, Held 2.
    pub fn number(&self) -> u8
        ensures { result ≡ lock_number self.now }
    {
        match self {
            LockError::Memory => 1,
            LockError::Held(_) => 2,
        }
    }
}

impl From<AllocError> for LockError {
    ghost use Rattle.kv_locks.specs.declared.locks.LockError.TheVariants as refusal;

    ghost from_gives = { λ _ e. e ≡ refusal.Memory };

    fn from(_error: AllocError) -> LockError {
        LockError::Memory
    }
}

/// The holders of each key that is held.
type Holders = IndexMap<Vec<u8>, Vec<Holder>>;

/// The keys that each branch holds.
type Keys = IndexMap<Xid, Vec<Vec<u8>>>;

/// Which branch holds which key, shared or exclusive.
#[derive(Drop)]
pub struct Locks {
    alloc: Global,
    holders: Holders,
    keys: Keys,
}

impl Model for Locks {
    ghost use Rattle.key_lists.specs.Tables.{table_of};
    ghost use Rattle.kv_locks.specs.Locks.{IsLocks, LockTable};

    ghost Value = { LockTable };

    ghost view = { λ l. table_of l.holders.entries };

    ghost invariant = { λ l. IsLocks (table_of l.holders.entries) l.keys.entries };
}

impl Locks {
    /// No locks. It takes no memory.
    pub fn new(alloc: Global) -> Self
        ensures { result ≡ [] }
    {
        Locks {
            alloc,
            holders: IndexMap::new(alloc),
            keys: IndexMap::new(alloc),
        }
    }

    /// The holders of a key, in the order in which they took it.
    #[tactic(auto, using(key_lists::proofs::Tables::list_at_key), unfolding(key_lists::specs::Holders::keeps_rule))]
    pub fn holders(&self, key: &[u8]) -> &[Holder]
        ensures holders { result.now ≡ holders_of self.now key.now }
        ensures rule { keeps_rule result.now ≡ true }
    {
        match self.holders.get(key) {
            None => &[],
            Some(holders) => holders.as_slice(),
        }
    }

    /// The first branch in the way of a branch's lock, if there is one: if there is none, a lock is
    /// refused for memory alone.
    pub fn blocker(&self, xid: &Xid, key: &[u8], mode: Mode) -> Option<Xid>
        ensures { result ≡ blocked_by (holders_of self.now key.now) xid.now mode }
    {
        blocked_by(self.holders(key), xid, mode)
    }

    /// A shared lock for a branch, which keeps what it holds. Held: another branch holds the key exclusively.
    /// Either refusal changes nothing.
    pub fn shared(&mut self, xid: &Xid, key: &[u8]) -> Result<(), LockError>
        ensures ok { OnOk result (GivesLock self.old self.new xid.now key.now mode.Shared) }
        ensures err { IfErr result (RefusesLock self.old self.new xid.now key.now mode.Shared) }
    {
        self.take(xid, key, Mode::Shared)
    }

    /// An exclusive lock for a branch, in place of a shared one that it holds alone. Held: another branch
    /// holds the key. Either refusal changes nothing.
    pub fn exclusive(&mut self, xid: &Xid, key: &[u8]) -> Result<(), LockError>
        ensures ok { OnOk result (GivesLock self.old self.new xid.now key.now mode.Exclusive) }
        ensures err { IfErr result (RefusesLock self.old self.new xid.now key.now mode.Exclusive) }
    {
        self.take(xid, key, Mode::Exclusive)
    }

    /// A lock for a branch. Either refusal changes nothing.
    fn take(&mut self, xid: &Xid, key: &[u8], mode: Mode) -> Result<(), LockError>
        ensures ok { OnOk result (GivesLock self.old self.new xid.now key.now mode) }
        ensures err { IfErr result (RefusesLock self.old self.new xid.now key.now mode) }
    {
        let (place, held) = find(&self.holders, key);
        if let Some(other) = blocked_by(held, xid, mode) {
            return Err(LockError::Held(other));
        }
        if let Some(place) = place
            && holds(held, xid)
        {
            raise_at(&mut self.holders, place, xid, mode);
            return Ok(());
        }
        let list = given(self.alloc, held, xid, mode)?;
        add_key(self.alloc, &mut self.keys, xid, key)?;
        set(self.alloc, &mut self.holders, key, list)?;
        Ok(())
    }

    /// Releases all locks of a branch. It takes no memory.
    pub fn release(&mut self, xid: &Xid)
        ensures { ReleasesLocks self.old self.new xid.now }
    {
        let Some(place) = few_keys::place_of(&self.keys, xid) else {
            return;
        };
        if let Some((_, keys)) = self.keys.swap_remove_index(place) {
            release_each(&mut self.holders, keys.as_slice(), xid);
        }
    }

    /// Releases all locks of all branches. The room stays.
    pub fn clear(&mut self)
        ensures { self.new ≡ [] }
    {
        self.holders.clear();
        self.keys.clear();
    }
}

/// Where a key stands, if it does, and its holders.
#[tactic(auto, using(key_lists::proofs::Tables::list_at_key))]
fn find<'a>(holders: &'a Holders, key: &[u8]) -> (Option<usize>, &'a [Holder])
    ensures place { result.0 ≡ place_of holders.now.entries key.now }
    ensures holders { result.1.now ≡ holders_of (table_of holders.now.entries) key.now }
{
    match holders.get_full(key) {
        None => (None, &[]),
        Some((place, _, list)) => (Some(place), list.as_slice()),
    }
}

/// Gives a branch that holds the key that stands here the key in this mode. It takes no memory.
fn raise_at(holders: &mut Holders, place: usize, xid: &Xid, mode: Mode)
    requires { (k : List ℕ) × (place_of holders.old.entries k ≡ Some place)
        × (holds (holders_of (table_of holders.old.entries) k) xid.now ≡ true) }
    ensures { (k : List ℕ) → place_of holders.old.entries k ≡ Some place
        → TakesKey (table_of holders.old.entries) (table_of holders.new.entries) xid.now k mode }
{
    match holders.get_index_mut(place) {
        Some(list) => raise(list, xid, mode),
        None => unreachable!(),
    }
}

/// Gives a key these holders, in place of those that it has.
fn set(
    alloc: Global,
    holders: &mut Holders,
    key: &[u8],
    list: Vec<Holder>,
) -> Result<(), AllocError>
    ensures ok { OnOk result (Becomes (table_of holders.old.entries) (table_of holders.new.entries)
        key.now list.items) }
    ensures err { OnErr result (holders.new.entries ≡ holders.old.entries) }
{
    let _ = holders.insert(Vec::from_slice(alloc, key)?, list)?;
    Ok(())
}

/// Lists a key for a branch.
fn add_key(alloc: Global, keys: &mut Keys, xid: &Xid, key: &[u8]) -> Result<(), AllocError>
    ensures keeps { KeepsKeys keys.old.entries keys.new.entries }
    ensures listed { OnOk result (names_key (keys_of keys.new.entries xid.now) key.now ≡ true) }
{
    let key = Vec::from_slice(alloc, key)?;
    let list = keys.entry(*xid)?.or_insert(Vec::new(alloc));
    list.push(key)?;
    Ok(())
}

/// The branch releases each of these keys, which are all that it holds.
fn release_each(holders: &mut Holders, keys: &[Vec<u8>], xid: &Xid)
    requires { HoldsAtMost (table_of holders.old.entries) xid.now keys.now }
    ensures { ReleasesLocks (table_of holders.old.entries) (table_of holders.new.entries) xid.now }
{
    let mut rest = keys;
    while let [key, behind @ ..] = rest {
        release_key(holders, key.as_slice(), xid);
        rest = behind;
    }
}

/// The branch releases a key.
fn release_key(holders: &mut Holders, key: &[u8], xid: &Xid)
    ensures { LetsKeyGo (table_of holders.old.entries) (table_of holders.new.entries) xid.now key.now }
{
    let Some(place) = holders.get_index_of(key) else {
        return;
    };
    let list = &mut holders[place];
    remove(list, xid);
    if list.is_empty() {
        let _ = holders.swap_remove_index(place);
    }
}
