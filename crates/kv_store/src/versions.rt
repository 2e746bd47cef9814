//! The versions of all keys.

ghost use Rattle.std.specs.Prelude.{◌≡◌, ◌≤◌, ◌<◌, ◌+◌, ◌^◌, ◌⊎◌, ◌++◌, ◌∷◌, ℕ, List, [], true, false, IfOk, OnOk, OnErr, None, option_map};
ghost use Rattle.key_lists.specs.Tables.{SameLists, list_at, table_of};
ghost use Rattle.kv_store.specs.Pairs.{ArePairsOf, AreSet, keys_rise};
ghost use Rattle.kv_store.specs.Versions.{
  Adds,
  AddsFront,
  AddsVersion,
  AppliesCommit,
  KeepsUpTo,
  Publishes,
  ReadsAt,
  Rebases,
  SameData,
  Sets,
  Stages,
  TakesBack,
  AreListedOnce,
  has_any,
  kept_in,
  kept_of,
  rises_from,
  value_at,
};

use crate::data_pairs::pairs_of;
use crate::version::{Version, keep_last, keep_up_to, value_by};
use indexmap::IndexMap;
use protocol::{Bytes, Write};
use std::alloc::{AllocError, Global};
use std::marker::Model;
use thiserror::Error;

/// What was N commits ago is not kept, or not yet.
#[derive(Clone, Copy, Debug, PartialEq, Eq, Error)]
#[error("not kept")]
pub struct Gone;

/// The versions of each key.
type Keys = IndexMap<Vec<u8>, Vec<Version>>;

/// The data of a key store, with what each key was after each commit since the base.
#[derive(Drop)]
pub struct Versions {
    alloc: Global,
    base: u64,
    count: u64,
    is_staged: bool,
    keys: Keys,
}

impl Model for Versions {
    ghost use Rattle.key_lists.specs.Tables.{table_of};
    ghost use Rattle.kv_store.specs.Versions.{IsVersions, VersionTable};

    ghost Value = { VersionTable };

    ghost view = { λ v. record {
      base = v.base;
      count = v.count;
      is_staged = v.is_staged;
      versions = table_of v.keys.entries;
    } };

    ghost invariant = { λ v. IsVersions v.base v.count v.is_staged (table_of v.keys.entries) };
}

impl Versions {
    /// No keys, after N commits. It takes no memory.
    pub fn new(alloc: Global, count: u64) -> Self
        ensures { result ≡ record { base = count; count = count; is_staged = false; versions = [] } }
    {
        Versions {
            alloc,
            base: count,
            count,
            is_staged: false,
            keys: IndexMap::new(alloc),
        }
    }

    /// The data that these pairs set, after N commits: what was before is not known. Where a key stands
    /// twice, its last pair counts.
    pub fn from_pairs(
        alloc: Global,
        count: u64,
        pairs: &[(Bytes, Bytes)],
    ) -> Result<Self, AllocError>
        ensures set { IfOk result (λ versions. AreSet versions count pairs.now) }
        ensures pairs { IfOk result (λ versions. keys_rise pairs.now ≡ true → ArePairsOf versions pairs.now) }
    {
        let mut versions = Versions::new(alloc, count);
        for (key, value) in pairs {
            let write = Write {
                key: key.copied(alloc)?,
                value: Some(value.copied(alloc)?),
            };
            versions.set(&write)?;
        }
        Ok(versions)
    }

    /// How many commits were made.
    pub fn count(&self) -> u64
        ensures { result ≡ self.now.count }
    {
        self.count
    }

    /// After how many commits the oldest data are that are kept.
    pub fn base(&self) -> u64
        ensures { result ≡ self.now.base }
    {
        self.base
    }

    /// What a key is.
    pub fn read(&self, key: &[u8]) -> Option<&[u8]>
        ensures { option_map (λ v. v.now) result ≡ value_at self.now self.now.count key.now }
    {
        self.find(self.count, key)
    }

    /// What a key was after N commits. Gone: that is before the base, or N were not made yet.
    pub fn read_at(&self, count: u64, key: &[u8]) -> Result<Option<&[u8]>, Gone>
        ensures ok { IfOk result (λ found. ReadsAt self.now count key.now (option_map (λ v. v.now) found)) }
        ensures err { OnErr result ((count < self.now.base) ⊎ (self.now.count < count)) }
    {
        if count < self.base || self.count < count {
            return Err(Gone);
        }
        Ok(self.find(count, key))
    }

    /// Each key that has a value, and the value, keys rising.
    pub fn pairs(&self) -> Result<Vec<(Bytes, Bytes)>, AllocError>
        ensures { IfOk result (λ pairs. ArePairsOf self.now pairs.items) }
    {
        pairs_of(self.alloc, self.keys.keys().as_slice(), self)
    }

    fn find(&self, count: u64, key: &[u8]) -> Option<&[u8]>
        ensures { option_map (λ v. v.now) result ≡ value_at self.now count key.now }
    {
        value_by(self.versions(key), count)
    }

    #[tactic(auto, using(key_lists::proofs::Tables::list_at_key), unfolding(crate::specs::Versions::rises_from))]
    fn versions(&self, key: &[u8]) -> &[Version]
        ensures versions { result.now ≡ list_at self.now.versions key.now }
        ensures rises { rises_from 0 result.now ≡ true }
    {
        match self.keys.get(key) {
            None => &[],
            Some(versions) => versions.as_slice(),
        }
    }

    /// Stages the writes of the next commit, which nobody sees before it is published. Memory: nothing
    /// changed.
    pub fn stage(&mut self, writes: &[Write]) -> Result<(), AllocError>
        requires unstaged { self.old.is_staged ≡ false }
        requires fits { self.old.count + 1 < 2 ^ 63 }
        ensures ok { OnOk result (Stages self.old self.new writes.now) }
        ensures err { OnErr result (SameData self.old self.new) }
    {
        match push_each(self.alloc, &mut self.keys, self.count + 1, writes) {
            Ok(()) => {
                self.is_staged = true;
                Ok(())
            }
            Err(error) => {
                take_back(&mut self.keys, self.count, writes);
                Err(error)
            }
        }
    }

    /// Makes the staged writes data. It takes no memory.
    pub fn publish(&mut self)
        requires staged { self.old.is_staged ≡ true }
        requires fits { self.old.count + 1 < 2 ^ 63 }
        ensures { Publishes self.old self.new }
    {
        self.count += 1;
        self.is_staged = false;
    }

    /// Forgets what each key was before the last commit, which is the base from then on. A key keeps what it
    /// is, and one without a value goes. It takes no memory, and goes through all keys.
    pub fn rebase(&mut self)
        requires unstaged { self.old.is_staged ≡ false }
        ensures rebases { Rebases self.old self.new }
        ensures kept { self.new.versions ≡ kept_in self.old.versions }
    {
        keep_last_of_each(&mut self.keys);
        self.base = self.count;
    }

    /// Sets a key of the base, as a log has it after a trim: no commit is counted. Memory: nothing changed.
    pub fn set(&mut self, write: &Write) -> Result<(), AllocError>
        requires unstaged { self.old.is_staged ≡ false }
        ensures ok { OnOk result (Sets self.old self.new write.now) }
        ensures err { OnErr result (SameData self.old self.new) }
    {
        push_write(self.alloc, &mut self.keys, self.count, write)?;
        Ok(())
    }

    /// Makes a commit of these writes. Memory: nothing changed.
    pub fn apply(&mut self, writes: &[Write]) -> Result<(), AllocError>
        requires unstaged { self.old.is_staged ≡ false }
        requires fits { self.old.count + 1 < 2 ^ 63 }
        ensures ok { OnOk result (AppliesCommit self.old self.new writes.now) }
        ensures err { OnErr result (SameData self.old self.new) }
    {
        self.stage(writes)?;
        self.publish();
        Ok(())
    }
}

/// What a write leaves, as a version of its own.
fn version_of(alloc: Global, count: u64, write: &Write) -> Result<Version, AllocError>
    ensures { IfOk result (λ version. version ≡ record { count = count; value = write.now.value }) }
{
    let value = match &write.value {
        None => None,
        Some(value) => Some(value.copied(alloc)?),
    };
    Ok(Version { count, value })
}

/// Gives a key one version more.
fn push(alloc: Global, keys: &mut Keys, key: &[u8], version: Version) -> Result<(), AllocError>
    ensures ok { OnOk result (AddsVersion (table_of keys.old.entries)
        (table_of keys.new.entries) key.now version) }
    ensures err { OnErr result (SameLists (table_of keys.old.entries) (table_of keys.new.entries)) }
{
    match keys.get_mut(key) {
        Some(list) => list.push(version)?,
        None => {
            let mut list = Vec::with_capacity(alloc, 1)?;
            list.push(version)?;
            let _ = keys.insert(Vec::from_slice(alloc, key)?, list)?;
        }
    }
    Ok(())
}

/// Gives the key of a write one version more.
fn push_write(alloc: Global, keys: &mut Keys, count: u64, write: &Write) -> Result<(), AllocError>
    ensures ok { OnOk result (AddsVersion (table_of keys.old.entries)
        (table_of keys.new.entries) write.now.key
        (record { count = count; value = write.now.value })) }
    ensures err { OnErr result (SameLists (table_of keys.old.entries) (table_of keys.new.entries)) }
{
    let version = version_of(alloc, count, write)?;
    push(alloc, keys, write.key.as_slice(), version)
}

/// Gives each key one version more for each of its writes.
fn push_each(alloc: Global, keys: &mut Keys, count: u64, writes: &[Write]) -> Result<(), AllocError>
    ensures ok { OnOk result (Adds (table_of keys.old.entries) (table_of keys.new.entries) count writes.now) }
    ensures err { OnErr result (AddsFront (table_of keys.old.entries)
        (table_of keys.new.entries) count writes.now) }
{
    let mut rest = writes;
    while let [write, behind @ ..] = rest {
        push_write(alloc, keys, count, write)?;
        rest = behind;
    }
    Ok(())
}

/// Drops the versions of commits after this one, of the keys of these writes.
fn take_back(keys: &mut Keys, count: u64, writes: &[Write])
    ensures { TakesBack (table_of keys.old.entries) (table_of keys.new.entries) count writes.now }
{
    let mut rest = writes;
    while let [write, behind @ ..] = rest {
        keep_key_up_to(keys, write.key.as_slice(), count);
        rest = behind;
    }
}

/// Each key that has a value keeps the last of its versions, and every other key goes. It takes no memory.
fn keep_last_of_each(keys: &mut Keys)
    ensures kept { table_of keys.new.entries ≡ kept_in (table_of keys.old.entries) }
    ensures once { AreListedOnce keys.old.entries }
{
    // For the proof: `len` tells that no key stands twice.
    let _keys = keys.len();
    keys.retain(
        |_key: &Vec<u8>, versions: &mut Vec<Version>| -> bool
            ensures { (result ≡ has_any (kept_of versions.old.items))
                × (versions.new.items ≡ kept_of versions.old.items) }
        { keep_last(versions) },
    );
}

/// Drops a key's versions of commits after this one.
fn keep_key_up_to(keys: &mut Keys, key: &[u8], count: u64)
    ensures { KeepsUpTo (table_of keys.old.entries) (table_of keys.new.entries) count key.now }
{
    match keys.get_mut(key) {
        Some(list) => keep_up_to(list, count),
        None => {}
    }
}
