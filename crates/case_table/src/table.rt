//! Live cases under keys.

ghost use Rattle.std.specs.Prelude.{◌≡◌, ℕ, false, None, Some, IsSome, IfOk, IfSome, OnErr, [], find, option_copied};
ghost use Rattle.std.specs.Borrow.{sem};
ghost use Rattle.std.specs.Fn.{FnReturnsAt};
ghost use Rattle.std.specs.Option.{option_copied_mut};
ghost use Rattle.case_table.specs.Tables.{
  AreApart,
  FindsKey,
  FindsBy,
  Inserts,
  Removes,
  case_of,
  entry_at,
  is_key,
  is_of_case,
  is_of_txn,
  live_count,
  live_value,
  value_at,
};

use crate::lists::{Keys, add_key, drop_key, place_of};
use indexmap::IndexMap;
use protocol::{Case, Txn};
use slab::Slab;
use std::alloc::{AllocError, Global};
use std::marker::Model;

/// Values of cases, each under a key, and the keys of each transaction in order of insertion.
#[derive(Drop)]
pub struct LiveTable<V: Drop> {
    alloc: Global,
    slots: Slab<(Case, V)>,
    keys: IndexMap<Txn, Keys>,
}

impl<V: Drop> Model for LiveTable<V> {
    ghost use Rattle.std.specs.Prelude.{List, Option};
    ghost use Rattle.protocol_words.specs.Types.{AnyCase};

    ghost Value = { List (Option (AnyCase × V)) };

    ghost use Rattle.case_table.specs.Tables.{IsLiveTable};

    ghost view = { λ t. t.slots.slots };

    ghost invariant = { λ t. IsLiveTable t.slots.slots t.keys.entries };
}

/// Whether the entry under the key is of the case.
fn is_of<V: Drop>(slots: &Slab<(Case, V)>, key: usize, case: &Case) -> bool
    ensures { result ≡ is_of_case case.now (entry_at slots.now.slots key) }
{
    match slots.get(key) {
        None => false,
        Some((owner, _)) => owner.is(case),
    }
}

/// The first of the keys whose entry is of the case.
fn find_case<V: Drop>(slots: &Slab<(Case, V)>, keys: &[usize], case: &Case) -> Option<usize>
    ensures { result ≡ find (λ k. is_of_case case.now (entry_at slots.now.slots k)) keys.now }
{
    keys.iter().copied().find(|key| is_of(slots, *key, case))
}

impl<V: Drop> LiveTable<V> {
    ghost use Rattle.case_table.specs.Lends.{lends_get};

    /// An empty table. It takes no memory.
    pub fn new(alloc: Global) -> Self
        ensures { result ≡ [] }
    {
        LiveTable {
            alloc,
            slots: Slab::new(alloc),
            keys: IndexMap::new(alloc),
        }
    }

    /// How many cases are live.
    pub fn len(&self) -> usize
        ensures count { result ≡ live_count self.now }
        ensures apart { AreApart self.now }
    {
        self.slots.len()
    }

    /// The value under the key.
    pub fn get(&self, key: usize) -> Option<&V>
        ensures { option_copied result ≡ value_at self.now key }
    {
        match self.slots.get(key) {
            None => None,
            Some((_, value)) => Some(value),
        }
    }

    /// The case under the key.
    pub fn case_at(&self, key: usize) -> Option<Case>
        ensures { result ≡ case_of (entry_at self.now key) }
    {
        match self.slots.get(key) {
            None => None,
            Some((case, _)) => Some(*case),
        }
    }

    /// The keys of the transaction's cases.
    #[tactic(auto, unfolding(crate::specs::Tables::is_key))]
    pub fn keys(&self, txn: &Txn) -> &[usize]
        ensures { (k : ℕ) → is_key result.now k ≡ is_of_txn txn.now (entry_at self.now k) }
    {
        match place_of(&self.keys, txn) {
            None => &[],
            Some(place) => self.keys[place].as_slice(),
        }
    }

    /// The key of the case, if it is live.
    pub fn find(&self, case: &Case) -> Option<usize>
        ensures finds { FindsKey self.now case.now result }
        ensures apart { AreApart self.now }
    {
        find_case(&self.slots, self.keys(&case.txn), case)
    }

    /// The key of a case of the transaction whose value passes the test: the first one, in order of
    /// insertion.
    pub fn find_by<F: Fn(&V) -> bool>(&self, txn: &Txn, test: F) -> Option<usize>
        requires { F.IsAlwaysCallable test }
        ensures finds { FindsBy (λ v b. FnReturnsAt F.Fn test v b) self.now txn.now result }
        ensures apart { AreApart self.now }
    {
        let slots = &self.slots;
        for key in self.keys(txn) {
            if let Some((_, value)) = slots.get(*key) {
                if test(value) {
                    return Some(*key);
                }
            }
        }
        None
    }

    /// A case that was not live, under a key of no other. Memory: nothing changed.
    pub fn insert(&mut self, case: Case, value: V) -> Result<usize, AllocError>
        requires { live_value self.old case ≡ None }
        ensures ok { IfOk result (λ key. Inserts self.old self.new case value key) }
        ensures err { OnErr result (self.new ≡ self.old) }
    {
        self.slots.reserve(1)?;
        let key = self.slots.vacant_key();
        add_key(self.alloc, &mut self.keys, case.txn, key)?;
        Ok(self.slots.insert_reserved((case, value)))
    }

    /// Takes the case under the key out; its value is handed back. It takes no memory.
    pub fn remove(&mut self, key: usize) -> V
        requires { IsSome (entry_at self.old key) }
        ensures { Removes self.old self.new key result }
    {
        let (case, value) = self.slots.remove(key);
        drop_key(&mut self.keys, &case.txn, key);
        value
    }

    /// The value under the key, to be changed in its place; it stays its case's.
    pub fn get_mut(&mut self, key: usize) -> Option<&mut V>
        ensures* writes_back { sem 𝓛 (lends_get V.row self.entry key result) }
        ensures value { option_copied_mut result ≡ value_at self.old key }
        ensures apart { AreApart self.old }
    {
        match self.slots.get_mut(key) {
            Some(entry) => Some(&mut entry.1),
            None => None,
        }
    }
}
