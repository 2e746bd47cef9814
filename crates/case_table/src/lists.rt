//! The keys of each transaction.

ghost use Rattle.std.specs.Prelude.{◌≡◌, ◌<◌, ℕ, ◌==◌, ◌&&◌, not, IfSome, OnOk, OnErr};
ghost use Rattle.indexmap.specs.IndexMap.{index_map_len};
ghost use Rattle.case_table.specs.Tables.{AreListedOnce, Drops, Lists, SameLists, is_key, place_in};

use indexmap::IndexMap;
use protocol::Txn;
use smallvec::SmallVec;
use std::alloc::{AllocError, Global};

/// The keys of one transaction's cases: mostly one.
pub(crate) type Keys = SmallVec<usize, 1>;

/// Up to this many transactions are gone through, which takes less time than the hash of a name.
const FEW: usize = 3;

/// The place of the transaction's list, if it has one.
pub(crate) fn place_of(keys: &IndexMap<Txn, Keys>, txn: &Txn) -> Option<usize>
    ensures place { result ≡ place_in keys.now.entries txn.now }
    ensures within { IfSome result (λ place. place < index_map_len keys.now) }
    ensures once { AreListedOnce keys.now.entries }
{
    if keys.len() > FEW {
        return keys.get_index_of(txn);
    }
    keys.keys().as_slice().iter().position(|other| txn == other)
}

/// The transaction gets one key more. Memory: nothing changed.
#[tactic(auto, using(crate::proofs::Keys::keys_and_names), unfolding(crate::specs::Tables::is_key))]
pub(crate) fn add_key(
    alloc: Global,
    keys: &mut IndexMap<Txn, Keys>,
    txn: Txn,
    key: usize,
) -> Result<(), AllocError>
    ensures ok { OnOk result (Lists keys.old.entries keys.new.entries txn key) }
    ensures err { OnErr result (SameLists keys.old.entries keys.new.entries) }
{
    match place_of(keys, &txn) {
        Some(place) => keys[place].push(key)?,
        None => {
            let mut list = SmallVec::new(alloc);
            list.push(key)?;
            let _ = keys.insert(txn, list)?;
        }
    }
    Ok(())
}

/// The key leaves the list.
#[tactic(auto, unfolding(crate::specs::Tables::is_key))]
fn without(list: &mut Keys, key: usize)
    ensures { (k : ℕ) → is_key list.new.items k ≡ (is_key list.old.items k && not (key == k)) }
{
    list.retain(
        |other: &mut usize| -> bool
            ensures { (result ≡ not (other.old == key)) × (other.new ≡ other.old) }
        { *other != key },
    );
}

/// The key leaves the transaction's list, and a list of no key goes.
pub(crate) fn drop_key(keys: &mut IndexMap<Txn, Keys>, txn: &Txn, key: usize)
    ensures { Drops keys.old.entries keys.new.entries txn.now key }
{
    let Some(place) = place_of(keys, txn) else {
        return;
    };
    let list = &mut keys[place];
    without(list, key);
    if list.is_empty() {
        let _ = keys.swap_remove_index(place);
    }
}
