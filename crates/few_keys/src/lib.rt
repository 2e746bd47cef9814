//! Floor: spellings and names.
//!
//! Look-ups in maps that mostly hold few keys: few are compared, many are looked up by a hash.
#![tactic(auto)]

ghost use Rattle.std.specs.Prelude.{◌≡◌, position};
ghost use Rattle.indexmap.specs.IndexMap.{keys};

use indexmap::IndexMap;
use std::hash::Hash;

/// So few keys are compared, which takes less time than a hash.
const FEW: usize = 3;

/// Where a key is in a map, if it is there: what `get_index_of` says.
pub fn place_of<K: Eq + Hash, V>(map: &IndexMap<K, V>, key: &K) -> Option<usize>
    ensures { result ≡ position (K.eq key.now) (keys map.now) }
{
    if map.len() > FEW {
        return map.get_index_of(key);
    }
    map.keys().position(|other| key == other)
}
