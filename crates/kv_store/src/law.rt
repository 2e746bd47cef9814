//! Laws of the data as pairs.

ghost use Rattle.std.specs.Prelude.{◌≡◌, ℕ, List, true};
ghost use Rattle.protocol.specs.declared.records.Write.{Write as AnyWrite};
ghost use Rattle.kv_store.specs.Pairs.{ArePairsOfValues, WritesPairs, keys_rise};

/// Where the keys rise, writes leave pairs whose keys rise, and each key has what the writes leave it.
pub fn writes_leave_pairs()
    ensures { (ps : List (List ℕ × List ℕ)) (ws : List AnyWrite) → keys_rise ps ≡ true → WritesPairs ps ws }
{}

/// Two lists of pairs whose keys rise, and in which each key has the same value, are one.
pub fn values_are_pairs()
    ensures { ArePairsOfValues }
{}
