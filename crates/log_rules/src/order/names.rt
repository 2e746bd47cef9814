//! The keys that writes name, and their order.

ghost use Rattle.std.specs.Prelude.{◌≡◌};
ghost use Rattle.protocol.specs.Records.{same_bytes};
ghost use Rattle.protocol.specs.Store.{key_below};
ghost use Rattle.log_rules.specs.order.Orders.{keys_once, names_key};

use protocol::Write;

#[tactic(auto, using(crate::proofs::order::Keys::same_bytes_is_equality))]
fn same_key(one: &[u8], other: &[u8]) -> bool
    ensures { result ≡ same_bytes one.now other.now }
{
    one == other
}

/// Whether a write is of this key.
#[tactic(auto, unfolding(crate::specs::order::Orders::names_key))]
pub(crate) fn names_key(writes: &[Write], key: &[u8]) -> bool
    ensures { result ≡ names_key writes.now key.now }
{
    let mut rest = writes;
    while let [write, behind @ ..] = rest {
        if same_key(write.key.as_slice(), key) {
            return true;
        }
        rest = behind;
    }
    false
}

/// Whether no key is named twice.
#[tactic(auto, unfolding(crate::specs::order::Orders::keys_once))]
pub(crate) fn keys_once(writes: &[Write]) -> bool
    ensures { result ≡ keys_once writes.now }
{
    let mut rest = writes;
    while let [write, behind @ ..] = rest {
        if names_key(behind, write.key.as_slice()) {
            return false;
        }
        rest = behind;
    }
    true
}

/// Whether a key comes before another, by their bytes.
#[tactic(auto, unfolding(protocol::specs::Store::key_below))]
pub(crate) fn key_below(one: &[u8], other: &[u8]) -> bool
    ensures { result ≡ key_below one.now other.now }
{
    let [b, rights @ ..] = other else {
        return false;
    };
    let [a, lefts @ ..] = one else {
        return true;
    };
    if *a == *b {
        key_below(lefts, rights)
    } else {
        *a < *b
    }
}
