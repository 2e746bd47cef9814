//! Digests: one number made of many, which is what a name feeds to a hash.

ghost use Rattle.std.specs.Prelude.{◌≡◌};
ghost use Rattle.xa_xid.specs.Digests.{mixed};

/// A digest with one more number mixed in.
#[tactic(auto, unfolding(crate::specs::Digests::mixed))]
pub fn mixed(digest: u64, number: u64) -> u64
    ensures { result ≡ mixed digest number }
{
    (digest.rotate_left(29) ^ number).wrapping_mul(0x9e37_79b9_7f4a_7c15)
}
