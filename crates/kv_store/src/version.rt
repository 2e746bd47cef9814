//! The versions of one key.

ghost use Rattle.std.specs.Prelude.{◌≡◌, None, option_map, true};
ghost use Rattle.kv_store.specs.Versions.{IsPlace, has_any, is_up_to, kept_of, rises_from, up_to, value_by};

use protocol::Bytes;

/// What a key was from a commit on: a value, or nothing.
#[derive(Drop)]
pub struct Version {
    pub count: u64,
    pub value: Option<Bytes>,
}

impl Version {
    /// Whether it is of a commit up to this one.
    fn is_up_to(&self, count: u64) -> bool
        ensures { result ≡ is_up_to count self.now }
    {
        self.count <= count
    }

    fn value(&self) -> Option<&[u8]>
        ensures { option_map (λ v. v.now) result ≡ self.now.value }
    {
        match &self.value {
            None => None,
            Some(value) => Some(value.as_slice()),
        }
    }
}

/// How many of the versions, which rise, are of commits up to this one; found by halving.
fn place_of(versions: &[Version], count: u64) -> usize
    requires { rises_from 0 versions.now ≡ true }
    ensures { IsPlace count versions.now result }
{
    versions.partition_point(|version| version.is_up_to(count))
}

/// The value of the last version that is not above a count.
pub(crate) fn value_by(versions: &[Version], count: u64) -> Option<&[u8]>
    requires { rises_from 0 versions.now ≡ true }
    ensures { option_map (λ v. v.now) result ≡ value_by count None versions.now }
{
    let place = place_of(versions, count);
    if place == 0 {
        return None;
    }
    versions[place - 1].value()
}

/// Drops the versions of later commits.
pub(crate) fn keep_up_to(versions: &mut Vec<Version>, count: u64)
    ensures { versions.new.items ≡ up_to count versions.old.items }
{
    versions.retain(|version| version.is_up_to(count));
}

/// Drops each version but the last one, and that one too if it has no value; tells whether it stays. It takes
/// no memory, and the list keeps its own.
pub(crate) fn keep_last(versions: &mut Vec<Version>) -> bool
    ensures kept { versions.new.items ≡ kept_of versions.old.items }
    ensures stays { result ≡ has_any (kept_of versions.old.items) }
{
    let Some(last) = versions.pop() else {
        return false;
    };
    versions.clear();
    if last.value.is_none() {
        return false;
    }
    versions.push_reserved(last);
    true
}
