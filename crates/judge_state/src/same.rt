//! Whether two lists are one.

ghost use Rattle.std.specs.Prelude.{◌≡◌, ◌↔◌, IsTrue};

use crate::parts::{JudgedBranch, JudgedWrite, Link, Listed, Work};

/// Whether two lists of numbers are one.
pub(crate) fn are_numbers(a: &[u32], b: &[u32]) -> bool
    ensures { IsTrue result ↔ (a.now ≡ b.now) }
{
    a == b
}

/// Whether two lists of associations are one.
pub(crate) fn are_links(a: &[Link], b: &[Link]) -> bool
    ensures { IsTrue result ↔ (a.now ≡ b.now) }
{
    a == b
}

/// Whether two lists of branches are one.
pub(crate) fn are_branches(a: &[JudgedBranch], b: &[JudgedBranch]) -> bool
    ensures { IsTrue result ↔ (a.now ≡ b.now) }
{
    a == b
}

/// Whether two lists of what branches have written are one.
pub(crate) fn are_works(a: &[Work], b: &[Work]) -> bool
    ensures { IsTrue result ↔ (a.now ≡ b.now) }
{
    a == b
}

/// Whether two lists of scans are one.
pub(crate) fn are_listed(a: &[Listed], b: &[Listed]) -> bool
    ensures { IsTrue result ↔ (a.now ≡ b.now) }
{
    a == b
}

/// Whether two lists of commits are one.
pub(crate) fn are_values(a: &[JudgedWrite], b: &[JudgedWrite]) -> bool
    ensures { IsTrue result ↔ (a.now ≡ b.now) }
{
    a == b
}
