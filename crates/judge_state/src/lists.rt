//! Lists of parts, changed.

ghost use Rattle.std.specs.Prelude.{◌≡◌, ◌&&◌, ◌==◌, ◌++◌, ◌∷◌, [], not, Bool, Some, IfOk, IfSome, ◌<◌, length, filter, map, if◌then◌else◌};
ghost use Rattle.judge_state.specs.Parts.{is_in_doubt};
ghost use Rattle.judge_state.specs.Questions.{is_active_link};
ghost use Rattle.judge_state.specs.Moves.{committed_works, doubted, is_of, is_prepared, keeps_name, links_without, lists, new_lines, not_due, others, scans_without, standing, first_place, was_prepared, with_stand, without_due, without_surety, works_of, works_without};

use crate::parts::{JudgedBranch, JudgedWrite, Link, Listed, Stand, Work};
use std::alloc::{AllocError, Global};

/// Whether a branch stands prepared.
pub(crate) fn is_prepared(stand: Stand) -> bool
    ensures { result ≡ is_prepared stand }
{
    matches!(stand, Stand::Prepared)
}

/// Whether a number is that of this branch.
fn is_of(x: u32, branch: Option<u32>) -> bool
    ensures { result ≡ is_of x branch }
{
    match branch {
        None => false,
        Some(y) => y == x,
    }
}

/// A branch that stands so.
fn with_stand(mut branch: JudgedBranch, stand: Stand) -> JudgedBranch
    ensures { result ≡ with_stand stand branch }
{
    branch.stand = stand;
    branch
}

/// A line of a list, no longer due.
fn without_due(mut line: Listed) -> Listed
    ensures { result ≡ without_due line }
{
    line.due = false;
    line
}

/// A value that is not committed for sure.
fn without_surety(mut write: JudgedWrite) -> JudgedWrite
    ensures { result ≡ without_surety write }
{
    write.sure = false;
    write
}

/// The branches of other names.
pub(crate) fn others(
    alloc: Global,
    x: u32,
    branches: &[JudgedBranch],
) -> Result<Vec<JudgedBranch>, AllocError>
    ensures { IfOk result (λ v. v.items ≡ others x branches.now) }
{
    branches
        .iter()
        .filter(|b| b.name != x)
        .copied()
        .collect(alloc)
}

/// The branches, with this one standing so.
pub(crate) fn standing(
    alloc: Global,
    x: u32,
    to: Stand,
    branches: &[JudgedBranch],
) -> Result<Vec<JudgedBranch>, AllocError>
    ensures { IfOk result (λ v. v.items ≡ standing x to branches.now) }
{
    branches
        .iter()
        .map(|b| if b.name == x { with_stand(*b, to) } else { *b })
        .collect(alloc)
}

/// The branches in doubt.
pub(crate) fn in_doubt(
    alloc: Global,
    branches: &[JudgedBranch],
) -> Result<Vec<JudgedBranch>, AllocError>
    ensures { IfOk result (λ v. v.items ≡ filter is_in_doubt branches.now) }
{
    branches
        .iter()
        .filter(|b| b.is_in_doubt())
        .copied()
        .collect(alloc)
}

/// The branch of a name, if it is prepared.
pub(crate) fn was_prepared(
    alloc: Global,
    x: u32,
    branches: &[JudgedBranch],
) -> Result<Vec<JudgedBranch>, AllocError>
    ensures { IfOk result (λ v. v.items ≡ was_prepared x branches.now) }
{
    branches
        .iter()
        .filter(|b| b.name == x && is_prepared(b.stand))
        .copied()
        .collect(alloc)
}

/// What a branch has written.
pub(crate) fn works_of(alloc: Global, x: u32, works: &[Work]) -> Result<Vec<Work>, AllocError>
    ensures { IfOk result (λ v. v.items ≡ works_of x works.now) }
{
    works
        .iter()
        .filter(|w| w.branch == x)
        .copied()
        .collect(alloc)
}

/// What other branches have written.
pub(crate) fn works_without(alloc: Global, x: u32, works: &[Work]) -> Result<Vec<Work>, AllocError>
    ensures { IfOk result (λ v. v.items ≡ works_without x works.now) }
{
    works
        .iter()
        .filter(|w| w.branch != x)
        .copied()
        .collect(alloc)
}

/// What was written, but for this branch under this key.
pub(crate) fn works_but(
    alloc: Global,
    x: u32,
    key: u32,
    works: &[Work],
) -> Result<Vec<Work>, AllocError>
    ensures { IfOk result (λ v. v.items ≡ filter (λ w. not (w.branch == x && w.key == key)) works.now) }
{
    works
        .iter()
        .filter(|w| !(w.branch == x && w.key == key))
        .copied()
        .collect(alloc)
}

/// Whether a branch that is in doubt has this name.
fn keeps_name(branches: &[JudgedBranch], x: u32) -> bool
    ensures { result ≡ keeps_name branches.now x }
{
    branches.iter().any(|b| b.is_in_doubt() && b.name == x)
}

/// What branches in doubt have written.
pub(crate) fn works_in_doubt(
    alloc: Global,
    branches: &[JudgedBranch],
    works: &[Work],
) -> Result<Vec<Work>, AllocError>
    ensures { IfOk result (λ v. v.items ≡ filter (λ w. keeps_name branches.now w.branch) works.now) }
{
    works
        .iter()
        .filter(|w| keeps_name(branches, w.branch))
        .copied()
        .collect(alloc)
}

/// What a branch has written, committed, for sure or maybe.
pub(crate) fn committed_works(
    alloc: Global,
    x: u32,
    sure: bool,
    works: &[Work],
) -> Result<Vec<JudgedWrite>, AllocError>
    ensures { IfOk result (λ v. v.items ≡ committed_works x sure works.now) }
{
    works
        .iter()
        .filter(|w| w.branch == x)
        .map(|w| JudgedWrite {
            branch: Some(x),
            key: w.key,
            value: w.value,
            sure,
        })
        .collect(alloc)
}

/// What was committed, where what this branch committed may not be there.
pub(crate) fn doubted(
    alloc: Global,
    x: u32,
    values: &[JudgedWrite],
) -> Result<Vec<JudgedWrite>, AllocError>
    ensures { IfOk result (λ v. v.items ≡ doubted x values.now) }
{
    values
        .iter()
        .map(|w| if is_of(x, w.branch) {
            without_surety(*w)
        } else {
            *w
        })
        .collect(alloc)
}

/// The associations, without that of a thread with a branch.
pub(crate) fn links_without(
    alloc: Global,
    thread: u32,
    x: u32,
    links: &[Link],
) -> Result<Vec<Link>, AllocError>
    ensures { IfOk result (λ v. v.items ≡ links_without thread x links.now) }
{
    links
        .iter()
        .filter(|l| !(l.thread == thread && l.branch == x))
        .copied()
        .collect(alloc)
}

/// The associations, without the active one of a thread.
pub(crate) fn links_not_active(
    alloc: Global,
    thread: u32,
    links: &[Link],
) -> Result<Vec<Link>, AllocError>
    ensures { IfOk result (λ v. v.items ≡ filter (λ l. not (is_active_link thread l)) links.now) }
{
    links
        .iter()
        .filter(|l| !(l.thread == thread && !l.suspended))
        .copied()
        .collect(alloc)
}

/// The associations with other branches.
pub(crate) fn links_elsewhere(
    alloc: Global,
    x: u32,
    links: &[Link],
) -> Result<Vec<Link>, AllocError>
    ensures { IfOk result (λ v. v.items ≡ filter (λ l. not (l.branch == x)) links.now) }
{
    links
        .iter()
        .filter(|l| l.branch != x)
        .copied()
        .collect(alloc)
}

/// The associations of other threads.
pub(crate) fn links_of_others(
    alloc: Global,
    thread: u32,
    links: &[Link],
) -> Result<Vec<Link>, AllocError>
    ensures { IfOk result (λ v. v.items ≡ filter (λ l. not (l.thread == thread)) links.now) }
{
    links
        .iter()
        .filter(|l| l.thread != thread)
        .copied()
        .collect(alloc)
}

/// Where a number stands first.
pub(crate) fn first_place(x: u32, numbers: &[u32]) -> Option<usize>
    ensures place { result ≡ first_place x numbers.now }
    ensures bound { IfSome result (λ i. i < length numbers.now) }
{
    numbers.iter().position(|y| *y == x)
}

/// Numbers without this one.
pub(crate) fn numbers_without(
    alloc: Global,
    x: u32,
    numbers: &[u32],
) -> Result<Vec<u32>, AllocError>
    ensures { IfOk result (λ v. v.items ≡ filter (λ u. not (u == x)) numbers.now) }
{
    numbers.iter().filter(|u| **u != x).copied().collect(alloc)
}

/// The lists of scans, none of which owes this branch.
pub(crate) fn not_due(alloc: Global, x: u32, listed: &[Listed]) -> Result<Vec<Listed>, AllocError>
    ensures { IfOk result (λ v. v.items ≡ not_due x listed.now) }
{
    listed
        .iter()
        .map(|l| if l.branch == x { without_due(*l) } else { *l })
        .collect(alloc)
}

/// The lists of the scans of other threads.
pub(crate) fn listed_of_others(
    alloc: Global,
    thread: u32,
    listed: &[Listed],
) -> Result<Vec<Listed>, AllocError>
    ensures { IfOk result (λ v. v.items ≡ filter (λ l. not (l.thread == thread)) listed.now) }
{
    listed
        .iter()
        .filter(|l| l.thread != thread)
        .copied()
        .collect(alloc)
}

/// Whether a scan of a thread has a branch on its list.
fn lists(thread: u32, x: u32, listed: &[Listed]) -> bool
    ensures { result ≡ lists thread x listed.now }
{
    listed.iter().any(|l| l.thread == thread && l.branch == x)
}

/// The scans whose list wants a branch.
pub(crate) fn scans_without(
    alloc: Global,
    x: u32,
    listed: &[Listed],
    scans: &[u32],
) -> Result<Vec<u32>, AllocError>
    ensures { IfOk result (λ v. v.items ≡ scans_without x listed.now scans.now) }
{
    scans
        .iter()
        .filter(|t| !lists(**t, x, listed))
        .copied()
        .collect(alloc)
}

/// A branch on the lists of these scans: it may be given, and is not due.
pub(crate) fn new_lines(alloc: Global, x: u32, scans: &[u32]) -> Result<Vec<Listed>, AllocError>
    ensures { IfOk result (λ v. v.items ≡ new_lines x scans.now) }
{
    scans
        .iter()
        .map(|t| Listed {
            thread: *t,
            branch: x,
            given: false,
            due: false,
        })
        .collect(alloc)
}
