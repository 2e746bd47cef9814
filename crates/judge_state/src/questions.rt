//! What is asked of a state.

ghost use Rattle.std.specs.Prelude.{◌≡◌, ◌==◌, find, length};
ghost use Rattle.std.specs.List.{list_any};
ghost use Rattle.judge_state.specs.Parts.{is_named};
ghost use Rattle.judge_state.specs.Questions.{active_of, is_active_link, branch_at, has_active, has_link, has_suspended, is_active, is_associated, is_bare, is_busy, is_busy_elsewhere, is_entered, is_migrated, is_outside, is_scanning};
ghost use Rattle.judge_state.specs.Moves.{is_prepared_at};

use crate::lists::is_prepared;
use crate::parts::{JudgedBranch, Link, Work};
use crate::state::State;

/// The branch of a name.
fn branch_in(branches: &[JudgedBranch], x: u32) -> Option<JudgedBranch>
    ensures { result ≡ find (is_named x) branches.now }
{
    branches.iter().copied().find(|b| b.name == x)
}

/// The association T1 of a thread.
fn active_link(links: &[Link], thread: u32) -> Option<Link>
    ensures { result ≡ find (is_active_link thread) links.now }
{
    links
        .iter()
        .copied()
        .find(|l| l.thread == thread && !l.suspended)
}

impl State {
    /// Whether the manager is open.
    pub fn is_open(&self) -> bool
        ensures { result ≡ self.now.opened }
    {
        self.opened
    }

    /// Whether a call got no answer.
    pub fn is_hung(&self) -> bool
        ensures { result ≡ self.now.hung }
    {
        self.hung
    }

    /// The branches that are known.
    pub fn branches(&self) -> &[JudgedBranch]
        ensures { result.now ≡ self.now.branches }
    {
        &self.branches
    }

    /// The branches that left S3 since the last restart.
    pub fn lost(&self) -> &[JudgedBranch]
        ensures { result.now ≡ self.now.lost }
    {
        &self.lost
    }

    /// What the branches had written that left S3 since the last restart.
    pub fn lost_works(&self) -> &[Work]
        ensures { result.now ≡ self.now.lost_works }
    {
        &self.lost_works
    }

    /// How many values were committed.
    pub fn commits(&self) -> usize
        ensures { result ≡ length self.now.values }
    {
        self.values.len()
    }

    /// The branch of a name, where it is known.
    pub fn branch(&self, x: u32) -> Option<JudgedBranch>
        ensures { result ≡ branch_at x self.now }
    {
        branch_in(&self.branches, x)
    }

    /// Whether a thread is active in some branch.
    pub fn is_active(&self, thread: u32) -> bool
        ensures { result ≡ is_active thread self.now }
    {
        self.links
            .iter()
            .any(|l| l.thread == thread && !l.suspended)
    }

    /// The branch that a thread is active in.
    pub fn active(&self, thread: u32) -> Option<u32>
        ensures { result ≡ active_of thread self.now }
    {
        match active_link(&self.links, thread) {
            None => None,
            Some(link) => Some(link.branch),
        }
    }

    /// Whether a thread is active in a branch: T1.
    pub fn has_active(&self, thread: u32, x: u32) -> bool
        ensures { result ≡ has_active thread x self.now }
    {
        self.links
            .iter()
            .any(|l| l.thread == thread && l.branch == x && !l.suspended)
    }

    /// Whether some thread is active in a branch: S1, where it is at work.
    pub fn is_entered(&self, x: u32) -> bool
        ensures { result ≡ is_entered x self.now }
    {
        self.links.iter().any(|l| l.branch == x && !l.suspended)
    }

    /// Whether a thread has suspended a branch: T2.
    pub fn has_suspended(&self, thread: u32, x: u32) -> bool
        ensures { result ≡ has_suspended thread x self.now }
    {
        self.links
            .iter()
            .any(|l| l.thread == thread && l.branch == x && l.suspended)
    }

    /// Whether a thread is associated with a branch: T1 or T2.
    pub fn has_link(&self, thread: u32, x: u32) -> bool
        ensures { result ≡ has_link thread x self.now }
    {
        self.links
            .iter()
            .any(|l| l.thread == thread && l.branch == x)
    }

    /// Whether an association with a branch is suspended for migration.
    pub fn is_migrated(&self, x: u32) -> bool
        ensures { result ≡ is_migrated x self.now }
    {
        self.migrated.iter().any(|m| *m == x)
    }

    /// Whether some thread is associated with a branch: T1 or T2.
    fn is_linked(&self, x: u32) -> bool
        ensures { result ≡ list_any (λ l. l.branch == x) self.now.links }
    {
        self.links.iter().any(|l| l.branch == x)
    }

    /// Whether a branch has an association of any kind.
    pub fn is_associated(&self, x: u32) -> bool
        ensures { result ≡ is_associated x self.now }
    {
        self.is_linked(x) || self.is_migrated(x)
    }

    /// Whether there is no association at all.
    pub fn is_bare(&self) -> bool
        ensures { result ≡ is_bare self.now }
    {
        self.links.is_empty() && self.migrated.is_empty()
    }

    /// Whether a thread began a branch that is at work.
    pub fn is_busy(&self, thread: u32) -> bool
        ensures { result ≡ is_busy thread self.now }
    {
        self.branches
            .iter()
            .any(|b| b.is_at_work() && b.owner == thread)
    }

    /// Whether a thread began another branch that is at work.
    pub fn is_busy_elsewhere(&self, thread: u32, x: u32) -> bool
        ensures { result ≡ is_busy_elsewhere thread x self.now }
    {
        self.branches
            .iter()
            .any(|b| b.is_at_work() && b.owner == thread && b.name != x)
    }

    /// Whether a thread worked outside of any branch.
    pub fn is_outside(&self, thread: u32) -> bool
        ensures { result ≡ is_outside thread self.now }
    {
        self.outside.iter().any(|t| *t == thread)
    }

    /// Whether a thread has a scan open.
    pub fn is_scanning(&self, thread: u32) -> bool
        ensures { result ≡ is_scanning thread self.now }
    {
        self.scans.iter().any(|t| *t == thread)
    }

    /// Whether the branch of a name is prepared.
    pub fn is_prepared_at(&self, x: u32) -> bool
        ensures { result ≡ is_prepared_at x self.now }
    {
        self.branches
            .iter()
            .any(|b| b.name == x && is_prepared(b.stand))
    }
}
