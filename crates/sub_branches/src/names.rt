//! What a record says of which branch, and whether the branch is a case of the process's own.

ghost use Rattle.std.specs.Prelude.{◌≡◌, ◌↔◌, Some, IfErr, IfOk, IsTrue};
ghost use Rattle.protocol.specs.LogNames.{is_own};
ghost use Rattle.sub_branches.specs.Rebuilt.{IsRefusal, NameReads, own_case, rebuild_number, saying_of};
ghost use Rattle.protocol.specs.Views.{leaf_place};

use log_text::{name_in, name_xid};
use protocol::{BranchName, Case, Outcome, ProcessId, Record, Tree};
use std::alloc::AllocError;
use thiserror::Error;
use xa_xid::Xid;

/// Why nothing was rebuilt.
#[derive(Clone, Copy, Debug, PartialEq, Eq, Error)]
pub enum RebuildError {
    /// There was no memory.
    #[error("no memory")]
    Memory,
    /// The records are those of no log that a subordinate wrote.
    #[error("the records are not those of a subordinate")]
    Unfit,
    /// No boot below 2^63 comes after the last one.
    #[error("numbers are used up")]
    Exhausted,
}

impl RebuildError {
    /// Its number, 1 to 3.
    pub fn number(self) -> u8
        ensures { result ≡ rebuild_number self }
    {
        match self {
            RebuildError::Memory => 1,
            RebuildError::Unfit => 2,
            RebuildError::Exhausted => 3,
        }
    }
}

impl From<AllocError> for RebuildError {
    ghost use Rattle.std.specs.Prelude.{◌≡◌};
    ghost use Rattle.sub_branches.specs.declared.names.RebuildError.TheVariants.{Memory};

    ghost from_gives = { λ _ e. e ≡ Memory };

    fn from(_error: AllocError) -> RebuildError {
        RebuildError::Memory
    }
}

/// What a record says.
#[derive(Clone, Copy, PartialEq, Eq)]
pub(crate) enum Saying {
    /// Nothing of a branch.
    Nothing,
    /// The process opened with this boot.
    Boot(u64),
    /// The branch promised.
    Promises(BranchName),
    /// The branch is finished.
    Ends(BranchName),
    /// An operator decided the branch, and it was told this outcome since.
    Decides(BranchName, Option<Outcome>),
    /// Something of a coordinator's case.
    Coordinates,
}

/// What a record says.
pub(crate) fn saying_of(entry: &Record) -> Saying
    ensures { result ≡ saying_of entry.now }
{
    match entry {
        Record::Opened(boot) => Saying::Boot(*boot),
        Record::Collecting(..)
        | Record::Prepare(..)
        | Record::Commit(..)
        | Record::Abort(..)
        | Record::End(..)
        | Record::Cleared(_) => Saying::Coordinates,
        Record::Prepared(branch, _) => Saying::Promises(*branch),
        Record::Committed(branch)
        | Record::RolledBack(branch)
        | Record::Direct(branch, _)
        | Record::Forgot(branch) => Saying::Ends(*branch),
        Record::HeurCommit(branch) | Record::HeurRollback(branch) => Saying::Decides(*branch, None),
        Record::Told(branch, outcome) => Saying::Decides(*branch, Some(*outcome)),
        Record::Base(_) | Record::Pair(..) => Saying::Nothing,
    }
}

/// Whether a case under this parent is the process's own.
#[tactic(auto, unfolding(protocol::specs::Names::same_process))]
fn is_own(
    me: ProcessId,
    parent: ProcessId,
    tree: &Tree,
    named: Option<ProcessId>,
    case: &Case,
) -> bool
    ensures { result ≡ is_own (leaf_place me parent tree.now) named case.now }
{
    case.txn.root == tree.root()
        && case.ticket.is_some()
        && case.process() == me
        && named == Some(parent)
}

fn is_same_xid(one: &Xid, other: &Xid) -> bool
    ensures { IsTrue result ↔ one.now ≡ other.now }
{
    one == other
}

#[tactic(auto, using(protocol::specs::NameLaws::same_case_tells))]
fn is_same_case(one: &Case, other: &Case) -> bool
    ensures { IsTrue result ↔ one.now ≡ other.now }
{
    one.is(other)
}

/// Whether two branches are one.
fn is_same_branch(one: &BranchName, other: &BranchName) -> bool
    ensures { IsTrue result ↔ one.now ≡ other.now }
{
    match (one, other) {
        (BranchName::Case(one), BranchName::Case(other)) => is_same_case(one, other),
        (BranchName::Foreign(one), BranchName::Foreign(other)) => is_same_xid(one, other),
        _ => false,
    }
}

/// Whether the XID of a name reads as this name.
fn reads_back(parent: Option<ProcessId>, branch: BranchName) -> bool
    ensures { IsTrue result ↔ NameReads parent branch }
{
    let xid = name_xid(parent, branch);
    let _parts = xid.parts();
    let (named, read) = name_in(&xid);
    named == parent && is_same_branch(&read, &branch)
}

/// The case that a branch is, where it is the process's own. Unfit: the XID of its name reads as another
/// name.
pub(crate) fn own_case(
    me: ProcessId,
    parent: ProcessId,
    tree: &Tree,
    named: Option<ProcessId>,
    branch: BranchName,
) -> Result<Option<Case>, RebuildError>
    ensures own { IfOk result (λ own. own ≡ own_case (leaf_place me parent tree.now) named branch) }
    ensures reads { IfOk result (λ own. NameReads named branch) }
    ensures unread { IfErr result (IsRefusal (NameReads named branch)) }
{
    if !reads_back(named, branch) {
        return Err(RebuildError::Unfit);
    }
    match branch {
        BranchName::Case(case) if is_own(me, parent, tree, named, &case) => Ok(Some(case)),
        _ => Ok(None),
    }
}
