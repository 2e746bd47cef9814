//! Small questions about calls, answers and rows.

ghost use Rattle.std.specs.Prelude.{◌≡◌, ◌↔◌, ◌⊎◌, ◌||◌, not, IsTrue};
ghost use Rattle.xa_tables.specs.Tables.{branch_rows};
ghost use Rattle.xa_assoc.specs.Reacting.{resumed};
ghost use Rattle.xa_assoc.specs.Ready.{has_rows};
ghost use Rattle.xa_assoc.specs.Restored.{state_left};

use xa_codes::Code;
use xa_tables::{BranchState, Call, next_branch};

/// Whether the associations refused a call, and so did not change.
pub(crate) fn is_refusal(code: Code) -> bool
    ensures { IsTrue result ↔ ((code ≡ Code.Proto) ⊎ (code ≡ Code.RmErr)) }
{
    code == Code::Proto || code == Code::RmErr
}

/// Where a resume leads a branch that is lost (in S4) or not.
pub(crate) fn resumed(lost: bool) -> BranchState
    ensures { result ≡ resumed lost }
{
    if lost {
        BranchState::S4
    } else {
        BranchState::S1
    }
}

/// Whether a branch is lost, or its work failed.
pub(crate) fn is_failed(lost: bool, succeeds: bool) -> bool
    ensures { result ≡ (lost || not succeeds) }
{
    lost || !succeeds
}

/// Whether the table of branches has a row for a call.
pub(crate) fn has_rows(from: BranchState, call: Call) -> bool
    ensures { result ≡ has_rows (branch_rows from call) }
{
    !next_branch(from, call).is_empty()
}

/// The state of a branch that a restart finds in doubt: decided by an operator, or prepared.
pub(crate) fn state_left(decided: bool) -> BranchState
    ensures { result ≡ state_left decided }
{
    if decided {
        BranchState::S5
    } else {
        BranchState::S3
    }
}
