//! Opening and closing.

ghost use Rattle.std.specs.Prelude.{◌≡◌, ◌++◌, [], IfOk, if◌then◌else◌};
ghost use Rattle.judge_rules.specs.Falls.{failed};
ghost use Rattle.judge_rules.specs.Steps.{may_fail, open_passes, open_rows};

use crate::branch::{both, one, same_if};
use crate::defects::{Refusals, is_among, is_defective};
use crate::falls::failed;
use crate::replies::Reply;
use crate::words::Rules;
use judge_state::State;
use std::alloc::{AllocError, Global};

/// Whether an open or a close may fail by this answer: RmFail is none of its answers. It is true of an
/// answer that is no failure, too: `failed` gives no state for one.
fn may_fail(reply: Reply) -> bool
    ensures { result ≡ may_fail reply }
{
    !matches!(reply, Reply::RmFail)
}

/// An open or a close fails.
fn open_failed(
    alloc: Global,
    rules: Rules,
    state: &State,
    reply: Reply,
) -> Result<Vec<State>, AllocError>
    ensures { IfOk result (λ v. v.items ≡ (if may_fail reply then failed rules state.now reply else [])) }
{
    if may_fail(reply) {
        failed(alloc, rules, state, reply)
    } else {
        Ok(Vec::new(alloc))
    }
}

/// An open or a close that nothing refuses.
fn open_passes(
    alloc: Global,
    opens: bool,
    state: &State,
    reply: Reply,
) -> Result<Vec<State>, AllocError>
    ensures { IfOk result (λ v. v.items ≡ open_passes opens state.now reply) }
{
    match reply {
        Reply::Ok => one(alloc, state.copied(alloc)?.opened(opens)),
        _ => Ok(Vec::new(alloc)),
    }
}

/// An open or a close.
pub(crate) fn open_rows(
    alloc: Global,
    rules: Rules,
    defects: Refusals,
    opens: bool,
    state: &State,
    reply: Reply,
) -> Result<Vec<State>, AllocError>
    ensures { IfOk result (λ v. v.items ≡ open_rows rules defects opens state.now reply) }
{
    let failed = open_failed(alloc, rules, state, reply)?;
    let rest = if is_defective(defects) {
        same_if(alloc, is_among(defects, reply), state)?
    } else {
        open_passes(alloc, opens, state, reply)?
    };
    both(failed, rest)
}
