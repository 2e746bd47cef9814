//! What must refuse a start or an end, and what may.

ghost use Rattle.std.specs.Prelude.{◌≡◌, Option};
ghost use Rattle.judge_rules.specs.Defects.{end_defects, end_excuses, has_no_end, has_no_start, is_bad_name, is_closed, is_plain, is_second, is_spoiled, is_spoiled_at, lacks_end, lacks_start, start_defects, start_excuses};

use crate::calls::{BranchVerb, On, XidSort};
use crate::defects::Refusals;
use crate::flags::{are_wrong, has};
use crate::words::Rules;
use judge_state::{JudgedBranch, Stand, State};
use xa_codes::Flags;

/// Whether no branch of this manager may have such an XID.
pub(crate) fn is_bad_name(rules: Rules, sort: XidSort) -> bool
    ensures { result ≡ is_bad_name rules sort }
{
    match sort {
        XidSort::Null => true,
        XidSort::Bare => rules.lacks.empty_bqual,
        XidSort::Full => false,
    }
}

/// Whether the manager is not open.
pub(crate) fn is_closed(rules: Rules, state: &State) -> bool
    ensures { result ≡ is_closed rules state.now }
{
    !state.is_open() && !rules.lacks.opening
}

/// Whether a start neither joins nor resumes.
pub(crate) fn is_plain(flags: Flags) -> bool
    ensures { result ≡ is_plain flags.0 }
{
    !has(flags, Flags::TMJOIN) && !has(flags, Flags::TMRESUME)
}

/// Whether a branch can only be rolled back.
fn is_spoiled(branch: JudgedBranch) -> bool
    ensures { result ≡ is_spoiled branch }
{
    match branch.stand {
        Stand::RollbackOnly => true,
        Stand::Active | Stand::Prepared | Stand::Heuristic(_) => false,
    }
}

/// Whether the branch of a call, where it is known, can only be rolled back.
pub(crate) fn is_spoiled_at(branch: Option<JudgedBranch>) -> bool
    ensures { result ≡ is_spoiled_at branch }
{
    match branch {
        None => false,
        Some(branch) => is_spoiled(branch),
    }
}

/// Whether no row lets a start join or resume.
fn has_no_start(branch: Option<JudgedBranch>, flags: Flags, suspended: bool, migrated: bool) -> bool
    ensures { result ≡ has_no_start branch flags.0 suspended migrated }
{
    let resumes = has(flags, Flags::TMRESUME);
    match branch {
        None => resumes,
        Some(branch) => {
            branch.is_in_doubt()
                || (has(flags, Flags::TMJOIN) && (suspended || is_spoiled(branch)))
                || (resumes && !(suspended || migrated))
        }
    }
}

/// What must refuse a start.
pub(crate) fn start_defects(rules: Rules, state: &State, on: On) -> Refusals
    ensures { result ≡ start_defects rules state.now on }
{
    let branch = state.branch(on.xid.number);
    let plain = is_plain(on.flags);
    let suspended = state.has_suspended(on.thread, on.xid.number);
    let migrated = state.is_migrated(on.xid.number);
    Refusals {
        inval: are_wrong(BranchVerb::Start, on.flags) || is_bad_name(rules, on.xid.sort),
        asynchronous: has(on.flags, Flags::TMASYNC),
        proto: is_closed(rules, state)
            || state.is_active(on.thread)
            || (!plain && has_no_start(branch, on.flags, suspended, migrated)),
        dup_id: plain && branch.is_some(),
        not_a: !plain && !branch.is_some(),
        ..Refusals::NONE
    }
}

/// Whether a start is of what is lacking.
fn lacks_start(rules: Rules, flags: Flags) -> bool
    ensures { result ≡ lacks_start rules flags.0 }
{
    (has(flags, Flags::TMJOIN) && rules.lacks.join)
        || (has(flags, Flags::TMRESUME) && rules.lacks.suspend)
}

/// Whether a plain start is by a thread that has a branch at work, where it may have one alone.
fn is_second(rules: Rules, state: &State, on: On) -> bool
    ensures { result ≡ is_second rules state.now on }
{
    is_plain(on.flags) && rules.lacks.threads && state.is_busy(on.thread)
}

/// What may refuse a start besides.
pub(crate) fn start_excuses(rules: Rules, state: &State, on: On) -> Refusals
    ensures { result ≡ start_excuses rules state.now on }
{
    let lacks = lacks_start(rules, on.flags);
    let second = is_second(rules, state, on);
    let branch = state.branch(on.xid.number);
    Refusals {
        inval: lacks,
        proto: lacks || second,
        outside: is_plain(on.flags) && state.is_outside(on.thread),
        rm_err: lacks || second,
        rolled_back: has(on.flags, Flags::TMJOIN) && is_spoiled_at(branch) && !rules.never.rollback,
        ..Refusals::NONE
    }
}

/// Whether no row lets a thread end its association with a branch.
fn has_no_end(known: bool, active: bool, suspended: bool, suspends: bool) -> bool
    ensures { result ≡ has_no_end known active suspended suspends }
{
    !known || !(active || suspended) || (suspended && suspends)
}

/// What must refuse an end.
pub(crate) fn end_defects(rules: Rules, state: &State, on: On) -> Refusals
    ensures { result ≡ end_defects rules state.now on }
{
    let known = state.branch(on.xid.number).is_some();
    let active = state.has_active(on.thread, on.xid.number);
    let suspended = state.has_suspended(on.thread, on.xid.number);
    let suspends = has(on.flags, Flags::TMSUSPEND);
    Refusals {
        inval: are_wrong(BranchVerb::End, on.flags) || is_bad_name(rules, on.xid.sort),
        asynchronous: has(on.flags, Flags::TMASYNC),
        proto: is_closed(rules, state) || has_no_end(known, active, suspended, suspends),
        not_a: !known,
        ..Refusals::NONE
    }
}

/// Whether an end is of what is lacking.
fn lacks_end(rules: Rules, flags: Flags) -> bool
    ensures { result ≡ lacks_end rules flags.0 }
{
    (has(flags, Flags::TMSUSPEND) && rules.lacks.suspend)
        || (has(flags, Flags::TMMIGRATE) && rules.lacks.migrate)
}

/// What may refuse an end besides.
pub(crate) fn end_excuses(rules: Rules, on: On) -> Refusals
    ensures { result ≡ end_excuses rules on }
{
    let lacks = lacks_end(rules, on.flags);
    Refusals {
        inval: lacks,
        proto: lacks,
        rm_err: lacks,
        ..Refusals::NONE
    }
}
