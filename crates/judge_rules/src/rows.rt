//! What must refuse the other calls, and what may.

ghost use Rattle.std.specs.Prelude.{◌≡◌, Option};
ghost use Rattle.judge_rules.specs.Defects.{branch_defects, branch_excuses, close_defects, decides, finish_defects, finish_excuses, has_row, is_forget, is_off_row, is_strange, is_unscanned, open_defects, recover_defects, recover_excuses};

use crate::calls::{BranchVerb, On};
use crate::defects::Refusals;
use crate::flags::{are_wrong, has, wrong_at_recover, wrong_elsewhere};
use crate::starts::{
    end_defects, end_excuses, is_bad_name, is_closed, start_defects, start_excuses,
};
use crate::words::Rules;
use judge_state::{JudgedBranch, Stand, State};
use xa_codes::Flags;

/// Whether a branch that stands so has a row for a call that ends it.
fn has_row(verb: BranchVerb, flags: Flags, stand: Stand) -> bool
    ensures { result ≡ has_row verb flags.0 stand }
{
    match (verb, stand) {
        (BranchVerb::Prepare, Stand::Active)
        | (BranchVerb::Rollback, _)
        | (BranchVerb::Forget, Stand::Heuristic(_)) => true,
        (BranchVerb::Commit, Stand::Active) => has(flags, Flags::TMONEPHASE),
        (BranchVerb::Commit, Stand::Prepared | Stand::Heuristic(_)) => {
            !has(flags, Flags::TMONEPHASE)
        }
        _ => false,
    }
}

/// Whether a function is forget.
fn is_forget(verb: BranchVerb) -> bool
    ensures { result ≡ is_forget verb }
{
    matches!(verb, BranchVerb::Forget)
}

/// Whether a function is commit or rollback.
fn decides(verb: BranchVerb) -> bool
    ensures { result ≡ decides verb }
{
    matches!(verb, BranchVerb::Commit | BranchVerb::Rollback)
}

/// Whether a known branch has no row for such a call.
fn is_off_row(verb: BranchVerb, flags: Flags, branch: Option<JudgedBranch>) -> bool
    ensures { result ≡ is_off_row verb flags.0 branch }
{
    match branch {
        None => false,
        Some(branch) => !has_row(verb, flags, branch.stand),
    }
}

/// What must refuse a prepare, commit, rollback or forget.
fn finish_defects(rules: Rules, verb: BranchVerb, state: &State, on: On) -> Refusals
    ensures { result ≡ finish_defects rules verb state.now on }
{
    let branch = state.branch(on.xid.number);
    let known = branch.is_some();
    let off_row = is_off_row(verb, on.flags, branch);
    let forget = is_forget(verb);
    Refusals {
        inval: are_wrong(verb, on.flags) || is_bad_name(rules, on.xid.sort),
        asynchronous: has(on.flags, Flags::TMASYNC),
        proto: is_closed(rules, state)
            || (known && state.is_associated(on.xid.number) && !forget)
            || off_row,
        not_a: !known || (forget && off_row),
        ..Refusals::NONE
    }
}

/// Whether a thread may not end a branch where a branch is bound to its thread.
fn is_strange(
    verb: BranchVerb,
    thread: u32,
    x: u32,
    state: &State,
    branch: Option<JudgedBranch>,
) -> bool
    ensures { result ≡ is_strange verb thread x state.now branch }
{
    match branch {
        None => false,
        Some(branch) => {
            (branch.is_at_work() && branch.owner != thread)
                || (decides(verb) && state.is_busy_elsewhere(thread, x))
        }
    }
}

/// What may refuse such a call besides.
fn finish_excuses(rules: Rules, verb: BranchVerb, state: &State, on: On) -> Refusals
    ensures { result ≡ finish_excuses rules verb state.now on }
{
    let branch = state.branch(on.xid.number);
    let strange = rules.lacks.threads && is_strange(verb, on.thread, on.xid.number, state, branch);
    Refusals {
        proto: strange,
        not_a: strange,
        rm_err: strange,
        ..Refusals::NONE
    }
}

/// What must refuse a call on a branch.
pub(crate) fn branch_defects(rules: Rules, verb: BranchVerb, state: &State, on: On) -> Refusals
    ensures { result ≡ branch_defects rules verb state.now on }
{
    match verb {
        BranchVerb::Start => start_defects(rules, state, on),
        BranchVerb::End => end_defects(rules, state, on),
        BranchVerb::Prepare | BranchVerb::Commit | BranchVerb::Rollback | BranchVerb::Forget =>
            finish_defects(rules, verb, state, on),
    }
}

/// What may refuse it besides.
pub(crate) fn branch_excuses(rules: Rules, verb: BranchVerb, state: &State, on: On) -> Refusals
    ensures { result ≡ branch_excuses rules verb state.now on }
{
    match verb {
        BranchVerb::Start => start_excuses(rules, state, on),
        BranchVerb::End => end_excuses(rules, on),
        BranchVerb::Prepare | BranchVerb::Commit | BranchVerb::Rollback | BranchVerb::Forget =>
            finish_excuses(rules, verb, state, on),
    }
}

/// What must refuse an open.
pub(crate) fn open_defects(flags: Flags) -> Refusals
    ensures { result ≡ open_defects flags.0 }
{
    Refusals {
        inval: wrong_elsewhere(flags),
        asynchronous: has(flags, Flags::TMASYNC),
        ..Refusals::NONE
    }
}

/// What must refuse a close.
pub(crate) fn close_defects(state: &State, flags: Flags) -> Refusals
    ensures { result ≡ close_defects state.now flags.0 }
{
    Refusals {
        proto: !state.is_bare(),
        ..open_defects(flags)
    }
}

/// Whether a recover is by a thread without a scan, and starts none.
pub(crate) fn is_unscanned(state: &State, thread: u32, flags: Flags) -> bool
    ensures { result ≡ is_unscanned state.now thread flags.0 }
{
    !has(flags, Flags::TMSTARTRSCAN) && !state.is_scanning(thread)
}

/// What must refuse a recover.
pub(crate) fn recover_defects(rules: Rules, state: &State, thread: u32, flags: Flags) -> Refusals
    ensures { result ≡ recover_defects rules state.now thread flags.0 }
{
    Refusals {
        inval: wrong_at_recover(flags) || (is_unscanned(state, thread, flags) && !rules.lacks.scan),
        proto: is_closed(rules, state),
        ..Refusals::NONE
    }
}

/// What may refuse a recover besides.
pub(crate) fn recover_excuses(rules: Rules, state: &State, thread: u32, flags: Flags) -> Refusals
    ensures { result ≡ recover_excuses rules state.now thread flags.0 }
{
    Refusals {
        inval: is_unscanned(state, thread, flags) && rules.lacks.scan,
        ..Refusals::NONE
    }
}
