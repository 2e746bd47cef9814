//! The flags of a call: which are wrong.

ghost use Rattle.std.specs.Prelude.{◌≡◌};
ghost use Rattle.judge_rules.specs.Flags.{are_wrong, has, is_one_of, only, wrong_at_commit, wrong_at_end, wrong_at_recover, wrong_at_start, wrong_elsewhere};

use crate::calls::BranchVerb;
use xa_codes::Flags;

const START: u32 = Flags::TMJOIN.0 | Flags::TMRESUME.0 | Flags::TMNOWAIT.0 | Flags::TMASYNC.0;

const END: u32 = Flags::TMSUSPEND.0
    | Flags::TMSUCCESS.0
    | Flags::TMFAIL.0
    | Flags::TMMIGRATE.0
    | Flags::TMASYNC.0;

const COMMIT: u32 = Flags::TMONEPHASE.0 | Flags::TMNOWAIT.0 | Flags::TMASYNC.0;

const RECOVER: u32 = Flags::TMSTARTRSCAN.0 | Flags::TMENDRSCAN.0;

/// Whether a flag is among these.
pub(crate) fn has(flags: Flags, flag: Flags) -> bool
    ensures { result ≡ has flags.0 flag.0 }
{
    flags.0 & flag.0 == flag.0
}

/// Whether none but these flags are among them.
fn only(flags: Flags, allowed: u32) -> bool
    ensures { result ≡ only flags.0 allowed }
{
    flags.0 & allowed == flags.0
}

/// Whether just one of three holds.
fn is_one_of(a: bool, b: bool, c: bool) -> bool
    ensures { result ≡ is_one_of a b c }
{
    if a {
        !(b || c)
    } else if b {
        !c
    } else {
        c
    }
}

/// Whether flags are no start's.
fn wrong_at_start(flags: Flags) -> bool
    ensures { result ≡ wrong_at_start flags.0 }
{
    !only(flags, START) || (has(flags, Flags::TMJOIN) && has(flags, Flags::TMRESUME))
}

/// Whether flags are no end's.
fn wrong_at_end(flags: Flags) -> bool
    ensures { result ≡ wrong_at_end flags.0 }
{
    let suspends = has(flags, Flags::TMSUSPEND);
    let succeeds = has(flags, Flags::TMSUCCESS);
    let fails = has(flags, Flags::TMFAIL);
    !only(flags, END)
        || !is_one_of(suspends, succeeds, fails)
        || (has(flags, Flags::TMMIGRATE) && !suspends)
}

/// Whether flags are no commit's.
fn wrong_at_commit(flags: Flags) -> bool
    ensures { result ≡ wrong_at_commit flags.0 }
{
    !only(flags, COMMIT)
}

/// Whether there are flags but TMASYNC.
pub(crate) fn wrong_elsewhere(flags: Flags) -> bool
    ensures { result ≡ wrong_elsewhere flags.0 }
{
    !only(flags, Flags::TMASYNC.0)
}

/// Whether flags are no recover's.
pub(crate) fn wrong_at_recover(flags: Flags) -> bool
    ensures { result ≡ wrong_at_recover flags.0 }
{
    !only(flags, RECOVER)
}

/// Whether flags are not a function's, TMASYNC aside.
pub(crate) fn are_wrong(verb: BranchVerb, flags: Flags) -> bool
    ensures { result ≡ are_wrong verb flags.0 }
{
    match verb {
        BranchVerb::Start => wrong_at_start(flags),
        BranchVerb::End => wrong_at_end(flags),
        BranchVerb::Commit => wrong_at_commit(flags),
        BranchVerb::Prepare | BranchVerb::Rollback | BranchVerb::Forget => wrong_elsewhere(flags),
    }
}
