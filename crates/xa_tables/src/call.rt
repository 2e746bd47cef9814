//! The calls of the interface, each with the flags that matter to the tables.

ghost use Rattle.std.specs.Prelude.{◌≡◌};
ghost use Rattle.xa_tables.specs.Calls.{call_of, legal};

use xa_codes::{Code, Flags};

/// A function of the interface, without its flags.
#[derive(Clone, Copy, PartialEq, Eq)]
pub enum Verb {
    Open,
    Close,
    Start,
    End,
    Prepare,
    Commit,
    Rollback,
    Forget,
    Recover,
}

/// A function of the interface with its flags. TMNOWAIT has no effect and is left out.
#[derive(Clone, Copy, PartialEq, Eq)]
pub enum Call {
    Open,
    Close,
    Start,
    /// TMJOIN.
    StartJoin,
    /// TMRESUME.
    StartResume,
    /// TMSUSPEND.
    EndSuspend,
    /// TMSUSPEND and TMMIGRATE.
    EndMigrate,
    /// TMSUCCESS.
    EndSuccess,
    /// TMFAIL.
    EndFail,
    Prepare,
    Commit,
    /// TMONEPHASE.
    CommitOnePhase,
    Rollback,
    Forget,
    Recover,
    /// TMSTARTRSCAN.
    RecoverStart,
    /// TMENDRSCAN.
    RecoverEnd,
    /// TMSTARTRSCAN and TMENDRSCAN.
    RecoverWhole,
}

const NO_FLAGS: u32 = Flags::TMNOFLAGS.0;

const NO_WAIT: u32 = Flags::TMNOWAIT.0;

const JOIN: u32 = Flags::TMJOIN.0;

const JOIN_NO_WAIT: u32 = Flags::TMJOIN.0 | Flags::TMNOWAIT.0;

const RESUME: u32 = Flags::TMRESUME.0;

const RESUME_NO_WAIT: u32 = Flags::TMRESUME.0 | Flags::TMNOWAIT.0;

const SUSPEND: u32 = Flags::TMSUSPEND.0;

const MIGRATE: u32 = Flags::TMSUSPEND.0 | Flags::TMMIGRATE.0;

const SUCCESS: u32 = Flags::TMSUCCESS.0;

const FAIL: u32 = Flags::TMFAIL.0;

const ONE_PHASE: u32 = Flags::TMONEPHASE.0;

const ONE_PHASE_NO_WAIT: u32 = Flags::TMONEPHASE.0 | Flags::TMNOWAIT.0;

const START_SCAN: u32 = Flags::TMSTARTRSCAN.0;

const END_SCAN: u32 = Flags::TMENDRSCAN.0;

const WHOLE_SCAN: u32 = Flags::TMSTARTRSCAN.0 | Flags::TMENDRSCAN.0;

const ASYNC: u32 = Flags::TMASYNC.0;

/// The call of a verb with these flags, where they are legal and TMASYNC is not among them.
fn call_with(verb: Verb, flags: u32) -> Option<Call>
    ensures { result ≡ call_of verb flags }
{
    match (verb, flags) {
        (Verb::Open, NO_FLAGS) => Some(Call::Open),
        (Verb::Close, NO_FLAGS) => Some(Call::Close),
        (Verb::Start, NO_FLAGS | NO_WAIT) => Some(Call::Start),
        (Verb::Start, JOIN | JOIN_NO_WAIT) => Some(Call::StartJoin),
        (Verb::Start, RESUME | RESUME_NO_WAIT) => Some(Call::StartResume),
        (Verb::End, SUSPEND) => Some(Call::EndSuspend),
        (Verb::End, MIGRATE) => Some(Call::EndMigrate),
        (Verb::End, SUCCESS) => Some(Call::EndSuccess),
        (Verb::End, FAIL) => Some(Call::EndFail),
        (Verb::Prepare, NO_FLAGS) => Some(Call::Prepare),
        (Verb::Commit, NO_FLAGS | NO_WAIT) => Some(Call::Commit),
        (Verb::Commit, ONE_PHASE | ONE_PHASE_NO_WAIT) => Some(Call::CommitOnePhase),
        (Verb::Rollback, NO_FLAGS) => Some(Call::Rollback),
        (Verb::Forget, NO_FLAGS) => Some(Call::Forget),
        (Verb::Recover, NO_FLAGS) => Some(Call::Recover),
        (Verb::Recover, START_SCAN) => Some(Call::RecoverStart),
        (Verb::Recover, END_SCAN) => Some(Call::RecoverEnd),
        (Verb::Recover, WHOLE_SCAN) => Some(Call::RecoverWhole),
        _ => None,
    }
}

/// The call that a verb and its flags make. Inval: the flags are illegal at the verb. Async: TMASYNC beside
/// flags that are legal, at any verb but recover, where TMASYNC is illegal itself.
pub fn legal_call(verb: Verb, flags: Flags) -> Result<Call, Code>
    ensures { result ≡ legal verb flags.0 }
{
    if let Some(call) = call_with(verb, flags.0) {
        return Ok(call);
    }
    if verb == Verb::Recover || flags.0 < ASYNC {
        return Err(Code::Inval);
    }
    match call_with(verb, flags.0 - ASYNC) {
        Some(_) => Err(Code::Async),
        None => Err(Code::Inval),
    }
}
