//! The codes of answers, XA_RB* as one.

ghost use Rattle.std.specs.Prelude.{◌≡◌};
ghost use Rattle.judge_rules.specs.Replies.{reply_of};

use xa_codes::Code;

/// A code of XA. The eight codes of a branch that was rolled back are one here: no rule tells them apart.
#[derive(Clone, Copy, PartialEq, Eq)]
pub enum Reply {
    Ok,
    RolledBack,
    NoMigrate,
    HeurHaz,
    HeurCom,
    HeurRb,
    HeurMix,
    Retry,
    RdOnly,
    Async,
    RmErr,
    NotA,
    Inval,
    Proto,
    RmFail,
    DupId,
    Outside,
}

/// All of them.
pub const ALL: [Reply; 17] = [
    Reply::Ok,
    Reply::RolledBack,
    Reply::NoMigrate,
    Reply::HeurHaz,
    Reply::HeurCom,
    Reply::HeurRb,
    Reply::HeurMix,
    Reply::Retry,
    Reply::RdOnly,
    Reply::Async,
    Reply::RmErr,
    Reply::NotA,
    Reply::Inval,
    Reply::Proto,
    Reply::RmFail,
    Reply::DupId,
    Reply::Outside,
];

/// What a code is to the rules.
pub fn reply_of(code: Code) -> Reply
    ensures { result ≡ reply_of code }
{
    match code {
        Code::RbRollback
        | Code::RbCommFail
        | Code::RbDeadlock
        | Code::RbIntegrity
        | Code::RbOther
        | Code::RbProto
        | Code::RbTimeout
        | Code::RbTransient => Reply::RolledBack,
        Code::NoMigrate => Reply::NoMigrate,
        Code::HeurHaz => Reply::HeurHaz,
        Code::HeurCom => Reply::HeurCom,
        Code::HeurRb => Reply::HeurRb,
        Code::HeurMix => Reply::HeurMix,
        Code::Retry => Reply::Retry,
        Code::RdOnly => Reply::RdOnly,
        Code::Ok => Reply::Ok,
        Code::Async => Reply::Async,
        Code::RmErr => Reply::RmErr,
        Code::NotA => Reply::NotA,
        Code::Inval => Reply::Inval,
        Code::Proto => Reply::Proto,
        Code::RmFail => Reply::RmFail,
        Code::DupId => Reply::DupId,
        Code::Outside => Reply::Outside,
    }
}
