//! Why a call must be refused, and by which codes it may be.

ghost use Rattle.std.specs.Prelude.{◌≡◌};
ghost use Rattle.judge_rules.specs.Replies.{is_among, is_defective};
ghost use Rattle.judge_rules.specs.Defects.{no_refusals};

use crate::replies::Reply;

/// Codes that refuse a call.
#[derive(Clone, Copy, PartialEq, Eq)]
pub struct Refusals {
    pub inval: bool,
    pub asynchronous: bool,
    pub proto: bool,
    pub dup_id: bool,
    pub not_a: bool,
    pub outside: bool,
    pub rm_err: bool,
    pub rolled_back: bool,
}

impl Refusals {
    /// None of them.
    pub(crate) const NONE: Refusals = Refusals {
        inval: false,
        asynchronous: false,
        proto: false,
        dup_id: false,
        not_a: false,
        outside: false,
        rm_err: false,
        rolled_back: false,
    };
}

/// Whether a code is among these.
pub(crate) fn is_among(refusals: Refusals, reply: Reply) -> bool
    ensures { result ≡ is_among refusals reply }
{
    match reply {
        Reply::Inval => refusals.inval,
        Reply::Async => refusals.asynchronous,
        Reply::Proto => refusals.proto,
        Reply::DupId => refusals.dup_id,
        Reply::NotA => refusals.not_a,
        Reply::Outside => refusals.outside,
        Reply::RmErr => refusals.rm_err,
        Reply::RolledBack => refusals.rolled_back,
        Reply::Ok
        | Reply::NoMigrate
        | Reply::HeurHaz
        | Reply::HeurCom
        | Reply::HeurRb
        | Reply::HeurMix
        | Reply::Retry
        | Reply::RdOnly
        | Reply::RmFail => false,
    }
}

/// Whether there is a defect among these.
pub(crate) fn is_defective(refusals: Refusals) -> bool
    ensures { result ≡ is_defective refusals }
{
    refusals.inval || refusals.asynchronous || refusals.proto || refusals.dup_id || refusals.not_a
}
