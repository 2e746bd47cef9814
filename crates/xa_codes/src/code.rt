//! What a resource manager answers.

ghost use Rattle.std.specs.Prelude.{◌≡◌, ◌≢◌, ◌≤ℤ◌, pos, IfSome, IfNone, IsTrue, ◌↔◌};
ghost use Rattle.xa_codes.specs.Codes.{code_number, code_name};
ghost use Rattle.xa_codes.specs.declared.code.Code.{Code as AnyCode};

/// What a resource manager answers to a call.
#[derive(Clone, Copy, PartialEq, Eq)]
pub enum Code {
    /// The branch was rolled back, for no reason that is told.
    RbRollback,
    /// The branch was rolled back: a failure of communication.
    RbCommFail,
    /// The branch was rolled back: a deadlock.
    RbDeadlock,
    /// The branch was rolled back: the data would have been inconsistent.
    RbIntegrity,
    /// The branch was rolled back, for a reason that has no code.
    RbOther,
    /// The branch was rolled back: an error of protocol within the resource manager.
    RbProto,
    /// The branch was rolled back: it took too long.
    RbTimeout,
    /// The branch was rolled back: it may be tried again.
    RbTransient,
    /// The branch is suspended, and the same thread alone may resume it.
    NoMigrate,
    /// The branch may have been ended heuristically.
    HeurHaz,
    /// The branch was committed heuristically.
    HeurCom,
    /// The branch was rolled back heuristically.
    HeurRb,
    /// The branch was in part committed and in part rolled back heuristically.
    HeurMix,
    /// The call had no effect and may be made again.
    Retry,
    /// The branch read only and is ended.
    RdOnly,
    /// The call did what it was asked.
    Ok,
    /// The flags ask for an asynchronous call, which is not offered.
    Async,
    /// The resource manager could not do it.
    RmErr,
    /// There is no such branch.
    NotA,
    /// An argument is wrong.
    Inval,
    /// The call is not allowed in this state.
    Proto,
    /// The resource manager failed.
    RmFail,
    /// There is such a branch already.
    DupId,
    /// The thread is doing work outside of any branch.
    Outside,
}

impl Code {
    /// The number that C193 gives the answer, from -9 to 107.
    pub fn number(self) -> i32
        ensures { result ≡ code_number self }
    {
        match self {
            Code::RbRollback => 100,
            Code::RbCommFail => 101,
            Code::RbDeadlock => 102,
            Code::RbIntegrity => 103,
            Code::RbOther => 104,
            Code::RbProto => 105,
            Code::RbTimeout => 106,
            Code::RbTransient => 107,
            Code::NoMigrate => 9,
            Code::HeurHaz => 8,
            Code::HeurCom => 7,
            Code::HeurRb => 6,
            Code::HeurMix => 5,
            Code::Retry => 4,
            Code::RdOnly => 3,
            Code::Ok => 0,
            Code::Async => -2,
            Code::RmErr => -3,
            Code::NotA => -4,
            Code::Inval => -5,
            Code::Proto => -6,
            Code::RmFail => -7,
            Code::DupId => -8,
            Code::Outside => -9,
        }
    }

    /// The answer of a number: None if no answer has that number.
    pub fn from_number(number: i32) -> Option<Code>
        ensures found { IfSome result (λ code. code_number code ≡ number) }
        ensures none { IfNone result ((code : AnyCode) → code_number code ≢ number) }
    {
        match number {
            100 => Some(Code::RbRollback),
            101 => Some(Code::RbCommFail),
            102 => Some(Code::RbDeadlock),
            103 => Some(Code::RbIntegrity),
            104 => Some(Code::RbOther),
            105 => Some(Code::RbProto),
            106 => Some(Code::RbTimeout),
            107 => Some(Code::RbTransient),
            9 => Some(Code::NoMigrate),
            8 => Some(Code::HeurHaz),
            7 => Some(Code::HeurCom),
            6 => Some(Code::HeurRb),
            5 => Some(Code::HeurMix),
            4 => Some(Code::Retry),
            3 => Some(Code::RdOnly),
            0 => Some(Code::Ok),
            -2 => Some(Code::Async),
            -3 => Some(Code::RmErr),
            -4 => Some(Code::NotA),
            -5 => Some(Code::Inval),
            -6 => Some(Code::Proto),
            -7 => Some(Code::RmFail),
            -8 => Some(Code::DupId),
            -9 => Some(Code::Outside),
            _ => None,
        }
    }

    /// The name that C193 gives the answer, as `XA_OK`.
    pub fn name(self) -> &'static str
        ensures { result.now ≡ code_name self }
    {
        match self {
            Code::RbRollback => "XA_RBROLLBACK",
            Code::RbCommFail => "XA_RBCOMMFAIL",
            Code::RbDeadlock => "XA_RBDEADLOCK",
            Code::RbIntegrity => "XA_RBINTEGRITY",
            Code::RbOther => "XA_RBOTHER",
            Code::RbProto => "XA_RBPROTO",
            Code::RbTimeout => "XA_RBTIMEOUT",
            Code::RbTransient => "XA_RBTRANSIENT",
            Code::NoMigrate => "XA_NOMIGRATE",
            Code::HeurHaz => "XA_HEURHAZ",
            Code::HeurCom => "XA_HEURCOM",
            Code::HeurRb => "XA_HEURRB",
            Code::HeurMix => "XA_HEURMIX",
            Code::Retry => "XA_RETRY",
            Code::RdOnly => "XA_RDONLY",
            Code::Ok => "XA_OK",
            Code::Async => "XAER_ASYNC",
            Code::RmErr => "XAER_RMERR",
            Code::NotA => "XAER_NOTA",
            Code::Inval => "XAER_INVAL",
            Code::Proto => "XAER_PROTO",
            Code::RmFail => "XAER_RMFAIL",
            Code::DupId => "XAER_DUPID",
            Code::Outside => "XAER_OUTSIDE",
        }
    }

    /// Whether the answer says that the branch was rolled back: the numbers 100 to 107.
    pub fn is_rollback(self) -> bool
        ensures { IsTrue result ↔ (pos 100 ≤ℤ code_number self) × (code_number self ≤ℤ pos 107) }
    {
        matches!(
            self,
            Code::RbRollback
                | Code::RbCommFail
                | Code::RbDeadlock
                | Code::RbIntegrity
                | Code::RbOther
                | Code::RbProto
                | Code::RbTimeout
                | Code::RbTransient
        )
    }

    /// Whether the answer tells a heuristic decision, or that there may have been one: the numbers 5 to 8.
    pub fn is_heuristic(self) -> bool
        ensures { IsTrue result ↔ (pos 5 ≤ℤ code_number self) × (code_number self ≤ℤ pos 8) }
    {
        matches!(
            self,
            Code::HeurHaz | Code::HeurCom | Code::HeurRb | Code::HeurMix
        )
    }
}

/// Two answers with one number are one.
pub fn one_code_a_number()
    ensures { (c d : AnyCode) → code_number c ≡ code_number d → c ≡ d }
{}

/// Two answers with one name are one.
pub fn one_name_a_code()
    ensures { (c d : AnyCode) → code_name c ≡ code_name d → c ≡ d }
{}
