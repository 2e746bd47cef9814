//! The flags of a call, and of a resource manager's switch.

ghost use Rattle.std.specs.Prelude.{◌≡◌, ◌↔◌, ℕ, IsTrue, IfSome, IfNone, bit_and, option_map};
ghost use Rattle.xa_codes.specs.FlagNames.{flag_named, IsFlagText};

/// A set of flags: the bits of a 32-bit number, named as C193 names them.
#[derive(Clone, Copy, PartialEq, Eq)]
pub struct Flags(pub u32);

impl Flags {
    /// No flag.
    pub const TMNOFLAGS: Flags = Flags(0);

    /// The call is asynchronous.
    pub const TMASYNC: Flags = Flags(0x8000_0000);

    /// The branch is committed in one phase.
    pub const TMONEPHASE: Flags = Flags(0x4000_0000);

    /// The work failed, and the branch can only be rolled back.
    pub const TMFAIL: Flags = Flags(0x2000_0000);

    /// The call is not to block.
    pub const TMNOWAIT: Flags = Flags(0x1000_0000);

    /// The thread resumes a suspended branch.
    pub const TMRESUME: Flags = Flags(0x0800_0000);

    /// The work succeeded.
    pub const TMSUCCESS: Flags = Flags(0x0400_0000);

    /// The thread suspends the branch.
    pub const TMSUSPEND: Flags = Flags(0x0200_0000);

    /// A scan of the branches begins.
    pub const TMSTARTRSCAN: Flags = Flags(0x0100_0000);

    /// A scan of the branches ends.
    pub const TMENDRSCAN: Flags = Flags(0x0080_0000);

    /// The call waits for any asynchronous call.
    pub const TMMULTIPLE: Flags = Flags(0x0040_0000);

    /// The thread joins an existing branch.
    pub const TMJOIN: Flags = Flags(0x0020_0000);

    /// The suspended branch may be resumed by another thread.
    pub const TMMIGRATE: Flags = Flags(0x0010_0000);

    /// Of a switch: the resource manager registers by itself.
    pub const TMREGISTER: Flags = Flags(1);

    /// Of a switch: no other thread may resume a branch.
    pub const TMNOMIGRATE: Flags = Flags(2);

    /// Of a switch: the resource manager takes asynchronous calls.
    pub const TMUSEASYNC: Flags = Flags(4);

    /// Whether each of these flags is in the set.
    pub fn has(self, flags: Flags) -> bool
        ensures { IsTrue result ↔ (bit_and self.0 flags.0 ≡ flags.0) }
    {
        self.0 & flags.0 == flags.0
    }

    /// Whether no flag but these is in the set.
    pub fn only(self, allowed: Flags) -> bool
        ensures { IsTrue result ↔ (bit_and self.0 allowed.0 ≡ self.0) }
    {
        self.0 & allowed.0 == self.0
    }

    /// The flags that a text names: the names, joined by `+`, of one or more flags.
    ///
    /// `TMNOFLAGS`, the switch flags and repeats are names like others. None if the text is anything else,
    /// as an empty one, a name with a space or a `+` with no name beside it. No memory is taken.
    pub fn parse(text: &str) -> Option<Flags>
        ensures found { IfSome result (λ flags. IsFlagText text.now flags.0) }
        ensures none { IfNone result ((bits : ℕ) → IsFlagText text.now bits → ⊥) }
    {
        let mut flags = Flags::TMNOFLAGS;
        for name in text.split('+') {
            flags.0 |= flag_of(name)?.0;
        }
        Some(flags)
    }
}

/// The flag that a word names.
fn flag_of(name: &str) -> Option<Flags>
    ensures { option_map (λ flags. flags.0) result ≡ flag_named name.now }
{
    match name {
        "TMNOFLAGS" => Some(Flags::TMNOFLAGS),
        "TMASYNC" => Some(Flags::TMASYNC),
        "TMONEPHASE" => Some(Flags::TMONEPHASE),
        "TMFAIL" => Some(Flags::TMFAIL),
        "TMNOWAIT" => Some(Flags::TMNOWAIT),
        "TMRESUME" => Some(Flags::TMRESUME),
        "TMSUCCESS" => Some(Flags::TMSUCCESS),
        "TMSUSPEND" => Some(Flags::TMSUSPEND),
        "TMSTARTRSCAN" => Some(Flags::TMSTARTRSCAN),
        "TMENDRSCAN" => Some(Flags::TMENDRSCAN),
        "TMMULTIPLE" => Some(Flags::TMMULTIPLE),
        "TMJOIN" => Some(Flags::TMJOIN),
        "TMMIGRATE" => Some(Flags::TMMIGRATE),
        "TMREGISTER" => Some(Flags::TMREGISTER),
        "TMNOMIGRATE" => Some(Flags::TMNOMIGRATE),
        "TMUSEASYNC" => Some(Flags::TMUSEASYNC),
        _ => None,
    }
}
