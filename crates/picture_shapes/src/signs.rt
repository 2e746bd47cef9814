//! The signs of a picture that its legend explains.

ghost use Rattle.std.specs.Prelude.{◌≡◌};
ghost use Rattle.picture_shapes.specs.Head.{has};

/// A sign, or a colour.
#[derive(Clone, Copy, PartialEq, Eq)]
pub enum Sign {
    Forced,
    Unforced,
    Lost,
    Crash,
    Message,
    Again,
    Undelivered,
    Far,
    Vote,
    Commit,
    Abort,
    Inquiry,
    Doubt,
    Operator,
    Warning,
    Application,
    Several,
    Handled,
    Trim,
    Note,
}

/// Which signs a picture has.
#[derive(Clone, Copy)]
pub struct Signs {
    pub forced: bool,
    pub unforced: bool,
    pub lost: bool,
    pub crash: bool,
    pub message: bool,
    pub again: bool,
    pub undelivered: bool,
    pub far: bool,
    pub vote: bool,
    pub commit: bool,
    pub abort: bool,
    pub inquiry: bool,
    pub doubt: bool,
    pub operator: bool,
    pub warning: bool,
    pub application: bool,
    pub several: bool,
    pub handled: bool,
    pub trim: bool,
    pub note: bool,
}

impl Signs {
    pub fn none() -> Signs {
        Signs {
            forced: false,
            unforced: false,
            lost: false,
            crash: false,
            message: false,
            again: false,
            undelivered: false,
            far: false,
            vote: false,
            commit: false,
            abort: false,
            inquiry: false,
            doubt: false,
            operator: false,
            warning: false,
            application: false,
            several: false,
            handled: false,
            trim: false,
            note: false,
        }
    }

    pub(crate) fn has(&self, sign: Sign) -> bool
        ensures { result ≡ has self.now sign }
    {
        match sign {
            Sign::Forced => self.forced,
            Sign::Unforced => self.unforced,
            Sign::Lost => self.lost,
            Sign::Crash => self.crash,
            Sign::Message => self.message,
            Sign::Again => self.again,
            Sign::Undelivered => self.undelivered,
            Sign::Far => self.far,
            Sign::Vote => self.vote,
            Sign::Commit => self.commit,
            Sign::Abort => self.abort,
            Sign::Inquiry => self.inquiry,
            Sign::Doubt => self.doubt,
            Sign::Operator => self.operator,
            Sign::Warning => self.warning,
            Sign::Application => self.application,
            Sign::Several => self.several,
            Sign::Handled => self.handled,
            Sign::Trim => self.trim,
            Sign::Note => self.note,
        }
    }
}
