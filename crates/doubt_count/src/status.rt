//! The exit status of an audit that counts the cases in doubt.

ghost use Rattle.std.specs.Prelude.{◌≡◌};
ghost use Rattle.doubt_count.specs.Doubts.{status_of};

/// The status of an audit that shows no mismatch, but a case in doubt.
pub const IN_DOUBT: u8 = 5;

/// The status of an audit that ended with this one, by how many cases are in doubt: its own, unless it found
/// nothing else and there is one.
pub fn status_by(audited: u8, doubts: usize) -> u8
    ensures { result ≡ status_of audited doubts }
{
    if audited == 0 && doubts > 0 {
        IN_DOUBT
    } else {
        audited
    }
}
