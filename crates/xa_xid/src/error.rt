//! Why bytes or a text are no XID.

ghost use Rattle.std.specs.Prelude.{◌≡◌};
ghost use Rattle.xa_xid.specs.Errors.{xid_error_number};

use thiserror::Error;

/// Why these parts, bytes or this text are no XID.
#[derive(Clone, Copy, Debug, PartialEq, Eq, Error)]
pub enum XidError {
    /// The format is negative, and this is not the null XID.
    #[error("the format of an XID is negative")]
    BadFormat,
    /// The global transaction's name is not 1 to 64 bytes long.
    #[error("the gtrid of an XID is not 1 to 64 bytes long")]
    GtridLength,
    /// The branch's name is longer than 64 bytes.
    #[error("the bqual of an XID is longer than 64 bytes")]
    BqualLength,
    /// The bytes end before the XID does.
    #[error("the bytes of an XID are cut short")]
    Truncated,
    /// There are bytes after the XID.
    #[error("there are bytes after an XID")]
    Trailing,
    /// The text is not a format, a colon, a hexadecimal gtrid, a colon and a hexadecimal bqual.
    #[error("the text does not spell an XID")]
    Syntax,
}

impl XidError {
    /// The number of the refusal, from 1 to 6.
    pub fn number(self) -> u8
        ensures { result ≡ xid_error_number self }
    {
        match self {
            XidError::BadFormat => 1,
            XidError::GtridLength => 2,
            XidError::BqualLength => 3,
            XidError::Truncated => 4,
            XidError::Trailing => 5,
            XidError::Syntax => 6,
        }
    }
}
