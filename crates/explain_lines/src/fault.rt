//! What is wrong with a line, as a sentence.

use std::fmt;
use thiserror::Error;
use xa_xid::XidError;

/// A word that may have been meant.
#[derive(Clone, Copy, Debug, PartialEq, Eq)]
pub struct Near(pub Option<&'static str>);

impl fmt::Display for Near {
    fn fmt<W: fmt::Write>(&self, f: &mut fmt::Formatter<W>) -> fmt::Result {
        match self.0 {
            None => Ok(()),
            Some(word) => write!(f, "; did you mean `{word}`?"),
        }
    }
}

/// What is wrong with a line.
#[derive(Clone, Copy, Debug, Error)]
pub enum LineFault<'a> {
    /// It begins with a word that begins no line of the script.
    #[error("no {line} begins with `{word:.40}`{near}")]
    Unknown {
        word: &'a str,
        line: &'static str,
        near: Near,
    },
    /// It is a line of another script.
    #[error("this is a line of {script}")]
    OtherScript {
        script: &'static str,
    },
    /// Two spaces stand side by side, or one at an end.
    #[error("there is one space too many")]
    Blank,
    /// Nothing stands where a part is wanted.
    #[error("{part} is missing")]
    Missing {
        part: &'static str,
    },
    /// What stands where a part is wanted is none.
    #[error("`{word:.40}` is not {part}{near}")]
    Wrong {
        word: &'a str,
        part: &'static str,
        near: Near,
    },
    /// What stands where an XID is wanted is none.
    #[error("`{word:.40}` is not an XID: {cause}")]
    WrongXid {
        word: &'a str,
        cause: XidError,
    },
    /// More is there than the line takes.
    #[error("`{word:.40}` is one word too many")]
    More {
        word: &'a str,
    },
}
