//! How much is written of an audit.

/// How much is written of an audit.
#[derive(Clone, Copy, PartialEq, Eq)]
pub enum Detail {
    /// A line for each case.
    Lines,
    /// A line for each case, and after one that is in doubt or shows a mismatch what decided it, and what
    /// to do; after a root's that reports tickets who reported each, and what to do.
    Explained,
}
