//! How long the file of a log may become.

ghost use Rattle.std.specs.Prelude.{◌≡◌, IsTrue};
ghost use Rattle.node_desk.specs.Growth.{is_longer, limit_after, limit_first};

/// Over which length of its file a log is trimmed.
#[derive(Clone, Copy)]
pub(crate) struct Growth {
    /// From this length on, as it was asked for.
    at: u64,
    /// After a trim that left much, not before the file has doubled.
    limit: u64,
}

impl Growth {
    /// Over this length.
    pub(crate) fn new(at: u64) -> Growth
        ensures { result ≡ limit_first at }
    {
        Growth { at, limit: at }
    }

    /// Whether a file of this length is too long.
    pub(crate) fn is_over(&self, size: u64) -> bool
        ensures { result ≡ is_longer self.now size }
    {
        size > self.limit
    }

    /// A trim left a file of this length.
    pub(crate) fn trimmed(self, size: u64) -> Growth
        ensures { result ≡ limit_after self size }
    {
        Growth {
            at: self.at,
            limit: self.at.max(size.saturating_mul(2)),
        }
    }
}
