//! What a process knows of a case.

/// A vote of a child.
#[derive(Clone, Copy, PartialEq, Eq)]
pub enum Vote {
    Yes,
    No,
    /// The child changed nothing and has forgotten the case.
    Read,
}

/// Where a case is at a process.
#[derive(Clone, Copy, PartialEq, Eq)]
pub enum Standing {
    /// Nothing is known of it: it never was, or is forgotten.
    Unknown,
    /// It takes children and work.
    Active,
    /// A coordinator waits for votes.
    Collecting,
    /// It promised, and waits for the outcome.
    Prepared,
    /// It committed, and waits for acknowledgements.
    Committing,
    /// It aborted, and waits for acknowledgements.
    Aborting,
    /// A manager's operator decided it.
    Heuristic,
}
