//! A step upward, and what is to be done about a case.

use protocol::{Case, ProcessId, Ticket};

/// What stands of a case at a coordinator, as it decides there.
#[derive(Clone, Copy, PartialEq, Eq)]
pub enum Stands {
    /// It committed.
    Commit,
    /// It aborted.
    Abort,
    /// It promised, and no more: it is in doubt itself.
    Prepare,
    /// It ended with no decision, as one whose children all voted READ.
    Ended,
    /// It asked for votes, and no more: a restart of its process aborts it.
    Collecting,
}

/// What is found of a case that is asked about.
#[derive(Clone, Copy, PartialEq, Eq)]
pub enum StepFound {
    /// No kept case of its transaction names its ticket.
    Nothing,
    /// The first that does, and what stands of it.
    Kept(Case, Stands),
}

/// A ticket asks its parent.
#[derive(Clone, Copy, PartialEq, Eq)]
pub struct AuditStep {
    pub ticket: Ticket,
    /// The parent.
    pub process: ProcessId,
    pub found: StepFound,
}

/// What is to be done about a case.
#[derive(Clone, Copy, PartialEq, Eq)]
pub enum StepDeed {
    /// Ask for the outcome of this case.
    Ask(Case),
    /// Restart this process, which aborts what it collects.
    Restart(ProcessId),
}
