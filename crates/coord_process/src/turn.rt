//! What an input meets at a coordinator.

use coord_rows::CaseInput;
use protocol::{Case, Presumption, ProcessId, StepError, Ticket, Txn};

/// What an input meets.
#[derive(Clone, Copy)]
pub(crate) enum Met<'a> {
    /// A refusal, by this error.
    Refuses(StepError),
    /// A transaction begins.
    Begins(Presumption),
    /// The parent's case gets a fresh ticket.
    Issues(ProcessId, Case),
    /// The case that is live under the key takes the row that it meets.
    Takes(usize, Case, CaseInput<'a>),
    /// A report of the root's case is cleared, if there is one; the case is not live.
    Clears(Case),
    /// A case that is not live answers.
    Answers(Case, CaseInput<'a>),
    /// The parent's case gets its active ticket again.
    Repeats(ProcessId, Case, Ticket),
    /// A child of no live case gets what is presumed.
    Presumes(Txn, Ticket),
    /// Nothing is done.
    Nothing,
}
