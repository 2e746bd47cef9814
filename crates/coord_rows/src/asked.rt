//! What an input asks of a case.

ghost use Rattle.std.specs.Prelude.{◌≡◌};
ghost use Rattle.coord_rows.specs.Asks.{is_retiring};

use protocol::{Finding, Op, Outcome, ProcessId, Ticket, Vote};

/// What an input asks of a live case. The acts are asked where the case stands for them: Join, Work, Commit
/// and AbortActive while it is Active, AbortCollecting while it collects votes, Ask while it is Prepared.
#[derive(Clone, Copy)]
pub enum CaseInput<'a> {
    /// This child is invited.
    Join(ProcessId),
    /// The next work of the accepted ticket.
    Work(Ticket, &'a Op),
    Commit,
    AbortActive,
    AbortCollecting,
    Ask,
    /// JOINED: a child's ticket.
    Joined(Ticket),
    /// YES, NO or READ of a ticket.
    Vote(Ticket, Vote),
    /// ACK of a ticket, with what was found at and below it.
    Ack(Ticket, Outcome, &'a [Finding]),
    /// INQUIRE of a ticket.
    Inquire(Ticket),
    /// PREPARE of the parent.
    Prepare,
    /// COMMIT of the parent.
    Commits,
    /// ABORT of the parent.
    Aborts,
}

/// Whether it ends the time of the case's ticket: PREPARE or ABORT.
pub fn retires(asked: CaseInput) -> bool
    ensures { result ≡ is_retiring asked.entry }
{
    match asked {
        CaseInput::Prepare | CaseInput::Aborts => true,
        _ => false,
    }
}
