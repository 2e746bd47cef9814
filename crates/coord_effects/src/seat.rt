//! A coordinator in one of its cases, and the messages that it sends from there.

ghost use Rattle.std.specs.Prelude.{◌≡◌, ◌++◌, IfOk, OnOk};
ghost use Rattle.protocol.specs.CoordinatorRows.{abort_heard_above, acknowledges_abort, each, tells, tells_outcome, to_child, unknown_abort, unknown_commit, up};
ghost use Rattle.protocol.specs.Reactions.{told_of};
ghost use Rattle.protocol.specs.Standings.{CoordinatorView, unknown_findings};
ghost use Rattle.process_state.specs.Turns.{this_version};
ghost use Rattle.coord_effects.specs.Rows.{reason_meant, seat_meant};

use coord_case::none_of;
use process_state::{one_message, unknown_findings};
use protocol::{
    Case, Conclusion, Envelope, Envelopes, Message, Outcome, Presumption, ProcessId, Sequence,
    Ticket, Told,
};
use std::alloc::{AllocError, Global};

/// A coordinator in one of its cases; the root has no parent.
#[derive(Clone, Copy, PartialEq, Eq)]
pub struct OwnCase {
    pub me: ProcessId,
    pub parent: Option<ProcessId>,
    pub case: Case,
}

/// Why a case that collects votes aborts: a vote, the abort act, or ABORT of the parent.
#[derive(Clone, Copy, PartialEq, Eq)]
pub enum Reason {
    Vote,
    Act,
    Abort,
}

impl OwnCase {
    /// The child's case of the transaction.
    pub fn child_case(self, ticket: Ticket) -> Case
        ensures { result ≡ record { txn = self.case.txn; ticket = Some ticket } }
    {
        Case {
            txn: self.case.txn,
            ticket: Some(ticket),
        }
    }

    /// What is told of the end of the transaction: the root tells its application, others tell nothing.
    pub fn told(self, conclusion: Conclusion) -> Option<Told>
        ensures { result ≡ told_of self.case.txn (tells (seat_meant self) conclusion) }
    {
        match self.parent {
            None => Some(Told {
                txn: self.case.txn,
                conclusion,
            }),
            Some(_) => None,
        }
    }
}

/// The message to the parent, if there is one.
pub fn up(alloc: Global, seat: OwnCase, message: Message) -> Result<Envelopes, AllocError>
    ensures { IfOk result (λ messages. messages ≡ up (seat_meant seat) message) }
{
    match seat.parent {
        None => Ok(Sequence::new(alloc)),
        Some(parent) => one_message(alloc, seat.me, parent, message),
    }
}

/// An abort under Presumed Commit is acknowledged; under Presumed Abort nothing is said.
pub fn acknowledge_abort(alloc: Global, seat: OwnCase) -> Result<Envelopes, AllocError>
    ensures { IfOk result (λ messages. messages
        ≡ acknowledges_abort (seat_meant seat) seat.case.txn.presumption) }
{
    match seat.case.txn.presumption {
        Presumption::PresumeAbort => Ok(Sequence::new(alloc)),
        Presumption::PresumeCommit => {
            up(
                alloc,
                seat,
                Message::Ack(seat.case, Outcome::Aborted, Sequence::new(alloc)),
            )
        }
    }
}

/// The outcome of a case of which nothing is known is acknowledged, as unreported.
fn acknowledge_unknown(
    alloc: Global,
    seat: OwnCase,
    outcome: Outcome,
) -> Result<Envelopes, AllocError>
    ensures { IfOk result (λ messages. messages ≡ up (seat_meant seat)
        (Message.Ack seat.case outcome (unknown_findings this_version seat.case))) }
{
    let findings = unknown_findings(alloc, seat.case)?;
    up(alloc, seat, Message::Ack(seat.case, outcome, findings))
}

/// A commit of a case of which nothing is known is acknowledged under Presumed Abort; under Presumed Commit
/// nothing is said.
pub fn acknowledge_unknown_commit(alloc: Global, seat: OwnCase) -> Result<Envelopes, AllocError>
    ensures { IfOk result (λ messages. (view : CoordinatorView) → messages
        ≡ (unknown_commit this_version (seat_meant seat) view).messages) }
{
    match seat.case.txn.presumption {
        Presumption::PresumeAbort => acknowledge_unknown(alloc, seat, Outcome::Committed),
        Presumption::PresumeCommit => Ok(Sequence::new(alloc)),
    }
}

/// An abort of a case of which nothing is known is acknowledged under Presumed Commit; under Presumed Abort
/// nothing is said.
pub fn acknowledge_unknown_abort(alloc: Global, seat: OwnCase) -> Result<Envelopes, AllocError>
    ensures { IfOk result (λ messages. (view : CoordinatorView) → messages
        ≡ (unknown_abort this_version (seat_meant seat) view).messages) }
{
    match seat.case.txn.presumption {
        Presumption::PresumeAbort => Ok(Sequence::new(alloc)),
        Presumption::PresumeCommit => acknowledge_unknown(alloc, seat, Outcome::Aborted),
    }
}

/// What the parent hears of an abort that these are told: its ABORT is acknowledged where nobody owes an
/// acknowledgement below.
pub fn heard_above(
    alloc: Global,
    seat: OwnCase,
    reason: Reason,
    told: &[Ticket],
) -> Result<Envelopes, AllocError>
    ensures { IfOk result (λ messages. messages
        ≡ abort_heard_above (seat_meant seat) (reason_meant reason) told.now) }
{
    match reason {
        Reason::Vote => up(alloc, seat, Message::No(seat.case)),
        Reason::Abort if none_of(told) => acknowledge_abort(alloc, seat),
        Reason::Act | Reason::Abort => Ok(Sequence::new(alloc)),
    }
}

/// The outcome to the ticket's child.
pub fn outcome_message(seat: OwnCase, outcome: Outcome, ticket: Ticket) -> Envelope
    ensures { result ≡ to_child (seat_meant seat) (tells_outcome outcome) ticket }
{
    let case = seat.child_case(ticket);
    Envelope {
        from: seat.me,
        to: ticket.child,
        message: match outcome {
            Outcome::Committed => Message::Commit(case),
            Outcome::Aborted => Message::Abort(case),
        },
    }
}

/// After these messages the outcome to each of the children.
pub fn tell_each(
    messages: &mut Envelopes,
    seat: OwnCase,
    outcome: Outcome,
    tickets: &[Ticket],
) -> Result<(), AllocError>
    ensures { OnOk result (messages.new ≡ messages.old
        ++ each (seat_meant seat) (tells_outcome outcome) tickets.now) }
{
    for ticket in tickets {
        messages.push(outcome_message(seat, outcome, *ticket))?;
    }
    Ok(())
}
