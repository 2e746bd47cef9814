//! What is sent once more: a decision, to those who owe an acknowledgement of it.

ghost use Rattle.std.specs.Prelude.{◌≡◌, IfOk, filter, map, option_map};
ghost use Rattle.std.specs.Map.{lookup};
ghost use Rattle.protocol.specs.Records.{in_list};
ghost use Rattle.coord_records.specs.Readings.{place_below, same, view_in};
ghost use Rattle.coord_records.specs.Summaries.{view_of};
ghost use Rattle.node_engine.specs.Again.{decided_by, owed_again, still_owing, telling, tellings_by};

use coord_records::{CaseReading, Recorded};
use protocol::{
    Case, Envelope, Envelopes, LogRecord, Message, Outcome, ProcessId, Sequence, Standing, Ticket,
    Tree,
};
use std::alloc::{AllocError, Global};

/// The outcome of a case that waits for acknowledgements.
fn decided(standing: Standing) -> Option<Outcome>
    ensures { result ≡ decided_by standing }
{
    match standing {
        Standing::Committing => Some(Outcome::Committed),
        Standing::Aborting => Some(Outcome::Aborted),
        _ => None,
    }
}

/// The message that tells a child of the case the outcome.
fn telling(me: ProcessId, case: &Case, outcome: Outcome, ticket: Ticket) -> Envelope
    ensures { result ≡ telling me case.now outcome ticket }
{
    let child = Case {
        txn: case.txn,
        ticket: Some(ticket),
    };
    let message = match outcome {
        Outcome::Committed => Message::Commit(child),
        Outcome::Aborted => Message::Abort(child),
    };
    Envelope {
        from: me,
        to: ticket.child,
        message,
    }
}

/// Such a message to each of these tickets.
fn tellings(
    alloc: Global,
    me: ProcessId,
    case: &Case,
    outcome: Outcome,
    tickets: &[Ticket],
) -> Result<Envelopes, AllocError>
    ensures { IfOk result (λ messages. messages ≡ map (telling me case.now outcome) tickets.now) }
{
    let mut messages = Vec::new(alloc);
    for ticket in tickets {
        messages.push(telling(me, case, outcome, *ticket))?;
    }
    Ok(Sequence::from_vec(messages))
}

/// Whether the ticket is among these.
#[tactic(auto, unfolding(protocol::specs::Records::in_list))]
fn is_in(tickets: &[Ticket], ticket: &Ticket) -> bool
    ensures { result ≡ in_list tickets.now ticket.now }
{
    tickets.iter().any(|other| other.is(ticket))
}

/// Those of the tickets that are among these, too.
fn still_owing(
    alloc: Global,
    tickets: &[Ticket],
    owed: &[Ticket],
) -> Result<Vec<Ticket>, AllocError>
    ensures { IfOk result (λ owing. owing.items ≡ filter (in_list owed.now) tickets.now) }
{
    let mut owing = Vec::from_slice(alloc, tickets)?;
    owing.retain(
        |ticket: &Ticket| -> bool
            ensures { result ≡ in_list owed.entry.now ticket.now }
        { is_in(owed, ticket) },
    );
    Ok(owing)
}

/// What is sent once more of a case of which the records say this, while these owe an acknowledgement; None,
/// if it waits for none.
#[tactic(auto, using(crate::proofs::Owed::by_summary))]
fn owed_by(
    alloc: Global,
    me: ProcessId,
    case: &Case,
    recorded: &Recorded,
    owed: &[Ticket],
) -> Result<Option<Envelopes>, AllocError>
    ensures { IfOk result (λ told. told
        ≡ tellings_by me case.now (still_owing owed.now (view_of recorded.now))
        (view_of recorded.now).standing) }
{
    match decided(recorded.standing()) {
        None => Ok(None),
        Some(outcome) => {
            let owing = still_owing(alloc, recorded.owing(), owed)?;
            Ok(Some(tellings(alloc, me, case, outcome, &owing)?))
        }
    }
}

/// What the records say of a case, if there are any of it.
fn recorded_of<'a>(reading: &'a CaseReading, case: &Case) -> Option<&'a Recorded>
    ensures { option_map (λ r. r.now) result ≡ lookup (same case.now) reading.now.table }
{
    reading.cases().get(case)
}

/// What is sent once more of a case, by what was read of the log, while these owe an acknowledgement.
#[tactic(auto, using(crate::proofs::Owed::nothing_read_of))]
fn owed_in(
    alloc: Global,
    me: ProcessId,
    case: &Case,
    reading: &CaseReading,
    owed: &[Ticket],
) -> Result<Option<Envelopes>, AllocError>
    ensures { IfOk result (λ told. told ≡ tellings_by me case.now
        (still_owing owed.now (view_in reading.now.table case.now))
        (view_in reading.now.table case.now).standing) }
{
    match recorded_of(reading, case) {
        None => Ok(None),
        Some(recorded) => owed_by(alloc, me, case, recorded, owed),
    }
}

/// What the process `me` below this parent sends once more of a case, by the records of its log: the
/// decision, to those whom it names and who are among these, which owe an acknowledgement. None: the case is
/// not its own, or waits for no acknowledgement.
pub(crate) fn owed_again(
    alloc: Global,
    me: ProcessId,
    parent: Option<ProcessId>,
    tree: &Tree,
    records: &[LogRecord],
    owed: &[Ticket],
    case: &Case,
) -> Result<Option<Envelopes>, AllocError>
    ensures { IfOk result (λ told. told
        ≡ owed_again (place_below me parent tree.now) records.now owed.now case.now) }
{
    let reading = CaseReading::of(alloc, me, parent, tree, records)?;
    owed_in(alloc, me, case, &reading, owed)
}
