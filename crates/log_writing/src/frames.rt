//! The frames of a coordinator's records.

ghost use Rattle.std.specs.Prelude.{◌≡◌, ◌∷◌, [], IfErr, IfOk, IsTrue};
ghost use Rattle.protocol.specs.declared.names.Kind.{Kind as AnyKind};
ghost use Rattle.protocol.specs.declared.records.BranchName.{BranchName};
ghost use Rattle.protocol.specs.LogNames.{in_log};
ghost use Rattle.log_text.specs.Made.{frame_record};
ghost use Rattle.log_rules.specs.sound.Sound.{AreSoundTickets, IsSound, IsSoundName, IsSoundTicket};
ghost use Rattle.log_records.specs.Sights.{IsRecord};
ghost use Rattle.log_writing.specs.Writes.{NotFramed};

use log_text::Frame;
use protocol::{Case, NUMBERS, ProcessId, Record, StepError, Ticket};
use std::alloc::Global;

/// How many tickets a record can name.
const MOST_TICKETS: usize = 255;

fn is_writable_ticket(ticket: &Ticket) -> bool
    ensures yes { IsTrue result → IsSoundTicket ticket.now }
    ensures no { IsSoundTicket ticket.now → IsTrue result }
{
    let ticket = *ticket;
    ticket.boot < NUMBERS && ticket.number < NUMBERS
}

fn are_writable(tickets: &[Ticket]) -> bool
    ensures yes { IsTrue result → AreSoundTickets tickets.now }
    ensures no { AreSoundTickets tickets.now → IsTrue result }
{
    tickets.len() <= MOST_TICKETS && tickets.iter().all(|ticket| is_writable_ticket(ticket))
}

/// Whether the case has a ticket exactly where there is a parent.
fn is_whole(parent: Option<ProcessId>, case: Case) -> bool
    ensures yes { IsTrue result → IsSoundName parent (BranchName.Case case) }
    ensures no { IsSoundName parent (BranchName.Case case) → IsTrue result }
{
    parent.is_some() == case.ticket.is_some()
}

/// Whether a coordinator's log can hold the record under this parent.
fn is_writable(entry: &Record, parent: Option<ProcessId>) -> bool
    ensures yes { IsTrue result → IsSound AnyKind.Coordinator
        (record { entry = entry.now; parent = parent }) }
    ensures no { IsSound AnyKind.Coordinator (record { entry = entry.now; parent = parent }) → IsTrue result }
{
    match entry {
        Record::Opened(boot) => parent.is_none() && *boot < NUMBERS,
        Record::Collecting(case, tickets)
        | Record::Prepare(case, tickets)
        | Record::Commit(case, tickets)
        | Record::Abort(case, tickets) => {
            is_whole(parent, *case) && are_writable(tickets.as_slice())
        }
        Record::End(case, None) | Record::Cleared(case) => is_whole(parent, *case),
        Record::End(case, Some(reports)) => {
            is_whole(parent, *case)
                && are_writable(reports.mixed.as_slice())
                && are_writable(reports.unreported.as_slice())
        }
        _ => false,
    }
}

/// The frame of a coordinator's record, as the log of a process below this parent holds it. Exhausted: no log
/// holds the record, since it names more than 255 tickets, or has a number of 2^63 or more.
pub fn coordinator_frame(
    alloc: Global,
    entry: &Record,
    parent: Option<ProcessId>,
) -> Result<Frame, StepError>
    ensures spells { IfOk result (λ frame. frame_record frame ≡ in_log parent entry.now) }
    ensures sound { IfOk result (λ frame. IsRecord AnyKind.Coordinator (frame_record frame)) }
    ensures err { IfErr result (NotFramed parent (entry.now ∷ [])) }
{
    let parent = entry.named_parent(parent);
    if !is_writable(entry, parent) {
        return Err(StepError::Exhausted);
    }
    Ok(Frame::of(alloc, entry, parent)?)
}
