//! Rows of the reaction table for a case that was decided, and for one of which nothing is known (R*).

ghost use Rattle.std.specs.Prelude.{◌≡◌, ◌++◌, [], IfErr, IfOk, None, OnErr};
ghost use Rattle.protocol.specs.Standings.{CoordinatorView};
ghost use Rattle.protocol.specs.CoordinatorRows.{aborting_abort, aborting_prepare, committing_commit, unknown_forget, decided_ack, decided_ack_by, decided_inquiry, end_reports, unknown_abort, unknown_commit, unknown_inquiry, unknown_prepare};
ghost use Rattle.protocol.specs.SameViews.{SameView};
ghost use Rattle.process_state.specs.Turns.{this_version};
ghost use Rattle.coord_effects.specs.declared.seat.OwnCase.{OwnCase as AnySeat};
ghost use Rattle.coord_effects.specs.Rows.{DoesRow, NotWritten, end_written, seat_meant};

use crate::found::{in_order, reports_of};
use coord_case::Live;
use coord_effects::{
    OwnCase, RowEffect, RowRecord, acknowledge_unknown_abort, acknowledge_unknown_commit,
    forgets_behind, outcome_message, up,
};
use coord_records::presumed;
use protocol::{Case, Finding, Message, Outcome, Record, Sequence, StepError, Ticket};
use std::alloc::{AllocError, Global};

/// The root's End: plain if nothing was found; else with what was found, forced.
fn root_end(alloc: Global, case: Case, found: &[Finding]) -> Result<RowRecord, AllocError>
    ensures { IfOk result (λ written. written ≡ end_written case (end_reports this_version None found.now)) }
{
    Ok(match found {
        [] => RowRecord::plain(Record::End(case, None)),
        [_, ..] => RowRecord::forced(Record::End(case, Some(reports_of(alloc, found)?))),
    })
}

/// The last ACK that is owed: the root writes down what was found; a coordinator below it acknowledges in its
/// turn, with what was found. Memory, Exhausted: nothing changed.
fn ends(
    alloc: Global,
    seat: OwnCase,
    outcome: Outcome,
    found: Vec<Finding>,
    live: &mut Live,
) -> Result<RowEffect, StepError>
    ensures ok { IfOk result (λ effect. DoesRow seat
        (decided_ack_by this_version (seat_meant seat) outcome [] found.items live.old) effect live.new) }
    ensures err { OnErr result (live.new ≡ live.old) }
    ensures unwritten { IfErr result (NotWritten seat.parent
        (decided_ack_by this_version (seat_meant seat) outcome [] found.items live.old).written) }
{
    match seat.parent {
        None => {
            let written = root_end(alloc, seat.case, &found)?;
            forgets_behind(alloc, seat, &written, None, Sequence::new(alloc), live)
        }
        Some(_) => {
            let written = RowRecord::plain(Record::End(seat.case, None));
            let findings = in_order(alloc, &found)?;
            let messages = up(alloc, seat, Message::Ack(seat.case, outcome, findings))?;
            forgets_behind(alloc, seat, &written, None, messages, live)
        }
    }
}

/// Committing or Aborting, an ACK that agrees with this outcome, and brings these findings: the first of a
/// ticket that owes one counts, and the last one that is owed ends the case. Memory, Exhausted: nothing
/// changed.
pub fn decided_ack(
    alloc: Global,
    seat: OwnCase,
    outcome: Outcome,
    ticket: Ticket,
    findings: &[Finding],
    live: &mut Live,
) -> Result<RowEffect, StepError>
    ensures ok { IfOk result (λ effect. DoesRow seat
        (decided_ack this_version (seat_meant seat) outcome ticket (live.old.found ++ findings.now) live.old)
        effect live.new) }
    ensures err { OnErr result (live.new ≡ live.old) }
    ensures unwritten { IfErr result (NotWritten seat.parent
        (decided_ack this_version (seat_meant seat) outcome ticket (live.old.found ++ findings.now)
        live.old).written) }
{
    if !live.owes(&ticket) {
        return Ok(RowEffect::quiet(alloc));
    }
    if !live.owes_no_other(&ticket) {
        live.acknowledge(&ticket, findings)?;
        return Ok(RowEffect::quiet(alloc));
    }
    let found = live.found_with(alloc, findings)?;
    ends(alloc, seat, outcome, found, live)
}

/// The outcome to one child.
fn tell_one(
    alloc: Global,
    seat: OwnCase,
    outcome: Outcome,
    ticket: Ticket,
) -> Result<RowEffect, AllocError>
    ensures { IfOk result (λ effect. (view : CoordinatorView)
        → DoesRow seat (decided_inquiry (seat_meant seat) outcome ticket view) effect view) }
{
    let mut messages = Sequence::new(alloc);
    messages.push(outcome_message(seat, outcome, ticket))?;
    Ok(RowEffect::sends(alloc, messages))
}

/// INQUIRE of a child of a case that has an answer (`coord_records`, `answer`): the child is told it.
pub fn decided_inquiry(
    alloc: Global,
    seat: OwnCase,
    outcome: Outcome,
    ticket: Ticket,
) -> Result<RowEffect, AllocError>
    ensures { IfOk result (λ effect. (view : CoordinatorView)
        → DoesRow seat (decided_inquiry (seat_meant seat) outcome ticket view) effect view) }
{
    tell_one(alloc, seat, outcome, ticket)
}

/// Committing, COMMIT again: nothing, until the last acknowledgement from below.
pub fn committing_commit(alloc: Global) -> RowEffect
    ensures { (seat : AnySeat) (view : CoordinatorView)
        → DoesRow seat (committing_commit this_version (seat_meant seat) view) result view }
{
    RowEffect::quiet(alloc)
}

/// Aborting, ABORT again: likewise.
pub fn aborting_abort(alloc: Global) -> RowEffect
    ensures { (seat : AnySeat) (view : CoordinatorView)
        → DoesRow seat (aborting_abort this_version (seat_meant seat) view) result view }
{
    RowEffect::quiet(alloc)
}

/// Aborting, PREPARE: NO.
pub fn aborting_prepare(alloc: Global, seat: OwnCase) -> Result<RowEffect, AllocError>
    ensures { IfOk result (λ effect. (view : CoordinatorView)
        → DoesRow seat (aborting_prepare (seat_meant seat) view) effect view) }
{
    let messages = up(alloc, seat, Message::No(seat.case))?;
    Ok(RowEffect::sends(alloc, messages))
}

/// Unknown, at the root, where what was found is reported: it is cleared, forced. Exhausted: no
/// log holds the record.
pub fn clears(alloc: Global, seat: OwnCase) -> Result<RowEffect, StepError>
    ensures ok { IfOk result (λ effect. (view : CoordinatorView)
        → DoesRow seat (unknown_forget (seat_meant seat) view) effect view) }
    ensures unwritten { IfErr result (λ e. (view : CoordinatorView)
        → NotWritten seat.parent (unknown_forget (seat_meant seat) view).written e) }
{
    let written = RowRecord::forced(Record::Cleared(seat.case));
    RowEffect::writes(alloc, &seat, &written, None, Sequence::new(alloc))
}

/// PREPARE of a case of which nothing is known: NO.
pub fn unknown_prepare(alloc: Global, seat: OwnCase) -> Result<RowEffect, AllocError>
    ensures { IfOk result (λ effect. (view : CoordinatorView)
        → DoesRow seat (unknown_prepare (seat_meant seat) view) effect view) }
{
    let messages = up(alloc, seat, Message::No(seat.case))?;
    Ok(RowEffect::sends(alloc, messages))
}

/// COMMIT of a case of which nothing is known: acknowledged under Presumed Abort, else nothing.
pub fn unknown_commit(alloc: Global, seat: OwnCase) -> Result<RowEffect, AllocError>
    ensures { IfOk result (λ effect. (view : CoordinatorView)
        → DoesRow seat (unknown_commit this_version (seat_meant seat) view) effect view) }
{
    let messages = acknowledge_unknown_commit(alloc, seat)?;
    Ok(RowEffect::sends(alloc, messages))
}

/// ABORT of a case of which nothing is known: acknowledged under Presumed Commit, else nothing.
pub fn unknown_abort(alloc: Global, seat: OwnCase) -> Result<RowEffect, AllocError>
    ensures { IfOk result (λ effect. (view : CoordinatorView)
        → DoesRow seat (unknown_abort this_version (seat_meant seat) view) effect view) }
{
    let messages = acknowledge_unknown_abort(alloc, seat)?;
    Ok(RowEffect::sends(alloc, messages))
}

/// INQUIRE of a child of which nothing is known: it gets what is presumed.
pub fn unknown_inquiry(
    alloc: Global,
    seat: OwnCase,
    ticket: Ticket,
) -> Result<RowEffect, AllocError>
    ensures { IfOk result (λ effect. (view : CoordinatorView)
        → DoesRow seat (unknown_inquiry (seat_meant seat) ticket view) effect view) }
{
    tell_one(alloc, seat, presumed(seat.case.txn.presumption), ticket)
}
