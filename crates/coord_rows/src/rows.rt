//! The row that an input meets where a case stands (R*).

ghost use Rattle.std.specs.Prelude.{◌≡◌, ◌++◌, true, IfErr, IfOk, OnErr};
ghost use Rattle.protocol.specs.Records.{in_list};
ghost use Rattle.protocol.specs.CoordinatorRows.{on_ack, on_inquiry, on_joined, on_prepare, on_vote};
ghost use Rattle.protocol.specs.Standings.{unknown_view};
ghost use Rattle.protocol.specs.SameViews.{SameView};
ghost use Rattle.process_state.specs.Turns.{this_version};
ghost use Rattle.coord_effects.specs.Rows.{DoesRow, NotWritten, seat_meant};
ghost use Rattle.coord_rows.specs.Asks.{Accepts, RowNotTaken, asked_row, is_for_any};

use crate::active::{active_abort, active_commit, active_join, active_joined, active_work};
use crate::asked::CaseInput;
use crate::collecting::{collecting_abort, collecting_vote};
use crate::decided::{
    aborting_prepare, decided_ack, decided_inquiry, unknown_abort, unknown_commit, unknown_prepare,
};
use crate::outcomes::{on_abort, on_commit};
use coord_case::Live;
use coord_effects::{OwnCase, Reason, RowEffect, prepared_ask, prepared_prepare};
use protocol::{Finding, Outcome, Standing, StepError, Ticket, Vote};
use std::alloc::{AllocError, Global};

/// JOINED of a child.
fn on_joined(
    alloc: Global,
    seat: OwnCase,
    ticket: Ticket,
    live: &mut Live,
) -> Result<RowEffect, AllocError>
    ensures ok { IfOk result (λ effect. DoesRow seat
        (on_joined ticket live.old live.old.standing) effect live.new) }
    ensures err { OnErr result (live.new ≡ live.old) }
{
    match live.standing() {
        Standing::Active => active_joined(alloc, seat, ticket, live),
        _ => Ok(RowEffect::quiet(alloc)),
    }
}

/// A vote of a child.
fn on_vote(
    alloc: Global,
    seat: OwnCase,
    ticket: Ticket,
    vote: Vote,
    live: &mut Live,
) -> Result<RowEffect, StepError>
    ensures ok { IfOk result (λ effect. DoesRow seat
        (on_vote (seat_meant seat) ticket vote live.old live.old.standing) effect live.new) }
    ensures err { OnErr result (SameView live.new live.old) }
    ensures unwritten { IfErr result (NotWritten seat.parent
        (on_vote (seat_meant seat) ticket vote live.old live.old.standing).written) }
{
    match live.standing() {
        Standing::Collecting => collecting_vote(alloc, seat, ticket, vote, live),
        _ => Ok(RowEffect::quiet(alloc)),
    }
}

/// An acknowledgement of a child: it does something only where it agrees with the decision.
fn on_ack(
    alloc: Global,
    seat: OwnCase,
    ticket: Ticket,
    outcome: Outcome,
    findings: &[Finding],
    live: &mut Live,
) -> Result<RowEffect, StepError>
    ensures ok { IfOk result (λ effect. DoesRow seat
        (on_ack this_version (seat_meant seat) ticket outcome (live.old.found ++ findings.now)
        live.old live.old.standing) effect live.new) }
    ensures err { OnErr result (live.new ≡ live.old) }
    ensures unwritten { IfErr result (NotWritten seat.parent
        (on_ack this_version (seat_meant seat) ticket outcome (live.old.found ++ findings.now)
        live.old live.old.standing).written) }
{
    match (outcome, live.standing()) {
        (Outcome::Committed, Standing::Committing) | (Outcome::Aborted, Standing::Aborting) => {
            decided_ack(alloc, seat, outcome, ticket, findings, live)
        }
        _ => Ok(RowEffect::quiet(alloc)),
    }
}

/// An inquiry of a child of the case.
fn on_inquiry(
    alloc: Global,
    seat: OwnCase,
    ticket: Ticket,
    live: &Live,
) -> Result<RowEffect, AllocError>
    ensures { IfOk result (λ effect. DoesRow seat
        (on_inquiry (seat_meant seat) ticket live.now live.now.standing) effect live.now) }
{
    match coord_records::answer(live.standing(), seat.case.txn.presumption) {
        Some(outcome) => decided_inquiry(alloc, seat, outcome, ticket),
        None => Ok(RowEffect::quiet(alloc)),
    }
}

/// PREPARE of the parent.
fn on_prepare(alloc: Global, seat: OwnCase, live: &mut Live) -> Result<RowEffect, StepError>
    ensures ok { IfOk result (λ effect. DoesRow seat
        (on_prepare (seat_meant seat) live.old live.old.standing) effect live.new) }
    ensures err { OnErr result (live.new ≡ live.old) }
    ensures unwritten { IfErr result (NotWritten seat.parent
        (on_prepare (seat_meant seat) live.old live.old.standing).written) }
{
    match live.standing() {
        Standing::Active => active_commit(alloc, seat, live),
        Standing::Prepared => Ok(prepared_prepare(alloc, seat, live)?),
        Standing::Aborting => Ok(aborting_prepare(alloc, seat)?),
        Standing::Unknown => Ok(unknown_prepare(alloc, seat)?),
        _ => Ok(RowEffect::quiet(alloc)),
    }
}

/// The live case takes the row that it meets. Memory; Exhausted, if the row is beyond the bounds of numbers:
/// it says the same as before.
pub fn take_row(
    alloc: Global,
    seat: OwnCase,
    asked: CaseInput,
    live: &mut Live,
) -> Result<RowEffect, StepError>
    requires { Accepts asked live.old }
    ensures ok { IfOk result (λ effect. DoesRow seat
        (asked_row (seat_meant seat) asked.entry live.old) effect live.new) }
    ensures err { OnErr result (SameView live.new live.old) }
    ensures untaken { IfErr result (RowNotTaken seat (asked_row (seat_meant seat) asked.entry live.old)) }
{
    match asked {
        CaseInput::Join(child) => Ok(active_join(alloc, seat, child, live)?),
        CaseInput::Work(ticket, op) => active_work(alloc, seat, ticket, op, live),
        CaseInput::Commit => active_commit(alloc, seat, live),
        CaseInput::AbortActive => Ok(active_abort(alloc, seat, live)?),
        CaseInput::AbortCollecting => collecting_abort(alloc, seat, Reason::Act, live),
        CaseInput::Ask => Ok(prepared_ask(alloc, seat, live)?),
        CaseInput::Joined(ticket) => Ok(on_joined(alloc, seat, ticket, live)?),
        CaseInput::Vote(ticket, vote) => on_vote(alloc, seat, ticket, vote, live),
        CaseInput::Ack(ticket, outcome, findings) => {
            on_ack(alloc, seat, ticket, outcome, findings, live)
        }
        CaseInput::Inquire(ticket) => Ok(on_inquiry(alloc, seat, ticket, live)?),
        CaseInput::Prepare => on_prepare(alloc, seat, live),
        CaseInput::Commits => on_commit(alloc, seat, live),
        CaseInput::Aborts => on_abort(alloc, seat, live),
    }
}

/// The row that a case meets which is not live: JOINED and the messages of the parent.
pub fn answer(alloc: Global, seat: OwnCase, asked: CaseInput) -> Result<RowEffect, AllocError>
    requires { is_for_any asked ≡ true }
    ensures { IfOk result (λ effect. DoesRow seat
        (asked_row (seat_meant seat) asked.entry unknown_view) effect unknown_view) }
{
    match asked {
        CaseInput::Prepare => unknown_prepare(alloc, seat),
        CaseInput::Commits => unknown_commit(alloc, seat),
        CaseInput::Aborts => unknown_abort(alloc, seat),
        _ => Ok(RowEffect::quiet(alloc)),
    }
}
