//! Rows of the reaction table for a case that takes children and work (R*).

ghost use Rattle.std.specs.Prelude.{◌≡◌, ◌≤◌, ◌+◌, ◌^◌, true, IfErr, IfOk, OnErr};
ghost use Rattle.protocol.specs.Records.{in_list};
ghost use Rattle.protocol.specs.CoordinatorRows.{active_abort, active_commit, active_commit_with, active_join, active_joined, active_work};
ghost use Rattle.protocol.specs.Memory.{works_of};
ghost use Rattle.protocol.specs.SameViews.{SameView};
ghost use Rattle.coord_effects.specs.Rows.{DoesRow, NotWritten, seat_meant};
ghost use Rattle.coord_rows.specs.Works.{NotSent};

use coord_case::Live;
use coord_effects::{OwnCase, RowEffect, RowRecord, acknowledge_abort, tell_each, up};
use process_state::one_message;
use protocol::{
    Conclusion, Message, Op, Outcome, Presumption, ProcessId, Record, Sequence, StepError, Ticket,
};
use std::alloc::{AllocError, Global};

/// Active, the join act: a child that is not accepted is invited.
pub fn active_join(
    alloc: Global,
    seat: OwnCase,
    child: ProcessId,
    live: &Live,
) -> Result<RowEffect, AllocError>
    ensures { IfOk result (λ effect. DoesRow seat (active_join (seat_meant seat) child live.now)
        effect live.now) }
{
    if live.has_child(child) {
        return Ok(RowEffect::quiet(alloc));
    }
    let messages = one_message(alloc, seat.me, child, Message::Join(seat.case))?;
    Ok(RowEffect::sends(alloc, messages))
}

/// Active, JOINED: the first ticket of a child is accepted. Memory: nothing changed.
pub fn active_joined(
    alloc: Global,
    seat: OwnCase,
    ticket: Ticket,
    live: &mut Live,
) -> Result<RowEffect, AllocError>
    ensures ok { IfOk result (λ effect. DoesRow seat (active_joined ticket live.old) effect live.new) }
    ensures err { OnErr result (live.new ≡ live.old) }
{
    if !live.has_child(ticket.child) {
        live.accept(ticket)?;
    }
    Ok(RowEffect::quiet(alloc))
}

/// Active, the work act: the accepted child's next work is sent. Memory; Exhausted, if 2^64 - 1 works were
/// sent to the child: nothing changed.
pub fn active_work(
    alloc: Global,
    seat: OwnCase,
    ticket: Ticket,
    op: &Op,
    live: &mut Live,
) -> Result<RowEffect, StepError>
    requires { in_list live.old.accepted ticket ≡ true }
    ensures ok { IfOk result (λ effect. DoesRow seat
        (active_work (seat_meant seat) ticket op.now live.old) effect live.new) }
    ensures err { OnErr result (live.new ≡ live.old) }
    ensures unsent { IfErr result (NotSent (works_of live.old.works ticket + 1)) }
{
    let sent = live.works_sent(&ticket);
    if sent == u64::MAX {
        return Err(StepError::Exhausted);
    }
    let message = Message::Work(seat.child_case(ticket), sent + 1, op.copied(alloc)?);
    let messages = one_message(alloc, seat.me, ticket.child, message)?;
    live.add_work(&ticket, sent);
    Ok(RowEffect::sends(alloc, messages))
}

/// Active, the commit act or PREPARE: where nobody takes part the case has read only, else each child is
/// asked for its vote. Memory, Exhausted: nothing changed.
pub fn active_commit(alloc: Global, seat: OwnCase, live: &mut Live) -> Result<RowEffect, StepError>
    ensures ok { IfOk result (λ effect. DoesRow seat (active_commit (seat_meant seat) live.old)
        effect live.new) }
    ensures err { OnErr result (live.new ≡ live.old) }
    ensures unwritten { IfErr result (NotWritten seat.parent
        (active_commit (seat_meant seat) live.old).written) }
{
    if !live.is_alone() {
        return active_commit_with(alloc, seat, live);
    }
    let messages = up(alloc, seat, Message::Read(seat.case))?;
    live.forget();
    Ok(RowEffect::tells(alloc, seat.told(Conclusion::ReadOnly), messages))
}

/// Under Presumed Commit the children are named in a forced record before they are asked.
fn active_commit_with(alloc: Global, seat: OwnCase, live: &mut Live) -> Result<RowEffect, StepError>
    ensures ok { IfOk result (λ effect. DoesRow seat
        (active_commit_with (seat_meant seat) live.old seat.case.txn.presumption) effect live.new) }
    ensures err { OnErr result (live.new ≡ live.old) }
    ensures unwritten { IfErr result (NotWritten seat.parent
        (active_commit_with (seat_meant seat) live.old seat.case.txn.presumption).written) }
{
    let messages = live.prepares(alloc, seat.me, seat.case.txn)?;
    match seat.case.txn.presumption {
        Presumption::PresumeAbort => {
            live.collect();
            Ok(RowEffect::sends(alloc, messages))
        }
        Presumption::PresumeCommit => {
            let tickets = live.tickets(alloc)?;
            let named = Sequence::from_vec(Vec::from_slice(alloc, &tickets)?);
            let written = RowRecord::forced(Record::Collecting(seat.case, named));
            let effect = RowEffect::writes(alloc, &seat, &written, None, messages)?;
            live.collect_named(&tickets)?;
            Ok(effect)
        }
    }
}

/// Active, the abort act or ABORT: the children are told, and nothing is written, since none can have
/// promised. Memory: nothing changed.
pub fn active_abort(alloc: Global, seat: OwnCase, live: &mut Live) -> Result<RowEffect, AllocError>
    ensures ok { IfOk result (λ effect. DoesRow seat (active_abort (seat_meant seat) live.old)
        effect live.new) }
    ensures err { OnErr result (live.new ≡ live.old) }
{
    let tickets = live.tickets(alloc)?;
    let mut messages = acknowledge_abort(alloc, seat)?;
    tell_each(&mut messages, seat, Outcome::Aborted, &tickets)?;
    live.forget();
    Ok(RowEffect::tells(alloc, seat.told(Conclusion::Aborted), messages))
}
