//! Rows of the reaction table for a case that promised, below the root (R*).

ghost use Rattle.std.specs.Prelude.{◌≡◌, IfErr, IfOk, OnErr};
ghost use Rattle.protocol.specs.CoordinatorRows.{prepared_abort, prepared_ask, prepared_commit, prepared_prepare};
ghost use Rattle.protocol.specs.SameViews.{SameView};
ghost use Rattle.process_state.specs.Turns.{this_version};
ghost use Rattle.coord_effects.specs.Rows.{DoesRow, NotWritten, seat_meant};

use crate::deciding::{decides_owed, forgets_behind};
use crate::effect::{RowEffect, RowRecord};
use crate::seat::{OwnCase, tell_each, up};
use coord_case::Live;
use protocol::{Message, Outcome, Presumption, Record, Sequence, StepError};
use std::alloc::{AllocError, Global};

/// Prepared, COMMIT: the promised are told. Under Presumed Abort the decision is forced and names those that
/// owe an acknowledgement; it is acknowledged itself after the last of theirs. Under Presumed Commit nobody
/// owes one. Memory, Exhausted: nothing changed.
pub fn prepared_commit(
    alloc: Global,
    seat: OwnCase,
    live: &mut Live,
) -> Result<RowEffect, StepError>
    ensures ok { IfOk result (λ effect. DoesRow seat
        (prepared_commit this_version (seat_meant seat) live.old) effect live.new) }
    ensures err { OnErr result (live.new ≡ live.old) }
    ensures unwritten { IfErr result (NotWritten seat.parent
        (prepared_commit this_version (seat_meant seat) live.old).written) }
{
    let promised = Vec::from_slice(alloc, live.promised())?;
    let mut messages = Sequence::new(alloc);
    tell_each(&mut messages, seat, Outcome::Committed, &promised)?;
    match seat.case.txn.presumption {
        Presumption::PresumeAbort => {
            decides_owed(
                alloc,
                seat,
                Outcome::Committed,
                promised,
                None,
                messages,
                live,
            )
        }
        Presumption::PresumeCommit => {
            let written = RowRecord::plain(Record::Commit(seat.case, Sequence::new(alloc)));
            forgets_behind(alloc, seat, &written, None, messages, live)
        }
    }
}

/// Prepared, ABORT: the promised are told. Under Presumed Commit the abort is forced and names those that owe
/// an acknowledgement, as above; under Presumed Abort nobody owes one. Memory, Exhausted:
/// nothing changed.
pub fn prepared_abort(alloc: Global, seat: OwnCase, live: &mut Live) -> Result<RowEffect, StepError>
    ensures ok { IfOk result (λ effect. DoesRow seat
        (prepared_abort this_version (seat_meant seat) live.old) effect live.new) }
    ensures err { OnErr result (live.new ≡ live.old) }
    ensures unwritten { IfErr result (NotWritten seat.parent
        (prepared_abort this_version (seat_meant seat) live.old).written) }
{
    let promised = Vec::from_slice(alloc, live.promised())?;
    let mut messages = Sequence::new(alloc);
    tell_each(&mut messages, seat, Outcome::Aborted, &promised)?;
    match seat.case.txn.presumption {
        Presumption::PresumeAbort => {
            let written = RowRecord::plain(Record::Abort(seat.case, Sequence::new(alloc)));
            forgets_behind(alloc, seat, &written, None, messages, live)
        }
        Presumption::PresumeCommit => {
            decides_owed(
                alloc,
                seat,
                Outcome::Aborted,
                promised,
                None,
                messages,
                live,
            )
        }
    }
}

/// Prepared, PREPARE again: YES again.
pub fn prepared_prepare(alloc: Global, seat: OwnCase, live: &Live) -> Result<RowEffect, AllocError>
    ensures { IfOk result (λ effect. DoesRow seat (prepared_prepare (seat_meant seat) live.now)
        effect live.now) }
{
    let messages = up(alloc, seat, Message::Yes(seat.case))?;
    Ok(RowEffect::sends(alloc, messages))
}

/// Prepared, the ask act: the case asks its parent.
pub fn prepared_ask(alloc: Global, seat: OwnCase, live: &Live) -> Result<RowEffect, AllocError>
    ensures { IfOk result (λ effect. DoesRow seat (prepared_ask (seat_meant seat) live.now) effect live.now) }
{
    let messages = up(alloc, seat, Message::Inquire(seat.case))?;
    Ok(RowEffect::sends(alloc, messages))
}
