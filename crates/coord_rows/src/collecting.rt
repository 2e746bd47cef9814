//! Rows of the reaction table for a case that collects votes (R*).

ghost use Rattle.std.specs.Prelude.{◌≡◌, IfErr, IfOk, OnErr};
ghost use Rattle.protocol.specs.CoordinatorRows.{cascaded_prepares, collecting_abort, collecting_abort_by, collecting_after, collecting_full, collecting_read_only, collecting_vote, root_commits};
ghost use Rattle.protocol.specs.SameViews.{SameView};
ghost use Rattle.coord_effects.specs.Rows.{DoesRow, NotWritten, reason_meant, seat_meant};

use coord_case::Live;
use coord_effects::{
    OwnCase, Reason, RowEffect, RowRecord, decides_owed, forgets_behind, heard_above, tell_each, up,
};
use protocol::{
    Conclusion, Message, Outcome, Presumption, Record, Sequence, StepError, Ticket, Told, Vote,
};
use std::alloc::Global;

/// Collecting, a vote: the first of an accepted ticket counts. Memory, Exhausted: nothing changed.
pub fn collecting_vote(
    alloc: Global,
    seat: OwnCase,
    ticket: Ticket,
    vote: Vote,
    live: &mut Live,
) -> Result<RowEffect, StepError>
    ensures ok { IfOk result (λ effect. DoesRow seat
        (collecting_vote (seat_meant seat) ticket vote live.old) effect live.new) }
    ensures err { OnErr result (SameView live.new live.old) }
    ensures unwritten { IfErr result (NotWritten seat.parent
        (collecting_vote (seat_meant seat) ticket vote live.old).written) }
{
    if !live.is_counted(&ticket) {
        return Ok(RowEffect::quiet(alloc));
    }
    live.count_vote(&ticket, vote);
    match collecting_after(alloc, seat, vote, live) {
        Ok(effect) => Ok(effect),
        Err(refusal) => {
            live.uncount_vote(&ticket);
            Err(refusal)
        }
    }
}

/// The vote was counted: a NO aborts, and the last vote decides.
fn collecting_after(
    alloc: Global,
    seat: OwnCase,
    vote: Vote,
    live: &mut Live,
) -> Result<RowEffect, StepError>
    ensures ok { IfOk result (λ effect. DoesRow seat
        (collecting_after (seat_meant seat) live.old vote) effect live.new) }
    ensures err { OnErr result (live.new ≡ live.old) }
    ensures unwritten { IfErr result (NotWritten seat.parent
        (collecting_after (seat_meant seat) live.old vote).written) }
{
    match vote {
        Vote::No => collecting_abort(alloc, seat, Reason::Vote, live),
        Vote::Yes | Vote::Read => {
            if live.all_voted() {
                collecting_full(alloc, seat, live)
            } else {
                Ok(RowEffect::quiet(alloc))
            }
        }
    }
}

/// Collecting, a NO, the abort act or ABORT: under Presumed Commit the abort is forced and names those that
/// may have promised. Memory, Exhausted: nothing changed.
pub fn collecting_abort(
    alloc: Global,
    seat: OwnCase,
    reason: Reason,
    live: &mut Live,
) -> Result<RowEffect, StepError>
    ensures ok { IfOk result (λ effect. DoesRow seat
        (collecting_abort (seat_meant seat) (reason_meant reason) live.old) effect live.new) }
    ensures err { OnErr result (live.new ≡ live.old) }
    ensures unwritten { IfErr result (NotWritten seat.parent
        (collecting_abort (seat_meant seat) (reason_meant reason) live.old).written) }
{
    let undecided = live.undecided(alloc)?;
    abort_undecided(alloc, seat, reason, undecided, live)
}

fn abort_undecided(
    alloc: Global,
    seat: OwnCase,
    reason: Reason,
    undecided: Vec<Ticket>,
    live: &mut Live,
) -> Result<RowEffect, StepError>
    ensures ok { IfOk result (λ effect. DoesRow seat
        (collecting_abort_by (seat_meant seat) (reason_meant reason)
        live.old undecided.items seat.case.txn.presumption) effect live.new) }
    ensures err { OnErr result (live.new ≡ live.old) }
    ensures unwritten { IfErr result (NotWritten seat.parent
        (collecting_abort_by (seat_meant seat) (reason_meant reason) live.old undecided.items
        seat.case.txn.presumption).written) }
{
    let mut messages = heard_above(alloc, seat, reason, &undecided)?;
    tell_each(&mut messages, seat, Outcome::Aborted, &undecided)?;
    let told = seat.told(Conclusion::Aborted);
    match seat.case.txn.presumption {
        Presumption::PresumeAbort => {
            let written = RowRecord::plain(Record::Abort(seat.case, Sequence::new(alloc)));
            forgets_behind(alloc, seat, &written, told, messages, live)
        }
        Presumption::PresumeCommit => {
            let outcome = Outcome::Aborted;
            decides_owed(alloc, seat, outcome, undecided, told, messages, live)
        }
    }
}

/// The last vote, and none was NO: with nobody that promised the case has read only; else the root commits,
/// and a coordinator below it promises.
fn collecting_full(alloc: Global, seat: OwnCase, live: &mut Live) -> Result<RowEffect, StepError>
    ensures ok { IfOk result (λ effect. DoesRow seat (collecting_full (seat_meant seat) live.old)
        effect live.new) }
    ensures err { OnErr result (live.new ≡ live.old) }
    ensures unwritten { IfErr result (NotWritten seat.parent
        (collecting_full (seat_meant seat) live.old).written) }
{
    if live.none_voted_yes() {
        return collecting_read_only(alloc, seat, live);
    }
    let yes = live.yes(alloc)?;
    match seat.parent {
        None => root_commits(alloc, seat, yes, live),
        Some(_) => cascaded_prepares(alloc, seat, &yes, live),
    }
}

/// All read only: nothing is decided. Under Presumed Commit the record of the votes' collection is ended.
fn collecting_read_only(
    alloc: Global,
    seat: OwnCase,
    live: &mut Live,
) -> Result<RowEffect, StepError>
    ensures ok { IfOk result (λ effect. DoesRow seat (collecting_read_only (seat_meant seat))
        effect live.new) }
    ensures err { OnErr result (live.new ≡ live.old) }
    ensures unwritten { IfErr result (NotWritten seat.parent
        (collecting_read_only (seat_meant seat)).written) }
{
    let messages = up(alloc, seat, Message::Read(seat.case))?;
    let told = seat.told(Conclusion::ReadOnly);
    match seat.case.txn.presumption {
        Presumption::PresumeAbort => {
            live.forget();
            Ok(RowEffect::tells(alloc, told, messages))
        }
        Presumption::PresumeCommit => {
            let written = RowRecord::plain(Record::End(seat.case, None));
            forgets_behind(alloc, seat, &written, told, messages, live)
        }
    }
}

/// The root's decision: a forced Commit. Under Presumed Abort it names those that owe an acknowledgement;
/// under Presumed Commit nobody owes one, and the case is forgotten.
fn root_commits(
    alloc: Global,
    seat: OwnCase,
    yes: Vec<Ticket>,
    live: &mut Live,
) -> Result<RowEffect, StepError>
    ensures ok { IfOk result (λ effect. DoesRow seat
        (root_commits (seat_meant seat) live.old yes.items seat.case.txn.presumption) effect live.new) }
    ensures err { OnErr result (live.new ≡ live.old) }
    ensures unwritten { IfErr result (NotWritten seat.parent
        (root_commits (seat_meant seat) live.old yes.items seat.case.txn.presumption).written) }
{
    let mut messages = Sequence::new(alloc);
    tell_each(&mut messages, seat, Outcome::Committed, &yes)?;
    let told = Some(Told {
        txn: seat.case.txn,
        conclusion: Conclusion::Committed,
    });
    match seat.case.txn.presumption {
        Presumption::PresumeAbort => {
            decides_owed(alloc, seat, Outcome::Committed, yes, told, messages, live)
        }
        Presumption::PresumeCommit => {
            let written = RowRecord::forced(Record::Commit(seat.case, Sequence::new(alloc)));
            forgets_behind(alloc, seat, &written, told, messages, live)
        }
    }
}

/// The promise of a coordinator below the root: a forced Prepare that names these, and YES to the parent.
fn cascaded_prepares(
    alloc: Global,
    seat: OwnCase,
    yes: &[Ticket],
    live: &mut Live,
) -> Result<RowEffect, StepError>
    ensures ok { IfOk result (λ effect. DoesRow seat
        (cascaded_prepares (seat_meant seat) live.old yes.now) effect live.new) }
    ensures err { OnErr result (live.new ≡ live.old) }
    ensures unwritten { IfErr result (NotWritten seat.parent
        (cascaded_prepares (seat_meant seat) live.old yes.now).written) }
{
    let messages = up(alloc, seat, Message::Yes(seat.case))?;
    let named = Sequence::from_vec(Vec::from_slice(alloc, yes)?);
    let written = RowRecord::forced(Record::Prepare(seat.case, named));
    let effect = RowEffect::writes(alloc, &seat, &written, None, messages)?;
    live.promise(alloc, yes)?;
    Ok(effect)
}
