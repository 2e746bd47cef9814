//! The row that an outcome from the parent meets where a live case stands (R*). A decision that it
//! contradicts stays as it is.

ghost use Rattle.std.specs.Prelude.{◌≡◌, IfErr, IfOk, OnErr};
ghost use Rattle.protocol.specs.CoordinatorRows.{on_abort, on_commit};
ghost use Rattle.process_state.specs.Turns.{this_version};
ghost use Rattle.coord_effects.specs.Rows.{DoesRow, NotWritten, seat_meant};

use crate::active::active_abort;
use crate::collecting::collecting_abort;
use crate::decided::{aborting_abort, committing_commit, unknown_abort, unknown_commit};
use coord_case::Live;
use coord_effects::{OwnCase, Reason, RowEffect, prepared_abort, prepared_commit};
use protocol::{Standing, StepError};
use std::alloc::Global;

/// COMMIT of the parent. Memory, Exhausted: nothing changed.
pub fn on_commit(alloc: Global, seat: OwnCase, live: &mut Live) -> Result<RowEffect, StepError>
    ensures ok { IfOk result (λ effect. DoesRow seat
        (on_commit this_version (seat_meant seat) live.old live.old.standing) effect live.new) }
    ensures err { OnErr result (live.new ≡ live.old) }
    ensures unwritten { IfErr result (NotWritten seat.parent
        (on_commit this_version (seat_meant seat) live.old live.old.standing).written) }
{
    match live.standing() {
        Standing::Prepared => prepared_commit(alloc, seat, live),
        Standing::Committing => Ok(committing_commit(alloc)),
        Standing::Unknown => Ok(unknown_commit(alloc, seat)?),
        _ => Ok(RowEffect::quiet(alloc)),
    }
}

/// ABORT of the parent. Memory, Exhausted: nothing changed.
pub fn on_abort(alloc: Global, seat: OwnCase, live: &mut Live) -> Result<RowEffect, StepError>
    ensures ok { IfOk result (λ effect. DoesRow seat
        (on_abort this_version (seat_meant seat) live.old live.old.standing) effect live.new) }
    ensures err { OnErr result (live.new ≡ live.old) }
    ensures unwritten { IfErr result (NotWritten seat.parent
        (on_abort this_version (seat_meant seat) live.old live.old.standing).written) }
{
    match live.standing() {
        Standing::Active => Ok(active_abort(alloc, seat, live)?),
        Standing::Collecting => collecting_abort(alloc, seat, Reason::Abort, live),
        Standing::Prepared => prepared_abort(alloc, seat, live),
        Standing::Aborting => Ok(aborting_abort(alloc)),
        Standing::Unknown => Ok(unknown_abort(alloc, seat)?),
        _ => Ok(RowEffect::quiet(alloc)),
    }
}
