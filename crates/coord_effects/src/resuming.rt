//! What a case sends as its coordinator restarts.

ghost use Rattle.std.specs.Prelude.{◌≡◌, ◌++◌, OnOk};
ghost use Rattle.protocol.specs.CoordinatorRows.{up};
ghost use Rattle.protocol.specs.Restarts.{resumes_by};
ghost use Rattle.coord_effects.specs.Rows.{seat_meant};

use crate::seat::{OwnCase, tell_each};
use coord_case::Live;
use protocol::{Envelope, Envelopes, Message, Outcome, Standing};
use std::alloc::AllocError;

/// After these messages an inquiry to the parent, if there is one.
fn inquire(messages: &mut Envelopes, seat: OwnCase) -> Result<(), AllocError>
    ensures { OnOk result (messages.new ≡ messages.old
        ++ up (seat_meant seat) (Message.Inquire seat.case)) }
{
    match seat.parent {
        None => Ok(()),
        Some(parent) => messages.push(Envelope {
            from: seat.me,
            to: parent,
            message: Message::Inquire(seat.case),
        }),
    }
}

/// After these messages what the case sends again: a decision goes to each that owes an acknowledgement,
/// and a case in doubt asks its parent.
pub fn resume(messages: &mut Envelopes, seat: OwnCase, live: &Live) -> Result<(), AllocError>
    ensures { OnOk result (messages.new ≡ messages.old
        ++ resumes_by (seat_meant seat) live.now live.now.standing) }
{
    match live.standing() {
        Standing::Committing => tell_each(messages, seat, Outcome::Committed, live.owed()),
        Standing::Aborting => tell_each(messages, seat, Outcome::Aborted, live.owed()),
        Standing::Prepared => inquire(messages, seat),
        _ => Ok(()),
    }
}
