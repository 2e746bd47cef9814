//! Copies of messages.

ghost use Rattle.std.specs.Prelude.{◌≡◌, ◌++◌, IfOk, OnOk};

use protocol::{Envelope, Envelopes};
use std::alloc::{AllocError, Global};

/// Adds copies of these messages. Where memory is refused, some may have been added.
pub(crate) fn copy_to(
    alloc: Global,
    sent: &mut Vec<Envelope>,
    messages: &[Envelope],
) -> Result<(), AllocError>
    ensures { OnOk result (sent.new.items ≡ sent.old.items ++ messages.now) }
{
    for envelope in messages {
        sent.push(envelope.copied(alloc)?)?;
    }
    Ok(())
}

/// These messages once more.
pub(crate) fn copied_messages(alloc: Global, messages: &[Envelope]) -> Result<Envelopes, AllocError>
    ensures { IfOk result (λ copy. copy ≡ messages.now) }
{
    let mut copy = Vec::new(alloc);
    copy.reserve_exact(messages.len())?;
    copy_to(alloc, &mut copy, messages)?;
    Ok(Envelopes::from_vec(copy))
}
