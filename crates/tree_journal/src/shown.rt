//! What a step shows.

ghost use Rattle.std.specs.Prelude.{◌≡◌, IfOk};
ghost use Rattle.tree_journal.specs.Shown.{shown_part};

use crate::copies::copied_messages;
use protocol::{Envelope, ProcessId, Reaction, Sequence, ShownRecord, Told, Txn};
use std::alloc::{AllocError, Global};

/// A step's process and its reaction, lent: nothing is copied.
#[derive(Clone, Copy)]
pub struct ShownStep<'a> {
    /// The process that made the step.
    pub process: ProcessId,
    /// The transaction that was begun, if one was.
    pub begun: Option<Txn>,
    /// The records that were written, in order.
    pub written: &'a [ShownRecord],
    /// What was told to the application, if anything was.
    pub told: Option<Told>,
    /// The messages that were sent, in order.
    pub messages: &'a [Envelope],
    /// How many records a trim kept, if it was one.
    pub kept: Option<u64>,
}

impl ShownStep<'_> {
    /// The reaction once more.
    pub(crate) fn reaction(&self, alloc: Global) -> Result<Reaction, AllocError>
        ensures { IfOk result (λ copy. copy ≡ (shown_part self.now).1) }
    {
        Ok(Reaction {
            begun: self.begun,
            written: Sequence::from_vec(Vec::from_slice(alloc, self.written)?),
            told: self.told,
            messages: copied_messages(alloc, self.messages)?,
            kept: self.kept,
        })
    }
}
