//! What a row of the reaction table does.

ghost use Rattle.std.specs.Prelude.{◌≡◌, ◌∷◌, [], false, true, IfErr, IfOk};
ghost use Rattle.protocol.specs.Nodes.{logged_of};
ghost use Rattle.coord_effects.specs.Rows.{Frames, NotWritten, Shows, ShowsRecord, meant, reaction_by};

use crate::seat::OwnCase;
use log_text::Frame;
use log_writing::coordinator_frame;
use protocol::{Envelopes, Reaction, Record, Sequence, ShownRecord, StepError, Told};
use std::alloc::Global;

/// A record that a row writes, as it is in the log, and whether it is forced.
#[derive(Drop)]
pub struct RowFrame {
    pub frame: Frame,
    pub forced: bool,
}

/// A record that a row writes, and whether it is forced.
#[derive(Drop)]
pub struct RowRecord {
    pub entry: Record,
    pub forced: bool,
}

impl RowRecord {
    /// A record that is forced.
    pub fn forced(entry: Record) -> RowRecord
        ensures { result ≡ record { entry = entry; forced = true } }
    {
        RowRecord {
            entry,
            forced: true,
        }
    }

    /// A record that may be lost.
    pub fn plain(entry: Record) -> RowRecord
        ensures { result ≡ record { entry = entry; forced = false } }
    {
        RowRecord {
            entry,
            forced: false,
        }
    }

    /// The record as it is in the log of this coordinator. Exhausted: no log holds it.
    fn framed(&self, alloc: Global, seat: &OwnCase) -> Result<RowFrame, StepError>
        ensures ok { IfOk result (λ framed. Frames seat.now.parent framed self.now) }
        ensures unwritten { IfErr result (NotWritten seat.now.parent (meant self.now ∷ [])) }
    {
        Ok(RowFrame {
            frame: coordinator_frame(alloc, &self.entry, seat.parent)?,
            forced: self.forced,
        })
    }

    /// How a reaction shows it.
    fn shown(&self) -> ShownRecord
        ensures { result ≡ logged_of (meant self.now) }
    {
        ShownRecord {
            kind: self.entry.kind(),
            subject: self.entry.subject(),
            forced: self.forced,
        }
    }
}

/// What a row does: at most one record, with how a reaction shows it; what is told, and the messages.
#[derive(Drop)]
pub struct RowEffect {
    pub written: Option<RowFrame>,
    pub shown: Sequence<ShownRecord>,
    pub told: Option<Told>,
    pub messages: Envelopes,
}

impl RowEffect {
    /// Nothing. It takes no memory.
    pub fn quiet(alloc: Global) -> RowEffect
        ensures { Shows result None [] }
    {
        RowEffect::sends(alloc, Sequence::new(alloc))
    }

    /// These messages.
    pub fn sends(alloc: Global, messages: Envelopes) -> RowEffect
        ensures { Shows result None messages }
    {
        RowEffect::tells(alloc, None, messages)
    }

    /// This is told, and these messages go out.
    pub fn tells(alloc: Global, told: Option<Told>, messages: Envelopes) -> RowEffect
        ensures { Shows result told messages }
    {
        RowEffect {
            written: None,
            shown: Sequence::new(alloc),
            told,
            messages,
        }
    }

    /// A record is written, this is told, and these messages go out. Exhausted: no log holds the record.
    pub fn writes(
        alloc: Global,
        seat: &OwnCase,
        written: &RowRecord,
        told: Option<Told>,
        messages: Envelopes,
    ) -> Result<RowEffect, StepError>
        ensures ok { IfOk result (λ effect. ShowsRecord seat.now.parent effect written.now told messages) }
        ensures unwritten { IfErr result (NotWritten seat.now.parent (meant written.now ∷ [])) }
    {
        let mut shown = Sequence::new(alloc);
        shown.push(written.shown())?;
        Ok(RowEffect {
            written: Some(written.framed(alloc, seat)?),
            shown,
            told,
            messages,
        })
    }

    /// The reaction that shows it.
    pub fn reaction(self) -> Reaction
        ensures { result ≡ reaction_by self }
    {
        Reaction {
            begun: None,
            written: self.shown,
            told: self.told,
            messages: self.messages,
            kept: None,
        }
    }
}
