//! The parts of steps.

ghost use Rattle.std.specs.Prelude.{◌≡◌, ◌<◌, ◌++◌, [], IfOk, OnOk, length, option_map};
ghost use Rattle.std.specs.Vec.{vec_capacity, vec_len};
ghost use Rattle.std.specs.Option.{option_copied};
ghost use Rattle.protocol.specs.declared.messages.Message.{Message as AnyMessage};
ghost use Rattle.protocol.specs.Plays.{sent_as};
ghost use Rattle.tree_journal.specs.Shown.{shown_part};
ghost use Rattle.tree_journal.specs.Steps.{aside_by, aside_in, aside_of, asides_by, ends_of, entry_of_part, happening_in, last_reaction, last_step, parts_begun, parts_placed, process_of, reaction_in, short_step};
ghost use Rattle.tree_journal.specs.Kept.{CanBegin, CanPlace, parts_of};

use crate::placed_step::PlacedStep;
use crate::short_step::{Aside, Cause, Ends, LastStep, ShortStep, keep_act, keep_aside};
use crate::shown::ShownStep;
use crate::span::{keep_all, part_of};
use protocol::{
    Act, Envelope, Happening, Input, JournalEntry, ProcessId, Reaction, ShownRecord, Step,
};
use std::alloc::{AllocError, Global};

/// The lists in which the parts of steps stand.
#[derive(Drop)]
pub(crate) struct Parts {
    /// What applications and operators asked.
    pub(crate) acts: Vec<Act>,
    /// What few reactions have.
    pub(crate) asides: Vec<Aside>,
    /// The records that were written.
    pub(crate) records: Vec<ShownRecord>,
    /// The messages that were sent; the first has number 1.
    pub(crate) sent: Vec<Envelope>,
}

impl Parts {
    /// No parts. It takes no memory.
    pub(crate) fn new(alloc: Global) -> Parts
        ensures { parts_of result ≡ record { acts = []; asides = []; records = []; sent = [] } }
    {
        Parts {
            acts: Vec::new(alloc),
            asides: Vec::new(alloc),
            records: Vec::new(alloc),
            sent: Vec::new(alloc),
        }
    }

    /// The message with this number, from 1; None for 0, and after the last.
    pub(crate) fn message(&self, number: u64) -> Option<&Envelope>
        ensures { option_copied result ≡ sent_as self.now.sent.items number }
    {
        if number == 0 {
            None
        } else {
            self.sent.get((number - 1) as usize)
        }
    }

    /// What happened, of a step with this cause, made again; None, if what it names is not there.
    fn happening(&self, alloc: Global, cause: Cause) -> Result<Option<Happening>, AllocError>
        ensures { IfOk result (λ found. found ≡ happening_in (parts_of self.now) cause) }
    {
        Ok(match cause {
            Cause::Act { place, .. } => match self.acts.get(place) {
                None => None,
                Some(act) => Some(Happening::Input(Input::Act(act.copied(alloc)?))),
            },
            Cause::Message { number, .. } => match self.message(number) {
                None => None,
                Some(envelope) => {
                    let message = envelope.message.copied(alloc)?;
                    Some(Happening::Input(Input::Message(number, message)))
                }
            },
            Cause::Restart { kept, .. } => Some(Happening::Restart(kept)),
            Cause::Trim { .. } => Some(Happening::Trim),
        })
    }

    /// What few reactions have, by its number, from 1; nothing of it for 0, and None after the last.
    fn aside(&self, number: usize) -> Option<Aside>
        ensures { result ≡ aside_in self.now.asides.items number }
    {
        if number == 0 {
            Some(Aside {
                begun: None,
                told: None,
                kept: None,
            })
        } else {
            self.asides.get(number - 1).copied()
        }
    }

    /// What a step shows, lent; None, if what it names is not there.
    pub(crate) fn shown(&self, step: &PlacedStep) -> Option<ShownStep<'_>>
        ensures { option_map shown_part result
            ≡ option_map (λ r. (process_of step.now.cause, r)) (reaction_in (parts_of self.now) step.now) }
    {
        let written = part_of(&self.records, step.written)?;
        let messages = part_of(&self.sent, step.messages)?;
        let aside = self.aside(step.aside)?;
        Some(ShownStep {
            process: step.cause.process(),
            begun: aside.begun,
            written,
            told: aside.told,
            messages,
            kept: aside.kept,
        })
    }

    /// What the last step shows, lent; None, if what it names is not there.
    pub(crate) fn last_shown<'a>(&self, last: &'a LastStep) -> Option<ShownStep<'a>>
        ensures { option_map shown_part result
            ≡ option_map (λ r. (process_of last.now.cause, r)) (last_reaction (parts_of self.now) last.now) }
    {
        let aside = self.aside(last.aside)?;
        Some(ShownStep {
            process: last.cause.process(),
            begun: aside.begun,
            written: last.written.as_slice(),
            told: aside.told,
            messages: last.messages.as_slice(),
            kept: aside.kept,
        })
    }

    /// The journal's entry of a step with this cause, which shows this, made again; None, if either is not
    /// there.
    pub(crate) fn entry(
        &self,
        alloc: Global,
        cause: Cause,
        shown: Option<ShownStep>,
    ) -> Result<Option<JournalEntry>, AllocError>
        ensures { IfOk result (λ found. found ≡ entry_of_part (happening_in (parts_of self.now) cause)
            (option_map shown_part shown.entry)) }
    {
        let Some(happening) = self.happening(alloc, cause)? else {
            return Ok(None);
        };
        let Some(shown) = shown else {
            return Ok(None);
        };
        Ok(Some(JournalEntry {
            step: Step {
                process: shown.process,
                happening,
                fault: None,
            },
            reaction: shown.reaction(alloc)?,
        }))
    }

    /// Makes room for an act, and for what few reactions have. A refusal for memory changes nothing.
    pub(crate) fn reserve_one(&mut self) -> Result<(), AllocError>
        ensures keeps { parts_of self.new ≡ parts_of self.old }
        ensures ready { OnOk result (CanBegin self.new) }
    {
        self.acts.reserve(1)?;
        self.asides.reserve(1)
    }

    /// Makes room for the last step's records and messages. A refusal for memory changes nothing.
    pub(crate) fn reserve_for(&mut self, last: &LastStep) -> Result<(), AllocError>
        ensures keeps { parts_of self.new ≡ parts_of self.old }
        ensures begins { CanBegin self.old → CanBegin self.new }
        ensures ready { OnOk result (CanPlace self.new last.now) }
    {
        self.records.reserve(last.written.len())?;
        self.sent.reserve(last.messages.len())
    }

    /// Keeps what happened and what few reactions have, for which there is room: the step, with all else that
    /// it has.
    pub(crate) fn begin(
        &mut self,
        process: ProcessId,
        happening: Happening,
        reaction: Reaction,
    ) -> LastStep
        requires { CanBegin self.old }
        ensures last { result ≡ last_step (parts_of self.old) process happening reaction }
        ensures parts { parts_of self.new ≡ parts_begun (parts_of self.old) happening reaction }
    {
        let cause = keep_act(&mut self.acts, process, happening);
        begin_by(&mut self.asides, cause, reaction)
    }

    /// As `begin`, of a step that handles the message with this number, whatever the message says.
    pub(crate) fn begin_message(
        &mut self,
        process: ProcessId,
        number: u64,
        reaction: Reaction,
    ) -> LastStep
        requires { CanBegin self.old }
        ensures last { (m : AnyMessage) → result ≡ last_step (parts_of self.old) process
            (Happening.Input (Input.Message number m)) reaction }
        ensures parts { (m : AnyMessage) → parts_of self.new ≡ parts_begun (parts_of self.old)
            (Happening.Input (Input.Message number m)) reaction }
    {
        begin_by(
            &mut self.asides,
            Cause::Message { process, number },
            reaction,
        )
    }

    /// Where the records and the messages of all steps end.
    fn ends(&self) -> Ends
        ensures { result ≡ ends_of (parts_of self.now) }
    {
        Ends {
            written: self.records.len(),
            messages: self.sent.len(),
        }
    }

    /// Keeps the records and the messages of the last step, for which there is room: what is kept of the
    /// step.
    pub(crate) fn place(&mut self, last: LastStep) -> ShortStep
        requires { CanPlace self.old last }
        ensures step { result ≡ short_step (parts_of self.old) last }
        ensures parts { parts_of self.new ≡ parts_placed (parts_of self.old) last }
        ensures begins { CanBegin self.old → CanBegin self.new }
    {
        keep_all(&mut self.records, last.written);
        keep_all(&mut self.sent, last.messages);
        ShortStep {
            cause: last.cause,
            ends: self.ends(),
            aside: last.aside,
        }
    }
}

/// A step with this cause and all that its reaction has, of which what few reactions have is kept. There has
/// to be room for that.
fn begin_by(asides: &mut Vec<Aside>, cause: Cause, reaction: Reaction) -> LastStep
    requires { vec_len asides.old < vec_capacity asides.old }
    ensures last { result ≡ record {
      cause = cause;
      written = reaction.written;
      messages
          = reaction.messages;
      aside = aside_by (length asides.old.items) (aside_of reaction);
    } }
    ensures asides { asides.new.items ≡ asides.old.items ++ asides_by (aside_of reaction) }
{
    let aside = Aside {
        begun: reaction.begun,
        told: reaction.told,
        kept: reaction.kept,
    };
    LastStep {
        cause,
        written: reaction.written,
        messages: reaction.messages,
        aside: keep_aside(asides, aside),
    }
}
