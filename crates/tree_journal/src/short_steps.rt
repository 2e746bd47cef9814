//! The steps of a journal, kept short.

ghost use Rattle.std.specs.Prelude.{◌≡◌, ◌+◌, ◌<◌, ◌^◌, ◌++◌, ◌∷◌, [], true, false, IfOk, IfSome, OnErr, OnOk, is_some, length, option_map, slice_get};
ghost use Rattle.std.specs.Option.{option_copied};
ghost use Rattle.protocol.specs.Plays.{sent_as};
ghost use Rattle.tree_state.specs.Worlds.{step_entry};
ghost use Rattle.tree_journal.specs.Steps.{HandlesSent};
ghost use Rattle.tree_journal.specs.Kept.{HasStepRoom, KeepsSteps, Places};
ghost use Rattle.tree_journal.specs.Shown.{entry_part, shown_part};

use crate::copies::copy_to;
use crate::parts::Parts;
use crate::placed_step::step_at;
use crate::short_step::{LastStep, ShortStep};
use crate::shown::ShownStep;
use protocol::{Envelope, Happening, Input, JournalEntry, ProcessId, Reaction};
use std::alloc::{AllocError, Global};
use std::marker::Model;

/// Steps that were made, each with its reaction. Their parts are in lists, one step's after another's, and
/// each step has where its own end. One that handled a message has the number of it.
///
/// How many records and messages a step has is not known before it is made, and it is entered without a
/// growth: so the last one has its own until they are placed in the lists.
#[derive(Drop)]
pub struct ShortSteps {
    alloc: Global,
    parts: Parts,
    steps: Vec<ShortStep>,
    last: Option<LastStep>,
}

impl Model for ShortSteps {
    ghost use Rattle.tree_journal.specs.Kept.{AreWhole, StepsState, steps_seen};

    ghost Value = { StepsState };

    ghost view = { λ s. steps_seen s.parts s.steps s.last };

    ghost invariant = { λ s. AreWhole s.parts s.steps s.last };
}

impl ShortSteps {
    /// No steps. It takes no memory.
    pub fn new(alloc: Global) -> ShortSteps
        ensures sent { result.sent ≡ [] }
        ensures waiting { result.waiting ≡ [] }
        ensures entries { result.entries ≡ [] }
    {
        ShortSteps {
            alloc,
            parts: Parts::new(alloc),
            steps: Vec::new(alloc),
            last: None,
        }
    }

    /// How many steps there are.
    pub fn len(&self) -> usize
        ensures { result ≡ length self.now.entries }
    {
        match self.last {
            None => self.steps.len(),
            Some(_) => self.steps.len() + 1,
        }
    }

    /// How many messages are placed.
    pub fn placed(&self) -> usize
        ensures { result ≡ length self.now.sent }
    {
        self.parts.sent.len()
    }

    /// All messages that were sent, in order, as a list made again.
    pub fn sent(&self) -> Result<Vec<Envelope>, AllocError>
        ensures { IfOk result (λ sent. sent.items ≡ self.now.sent ++ self.now.waiting) }
    {
        let mut sent = Vec::new(self.alloc);
        copy_to(self.alloc, &mut sent, &self.parts.sent)?;
        if let Some(last) = &self.last {
            copy_to(self.alloc, &mut sent, last.messages.as_slice())?;
        }
        Ok(sent)
    }

    /// The message with this number, from 1; None for 0, and after those that are placed.
    pub fn message(&self, number: u64) -> Option<&Envelope>
        ensures { option_copied result ≡ sent_as self.now.sent number }
    {
        self.parts.message(number)
    }

    /// What the step at this place shows, from 0, lent; None, if N were not made.
    pub fn shown(&self, place: usize) -> Option<ShownStep<'_>>
        ensures { option_map shown_part result ≡ option_map entry_part (slice_get self.now.entries place) }
    {
        match step_at(&self.steps, place) {
            Some(step) => self.parts.shown(&step),
            None => match &self.last {
                None => None,
                Some(last) => {
                    if place == self.steps.len() {
                        self.parts.last_shown(last)
                    } else {
                        None
                    }
                }
            },
        }
    }

    /// The entry of the step at this place, from 0, made again; None, if N were not made.
    pub fn entry(&self, place: usize) -> Result<Option<JournalEntry>, AllocError>
        ensures { IfOk result (λ found. found ≡ slice_get self.now.entries place) }
    {
        match step_at(&self.steps, place) {
            Some(step) => self
                .parts
                .entry(self.alloc, step.cause, self.parts.shown(&step)),
            None => match &self.last {
                None => Ok(None),
                Some(last) => {
                    if place == self.steps.len() {
                        self.parts
                            .entry(self.alloc, last.cause, self.parts.last_shown(last))
                    } else {
                        Ok(None)
                    }
                }
            },
        }
    }

    /// The entries of all steps, in order, as a list made again.
    pub fn entries(&self) -> Result<Vec<JournalEntry>, AllocError>
        ensures { IfOk result (λ entries. entries.items ≡ self.now.entries) }
    {
        let mut entries = Vec::new(self.alloc);
        for place in 0..self.len() {
            entries.push(self.entry(place)?.unwrap())?;
        }
        Ok(entries)
    }

    /// Places the last step's records and messages, and makes room for a step. A refusal for memory changes
    /// nothing.
    pub fn make_room(&mut self) -> Result<(), AllocError>
        ensures ok { OnOk result (Places self.old self.new) }
        ensures err { OnErr result (KeepsSteps self.old self.new) }
    {
        self.parts.reserve_one()?;
        let Some(last) = &self.last else {
            return Ok(());
        };
        self.parts.reserve_for(last)?;
        self.steps.reserve(1)?;
        if let Some(last) = self.last.take() {
            let step = self.parts.place(last);
            self.steps.push_reserved(step);
        }
        Ok(())
    }

    /// A step more, where there is room for it.
    pub fn enter(&mut self, process: ProcessId, happening: Happening, reaction: Reaction)
        requires room { HasStepRoom self.old.room }
        requires handled { HandlesSent self.old.sent happening }
        ensures sent { self.new.sent ≡ self.old.sent }
        ensures waiting { self.new.waiting ≡ reaction.messages }
        ensures entries { self.new.entries ≡ self.old.entries ++ step_entry process happening reaction ∷ [] }
    {
        self.last = Some(self.parts.begin(process, happening, reaction));
    }

    /// A step more, which handled the message with this number, where there is room for it.
    pub fn enter_message(&mut self, process: ProcessId, number: u64, reaction: Reaction)
        requires room { HasStepRoom self.old.room }
        requires handled { is_some (sent_as self.old.sent number) ≡ true }
        ensures sent { self.new.sent ≡ self.old.sent }
        ensures waiting { self.new.waiting ≡ reaction.messages }
        ensures entries { IfSome (sent_as self.old.sent number) (λ l. self.new.entries ≡ self.old.entries
            ++ step_entry process (Happening.Input (Input.Message number l.message)) reaction ∷ []) }
    {
        self.last = Some(self.parts.begin_message(process, number, reaction));
    }
}
