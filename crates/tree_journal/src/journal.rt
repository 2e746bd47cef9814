//! The journal of a tree that runs.

ghost use Rattle.std.specs.Prelude.{◌≡◌, ◌+◌, ◌<◌, ◌++◌, ◌∷◌, [], false, true, Err, Ok, IfErr, IfNone, IfOk, IfSome, OnOk, ◌⊎◌, is_some, length, option_map, slice_get};
ghost use Rattle.std.specs.Option.{option_copied};
ghost use Rattle.protocol_words.specs.Types.{AnyReaction};
ghost use Rattle.protocol.specs.Plays.{sent_as};
ghost use Rattle.tree_state.specs.Worlds.{least_open, marks, step_entry, undelivered};
ghost use Rattle.tree_journal.specs.Steps.{HandlesSent};
ghost use Rattle.tree_journal.specs.Shown.{entry_part, shown_part};
ghost use Rattle.tree_journal.specs.Journals.{EntersJournal, IsReadyJournal, SameJournal};

use crate::marks::DeliveredMarks;
use crate::short_steps::ShortSteps;
use crate::shown::ShownStep;
use protocol::{Act, Envelope, Happening, Input, JournalEntry, ProcessId, Reaction, StepError};
use std::alloc::{AllocError, Global};
use std::marker::Model;

/// Every step that was made, and every message that was sent in one, with the mark whether it was delivered.
///
/// A step is entered without a growth, so that memory cannot run out after it: room for one is made before.
#[derive(Drop)]
pub struct Journal {
    steps: ShortSteps,
    /// The marks of the first messages; the others are not delivered.
    delivered: DeliveredMarks,
}

impl Model for Journal {
    ghost use Rattle.std.specs.Prelude.{◌++◌, ◌≤◌, length};
    ghost use Rattle.tree_journal.specs.Journals.{JournalState, unmarked};

    ghost Value = { JournalState };

    ghost view = { λ j. record {
      net = j.steps.sent ++ j.steps.waiting;
      delivered = j.delivered ++ unmarked (j.steps.sent ++ j.steps.waiting) j.delivered;
      entries = j.steps.entries;
      room = j.steps.room;
      marked = length j.delivered;
    } };

    ghost invariant = { λ j. length j.delivered ≤ length j.steps.sent };
}

impl Journal {
    /// No messages and no steps. It takes no memory.
    pub fn new(alloc: Global) -> Journal
        ensures net { result.net ≡ [] }
        ensures delivered { result.delivered ≡ [] }
        ensures entries { result.entries ≡ [] }
    {
        Journal {
            steps: ShortSteps::new(alloc),
            delivered: DeliveredMarks::new(alloc),
        }
    }

    /// How many steps were made.
    pub fn len(&self) -> usize
        ensures { result ≡ length self.now.entries }
    {
        self.steps.len()
    }

    /// The step at this place, from 0, with its reaction, made again; None, if N were not made.
    pub fn entry(&self, place: usize) -> Result<Option<JournalEntry>, AllocError>
        ensures { IfOk result (λ found. found ≡ slice_get self.now.entries place) }
    {
        self.steps.entry(place)
    }

    /// Every step, with its reaction, as a list made again.
    pub fn entries(&self) -> Result<Vec<JournalEntry>, AllocError>
        ensures { IfOk result (λ entries. entries.items ≡ self.now.entries) }
    {
        self.steps.entries()
    }

    /// What the step at this place shows, from 0, lent; None, if N were not made.
    pub fn shown(&self, place: usize) -> Option<ShownStep<'_>>
        ensures { option_map shown_part result ≡ option_map entry_part (slice_get self.now.entries place) }
    {
        self.steps.shown(place)
    }

    /// The messages, as a list made again.
    pub fn sent(&self) -> Result<Vec<Envelope>, AllocError>
        ensures { IfOk result (λ sent. sent.items ≡ self.now.net) }
    {
        self.steps.sent()
    }

    /// The message with this number, where a step can be entered; None if no message has it.
    pub fn message(&self, number: u64) -> Option<&Envelope>
        requires { IsReadyJournal self.now }
        ensures { option_copied result ≡ sent_as self.now.net number }
    {
        self.steps.message(number)
    }

    /// The number of the first message that was not delivered, and room for the step that it leads to.
    pub fn least_open(&mut self) -> Result<Option<u64>, AllocError>
        ensures keeps { SameJournal self.old self.new }
        ensures ready { OnOk result (IsReadyJournal self.new) }
        ensures first { IfOk result (λ first. first ≡ least_open 1 self.old.delivered) }
    {
        self.make_room()?;
        match self.delivered.least_open() {
            None => Ok(None),
            Some(place) => Ok(Some(place as u64 + 1)),
        }
    }

    /// A process handled an act or did not: the step is entered, where it was made.
    pub fn close_act(
        &mut self,
        process: ProcessId,
        act: Act,
        made: Result<Reaction, StepError>,
    ) -> Result<(), StepError>
        requires { IsReadyJournal self.old }
        ensures ok { OnOk result ((reaction : AnyReaction) × (made ≡ Ok reaction)
            × EntersJournal self.old self.new process (Input.Act act) reaction) }
        ensures err { IfErr result (λ e. (made ≡ Err e) × (self.new ≡ self.old)) }
    {
        match made {
            Ok(reaction) => {
                self.enter(process, Happening::Input(Input::Act(act)), reaction);
                Ok(())
            }
            Err(error) => Err(error),
        }
    }

    /// A process handled the message with this number or did not: the step is entered, where it was made, and
    /// the message is delivered.
    pub fn close_message(
        &mut self,
        process: ProcessId,
        number: u64,
        made: Result<Reaction, StepError>,
    ) -> Result<(), StepError>
        requires ready { IsReadyJournal self.old }
        requires sent { is_some (sent_as self.old.net number) ≡ true }
        ensures ok { OnOk result (IfSome (sent_as self.old.net number) (λ l.
            (reaction : AnyReaction) × (made ≡ Ok reaction)
            × EntersJournal self.old self.new process (Input.Message number l.message) reaction)) }
        ensures err { IfErr result (λ e. (made ≡ Err e) × (self.new ≡ self.old)) }
    {
        match made {
            Ok(reaction) => {
                self.mark(number);
                self.enter_message(process, number, reaction);
                Ok(())
            }
            Err(error) => Err(error),
        }
    }

    /// The message with this number is delivered.
    fn mark(&mut self, number: u64)
        requires { IsReadyJournal self.old }
        ensures { self.new ≡ record self.old { delivered = marks self.old.delivered number } }
    {
        if let Some(place) = place_of(number, self.delivered.len()) {
            self.delivered.mark(place);
        }
    }

    /// A step more, where there is room for it.
    pub fn enter(&mut self, process: ProcessId, happening: Happening, reaction: Reaction)
        requires ready { IsReadyJournal self.old }
        requires sent { HandlesSent self.old.net happening }
        ensures net { self.new.net ≡ self.old.net ++ reaction.messages }
        ensures delivered { self.new.delivered ≡ self.old.delivered ++ undelivered reaction.messages }
        ensures entries { self.new.entries ≡ self.old.entries ++ step_entry process happening reaction ∷ [] }
    {
        self.steps.enter(process, happening, reaction);
    }

    /// A step more, which handled the message with this number, where there is room for it.
    fn enter_message(&mut self, process: ProcessId, number: u64, reaction: Reaction)
        requires ready { IsReadyJournal self.old }
        requires sent { is_some (sent_as self.old.net number) ≡ true }
        ensures net { self.new.net ≡ self.old.net ++ reaction.messages }
        ensures delivered { self.new.delivered ≡ self.old.delivered ++ undelivered reaction.messages }
        ensures entries { IfSome (sent_as self.old.net number) (λ l. self.new.entries ≡ self.old.entries
            ++ step_entry process (Happening.Input (Input.Message number l.message)) reaction ∷ []) }
    {
        self.steps.enter_message(process, number, reaction);
    }

    /// Makes room for a step.
    pub fn make_room(&mut self) -> Result<(), AllocError>
        ensures keeps { SameJournal self.old self.new }
        ensures ready { OnOk result (IsReadyJournal self.new) }
    {
        self.steps.make_room()?;
        self.delivered
            .extend(self.steps.placed() - self.delivered.len())
    }
}

/// The place of the message with this number, among N.
fn place_of(number: u64, sent: usize) -> Option<usize>
    ensures found { IfSome result (λ place. (place < sent) × (number ≡ place + 1)) }
    ensures none { IfNone result ((number ≡ 0) ⊎ (sent < number)) }
{
    if number == 0 || number > sent as u64 {
        None
    } else {
        Some((number - 1) as usize)
    }
}
