//! What the turn of an input makes of a coordinator.

ghost use Rattle.std.specs.Prelude.{◌≡◌, ◌+◌, ◌<◌, ◌^◌, false, true, None, IfErr, IfOk};
ghost use Rattle.case_table.specs.Tables.{AreApart, live_value};
ghost use Rattle.protocol_words.specs.Types.{AnyInput};
ghost use Rattle.process_state.specs.Inputs.{input_of};
ghost use Rattle.process_state.specs.States.{HasNumbers};
ghost use Rattle.process_state.specs.Turns.{Takes, no_answer};
ghost use Rattle.process_state.specs.Makes.{ProcessMakes, NotMade};
ghost use Rattle.coord_cases.specs.Cases.{FitsGiven, ticket_in, view_in};
ghost use Rattle.coord_rows.specs.Asks.{Accepts, is_for_any, is_of_root};
ghost use Rattle.coord_cases.specs.Takes.{IsLiveAt};
ghost use Rattle.coord_process.specs.Meets.{RetiresAs, RetiresNone, meant, met};
ghost use Rattle.coord_process.specs.States.{state};
ghost use Rattle.coord_process.specs.Turned.{IsBrokenUnder, Stopped, Turned};
ghost use Rattle.coord_process.specs.declared.turn.Met.TheVariants as turn;

use crate::coordinator::Coordinator;
use crate::saying::{began, joined, nothing, presumes};
use crate::turn::Met;
use crate::writing::write_down;
use coord_cases::take;
use coord_rows::{CaseInput, answer};
use log_store::LogStore;
use log_writing::make_room;
use process_state::InputRef;
use protocol::{Case, Presumption, ProcessId, Reaction, StepError, Ticket, Txn};

impl<L: LogStore> Coordinator<L> {
    /// Handles an input. The refusals of the reaction table, as `StepError` says them, change nothing, nor
    /// does Memory, nor Exhausted: a record of the input can be in no log, or a work of it has a number of
    /// 2^64. Device: the device failed under the record of the input, which stands or not, and the
    /// coordinator answers Failed until its restart.
    pub fn step(&mut self, input: InputRef<'_>) -> Result<Reaction, StepError>
        requires { HasNumbers (state self.old) }
        ensures ok { IfOk result (ProcessMakes (state self.old) (state self.new) no_answer
            (input_of input.entry)) }
        ensures err { IfErr result (NotMade (state self.old) (state self.new) no_answer
            (input_of input.entry)) }
        ensures under { IfErr result (λ e. e ≡ StepError.Device
            → IsBrokenUnder (state self.old) (state self.new) (input_of input.entry)) }
    {
        match self.meet(input) {
            Met::Refuses(error) => Err(error),
            Met::Begins(presumption) => self.begins(presumption),
            Met::Issues(parent, case) => self.issues(parent, case),
            Met::Takes(key, case, asked) => self.takes(key, case, asked),
            Met::Clears(case) => self.clears(case),
            Met::Answers(case, asked) => self.answers(case, asked),
            Met::Repeats(parent, case, ticket) => self.repeats(parent, case, ticket),
            Met::Presumes(txn, ticket) => self.presumes(txn, ticket),
            Met::Nothing => Ok(nothing(self.alloc)),
        }
    }

    /// A transaction begins. Memory: nothing changed.
    fn begins(&mut self, presumption: Presumption) -> Result<Reaction, StepError>
        requires { self.old.begun + 1 < 2 ^ 63 }
        ensures ok { IfOk result (λ reaction. (i : AnyInput) → RetiresNone i
            → Turned (state self.old) (state self.new) i
            (meant self.old (turn.Begins presumption)) reaction) }
        ensures err { IfErr result (Stopped (state self.old) (state self.new)
            (meant self.old (turn.Begins presumption))) }
    {
        let txn = Txn {
            root: self.me,
            boot: self.boot,
            sequence: self.begun + 1,
            presumption,
        };
        self.cases.begin(self.alloc, txn)?;
        self.begun += 1;
        Ok(began(self.alloc, txn))
    }

    /// The parent's case gets a fresh ticket. Memory: nothing changed.
    fn issues(&mut self, parent: ProcessId, case: Case) -> Result<Reaction, StepError>
        requires number { self.old.given + 1 < 2 ^ 63 }
        requires ungiven { ticket_in self.old.slots case ≡ None }
        ensures ok { IfOk result (λ reaction. (i : AnyInput)
            → Turned (state self.old) (state self.new) i
            (meant self.old (turn.Issues parent case)) reaction) }
        ensures err { IfErr result (Stopped (state self.old) (state self.new)
            (meant self.old (turn.Issues parent case))) }
    {
        let ticket = Ticket {
            child: self.me,
            boot: self.boot,
            number: self.given + 1,
        };
        let reaction = joined(self.alloc, self.me, parent, case, ticket)?;
        self.cases.give(self.alloc, case, ticket)?;
        self.given += 1;
        Ok(reaction)
    }

    /// The case under the key takes the row that it meets. Room for the row's record is made first. Memory;
    /// Exhausted, if the row is beyond the bounds of numbers: nothing changed. Device: the device failed
    /// under the record.
    fn takes(&mut self, key: usize, case: Case, asked: CaseInput) -> Result<Reaction, StepError>
        requires at { IsLiveAt self.old.slots key case }
        requires accepted { Accepts asked (view_in self.old.slots case) }
        requires root { is_of_root asked ≡ true → case.ticket ≡ None }
        requires up { self.old.log.sight.failed ≡ false }
        ensures ok { IfOk result (λ reaction. (i : AnyInput) → RetiresAs i asked.entry case
            → Turned (state self.old) (state self.new) i
            (Takes case (met self.old case asked.entry)) reaction) }
        ensures err { IfErr result (Stopped (state self.old) (state self.new)
            (Takes case (met self.old case asked.entry))) }
    {
        make_room(&mut self.log)?;
        let seat = self.seat(case);
        let effect = take(self.alloc, &mut self.cases, key, seat, asked)?;
        if let Err(_) = write_down(&mut self.log, self.parent, &effect.written) {
            return Err(StepError::Device);
        }
        Ok(effect.reaction())
    }

    /// What is said of a case that is not live. Memory: nothing changed, as nothing does.
    fn answers(&self, case: Case, asked: CaseInput) -> Result<Reaction, StepError>
        requires any { is_for_any asked ≡ true }
        requires gone { live_value self.now.slots case ≡ None }
        requires apart { AreApart self.now.slots }
        requires fits { FitsGiven self.now.slots }
        ensures ok { IfOk result (λ reaction. (i : AnyInput) → RetiresAs i asked.entry case
            → Turned (state self.now) (state self.now) i
            (Takes case (met self.now case asked.entry)) reaction) }
        ensures err { IfErr result (Stopped (state self.now) (state self.now)
            (Takes case (met self.now case asked.entry))) }
    {
        let effect = answer(self.alloc, self.seat(case), asked)?;
        Ok(effect.reaction())
    }

    /// The parent's case gets its active ticket again.
    fn repeats(&self, parent: ProcessId, case: Case, ticket: Ticket) -> Result<Reaction, StepError>
        ensures ok { IfOk result (λ reaction. (i : AnyInput)
            → Turned (state self.now) (state self.now) i
            (meant self.now (turn.Repeats parent case ticket)) reaction) }
        ensures err { IfErr result (Stopped (state self.now) (state self.now)
            (meant self.now (turn.Repeats parent case ticket))) }
    {
        Ok(joined(self.alloc, self.me, parent, case, ticket)?)
    }

    /// A child of no live case gets what is presumed.
    fn presumes(&self, txn: Txn, ticket: Ticket) -> Result<Reaction, StepError>
        ensures ok { IfOk result (λ reaction. (i : AnyInput)
            → Turned (state self.now) (state self.now) i
            (meant self.now (turn.Presumes txn ticket)) reaction) }
        ensures err { IfErr result (Stopped (state self.now) (state self.now)
            (meant self.now (turn.Presumes txn ticket))) }
    {
        Ok(presumes(self.alloc, self.me, txn, ticket)?)
    }
}
