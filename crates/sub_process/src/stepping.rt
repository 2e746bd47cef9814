//! What an input makes of a subordinate.

ghost use Rattle.std.specs.Prelude.{◌≡◌, ◌≢◌, ◌↔◌, false, true, IfErr, IfOk, IsTrue, OnOk};
ghost use Rattle.process_state.specs.Inputs.{input_of};
ghost use Rattle.process_state.specs.States.{HasNumbers};
ghost use Rattle.process_state.specs.Makes.{ProcessMakes, NotMade};
ghost use Rattle.sub_work.specs.Deeds.{KeepsManager};
ghost use Rattle.sub_process.specs.Subordinates.{Hears, NotHeard, seen};
ghost use Rattle.sub_process.specs.Steps.{InputLeaves, data_answer, state};

use crate::subordinate::Subordinate;
use process_state::{InputRef, is_listed};
use protocol::{Message, Reaction, StepError};
use resource_manager::ResourceManager;
use sub_work::silence;

impl<M: ResourceManager> Subordinate<M> {
    /// A message. One that is not for a manager does nothing. The errors are those of `step`.
    fn hear(&mut self, message: &Message) -> Result<Reaction, StepError>
        requires up { (M.sight self.old.manager).log.failed ≡ false }
        requires numbers { HasNumbers (state M.sight self.old) }
        ensures ok { IfOk result (Hears (seen M.sight self.old) (seen M.sight self.new) message.now) }
        ensures err { IfErr result (NotHeard (seen M.sight self.old) (seen M.sight self.new) message.now) }
    {
        match message {
            Message::Join(case) => self.join(*case),
            Message::Work(case, number, op) => self.work(*case, *number, op),
            Message::Prepare(case, works) => self.prepare(*case, *works),
            Message::Commit(case) => self.commit(*case),
            Message::Abort(case) => self.abort(*case),
            _ => Ok(silence(self.alloc)),
        }
    }

    /// Handles an input. The refusals of the reaction table, as `StepError` says them, change nothing, nor
    /// does Memory. Device: the device failed under the record of the input, which stands or not, and the
    /// subordinate answers Failed until its restart.
    pub fn step(&mut self, input: InputRef<'_>) -> Result<Reaction, StepError>
        requires numbers { HasNumbers (state M.sight self.old) }
        ensures ok { IfOk result (ProcessMakes (state M.sight self.old) (state M.sight self.new)
            (data_answer (seen M.sight self.old) (input_of input.entry)) (input_of input.entry)) }
        ensures writes { OnOk result (InputLeaves (input_of input.entry) (seen M.sight self.old)
            (seen M.sight self.new)) }
        ensures err { IfErr result (NotMade (state M.sight self.old) (state M.sight self.new)
            (data_answer (seen M.sight self.old) (input_of input.entry)) (input_of input.entry)) }
        ensures kept { IfErr result (λ e. e ≢ StepError.Device
            → KeepsManager (M.sight self.old.manager) (M.sight self.new.manager)) }
    {
        if !is_listed(&self.tree, input) {
            return Err(StepError::NoSuch);
        }
        if self.manager.failed() {
            return Err(StepError::Failed);
        }
        match input {
            InputRef::Act(act) => self.act(act),
            InputRef::Message(_, message) => self.hear(message),
        }
    }
}
