//! What an application asks of the root: `step` at its act.

ghost use Rattle.std.specs.Prelude.{IfErr, IfOk};
ghost use Rattle.protocol_words.specs.input;
ghost use Rattle.protocol.specs.Nodes.{reaction_of};
ghost use Rattle.protocol.specs.Views.{begin_effect};
ghost use Rattle.process_state.specs.States.{HasNumbers};
ghost use Rattle.process_state.specs.Makes.{ProcessMakes, NotMade};
ghost use Rattle.process_state.specs.Turns.{no_answer};
ghost use Rattle.coord_process.specs.States.{state};

use crate::coordinator::Coordinator;
use log_store::LogStore;
use process_state::InputRef;
use protocol::{Act, Case, Op, Presumption, ProcessId, Reaction, StepError, Txn};

impl<L: LogStore> Coordinator<L> {
    /// Begins a transaction, and gives its name. Failed: the device failed before. NoSuch: this is not the
    /// root. Memory. Nothing changed.
    pub fn begin(&mut self, presumption: Presumption) -> Result<Txn, StepError>
        requires { HasNumbers (state self.old) }
        ensures ok { IfOk result (λ txn. ProcessMakes (state self.old) (state self.new) no_answer
            (input.Act (Act.Begin presumption)) (reaction_of (begin_effect txn))) }
        ensures err { IfErr result (NotMade (state self.old) (state self.new) no_answer
            (input.Act (Act.Begin presumption))) }
    {
        let reaction = self.step(InputRef::Act(&Act::Begin(presumption)))?;
        match reaction.begun {
            Some(txn) => Ok(txn),
            None => unreachable!(),
        }
    }

    /// Invites a child to take part. NoSuch: no process has this number. Failed. UnknownTxn: the case is not
    /// live here. Closed: a commit or an abort was asked before. NotAChild: it is no child of this process.
    /// Memory. Nothing changed.
    pub fn join(&mut self, case: Case, child: ProcessId) -> Result<Reaction, StepError>
        requires { HasNumbers (state self.old) }
        ensures ok { IfOk result (ProcessMakes (state self.old) (state self.new) no_answer
            (input.Act (Act.Join case child))) }
        ensures err { IfErr result (NotMade (state self.old) (state self.new) no_answer
            (input.Act (Act.Join case child))) }
    {
        self.step(InputRef::Act(&Act::Join(case, child)))
    }

    /// Has an accepted child that is a manager do a piece of work. The refusals are those of `join`;
    /// NotAChild: it is no accepted child that is a manager.
    pub fn work(&mut self, case: Case, child: ProcessId, op: Op) -> Result<Reaction, StepError>
        requires { HasNumbers (state self.old) }
        ensures ok { IfOk result (ProcessMakes (state self.old) (state self.new) no_answer
            (input.Act (Act.Work case child op))) }
        ensures err { IfErr result (NotMade (state self.old) (state self.new) no_answer
            (input.Act (Act.Work case child op))) }
    {
        self.step(InputRef::Act(&Act::Work(case, child, op)))
    }

    /// The application asks for the transaction's commit. Failed. UnknownTxn: it is not live here. Closed: a
    /// commit or an abort was asked before. Memory. After these nothing changed. Device: the device failed
    /// under the record.
    pub fn commit(&mut self, txn: Txn) -> Result<Reaction, StepError>
        requires { HasNumbers (state self.old) }
        ensures ok { IfOk result (ProcessMakes (state self.old) (state self.new) no_answer
            (input.Act (Act.Commit txn))) }
        ensures err { IfErr result (NotMade (state self.old) (state self.new) no_answer
            (input.Act (Act.Commit txn))) }
    {
        self.step(InputRef::Act(&Act::Commit(txn)))
    }

    /// The application asks for the transaction's abort. The refusals are those of `commit`; Closed: it is
    /// decided.
    pub fn abort(&mut self, txn: Txn) -> Result<Reaction, StepError>
        requires { HasNumbers (state self.old) }
        ensures ok { IfOk result (ProcessMakes (state self.old) (state self.new) no_answer
            (input.Act (Act.Abort txn))) }
        ensures err { IfErr result (NotMade (state self.old) (state self.new) no_answer
            (input.Act (Act.Abort txn))) }
    {
        self.step(InputRef::Act(&Act::Abort(txn)))
    }
}
