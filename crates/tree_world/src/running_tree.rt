//! How a tree that runs makes each event.

ghost use Rattle.std.specs.Prelude.{◌≡◌, ◌≢◌, ◌<◌, [], Err, IfErr, IfOk, IsFalse, IsTrue, None, OnOk, length, map};
ghost use Rattle.protocol.specs.declared.events.StepError.TheVariants.{Device};
ghost use Rattle.tree_state.specs.Steps.{trim_reaction};
ghost use Rattle.tree_state.specs.Worlds.{Applies, Stops};
ghost use Rattle.tree_state.specs.Runs.{EventsLead, LeadsUntil};
ghost use Rattle.tree_journal.specs.Journals.{IsReadyJournal};
ghost use Rattle.tree_faults.specs.Traces.{AddsAfter, AddsToTrace, AddsUntil, AreInPlace, NotedUntil};
ghost use Rattle.tree_world.specs.Worlds.{logs_at, running_state};

use crate::byte_logs::are_bytes;
use crate::nodes::Nodes;
use log_store::LogStore;
use process_state::InputRef;
use protocol::{Act, Event, Happening, LogRecord, ProcessId, Reaction, Sequence, StepError, Tree};
use std::alloc::{AllocError, Global};
use tree_faults::{FaultCause, Faults};
use tree_journal::Journal;

/// At most N messages are delivered by one settle.
const SETTLE_LIMIT: u32 = 10_000;

/// What a tree that runs keeps: its processes, each with its log in a store, the journal of their steps, and
/// the steps in which a device failed.
#[derive(Drop)]
pub(crate) struct RunningTree<L: LogStore> {
    pub(crate) alloc: Global,
    pub(crate) tree: Tree,
    pub(crate) nodes: Nodes<L>,
    pub(crate) journal: Journal,
    pub(crate) faults: Faults,
}

/// What a trim shows: how many records remain. It takes no memory.
fn trimmed(alloc: Global, remain: u64) -> Reaction
    ensures { result ≡ trim_reaction remain }
{
    Reaction {
        begun: None,
        written: Sequence::new(alloc),
        told: None,
        messages: Sequence::new(alloc),
        kept: Some(remain),
    }
}

/// Whether a device failed in a step.
fn is_fault(made: &Result<Reaction, StepError>) -> bool
    ensures yes { IsTrue result → made.now ≡ Err Device }
    ensures no { IsFalse result → IfErr made.now (λ e. e ≢ Device) }
{
    matches!(made, Err(StepError::Device))
}

/// Lets go of logs.
fn discard(_logs: Vec<Vec<LogRecord>>) {}

impl<L: LogStore> RunningTree<L> {
    /// The records of each process's log, in the order of the tree.
    pub(crate) fn logs(&self) -> Result<Vec<Vec<LogRecord>>, AllocError>
        ensures { IfOk result (λ logs. map (λ log. log.items) logs.items
            ≡ logs_at (running_state self.now) (running_state self.now).tree) }
    {
        let mut logs = Vec::new(self.alloc);
        match self.add_logs(&mut logs) {
            Ok(()) => Ok(logs),
            Err(error) => {
                discard(logs);
                Err(error)
            }
        }
    }

    /// Adds the records of each process's log to a list that has none.
    fn add_logs(&self, logs: &mut Vec<Vec<LogRecord>>) -> Result<(), AllocError>
        requires { logs.old.items ≡ [] }
        ensures { OnOk result (map (λ log. log.items) logs.new.items
            ≡ logs_at (running_state self.now) (running_state self.now).tree) }
    {
        for entry in self.tree.entries() {
            logs.push(self.nodes.records(self.alloc, entry.id)?)?;
        }
        Ok(())
    }

    /// Makes an event, once it is counted what the last fault left.
    pub(crate) fn make(&mut self, event: Event) -> Result<(), StepError>
        requires { AreInPlace (running_state self.old) self.old.faults }
        ensures ok { OnOk result (Applies (running_state self.old) event (running_state self.new)) }
        ensures err { IfErr result (λ e. Stops (running_state self.old) event e (running_state self.new)) }
        ensures places { AreInPlace (running_state self.new) self.new.faults }
        ensures adds { OnOk result (AddsToTrace (running_state self.old) self.old.faults
            (running_state self.new) self.new.faults []) }
        ensures until { IfErr result (AddsUntil (running_state self.old) self.old.faults event
            (running_state self.new) self.new.faults) }
    {
        self.count_fault()?;
        self.make_next(event)
    }

    /// Makes an event, with no fault left to count.
    fn make_next(&mut self, event: Event) -> Result<(), StepError>
        requires { self.old.faults.last ≡ None }
        ensures ok { OnOk result (Applies (running_state self.old) event (running_state self.new)) }
        ensures err { IfErr result (λ e. Stops (running_state self.old) event e (running_state self.new)) }
        ensures stay { OnOk result (self.new.faults ≡ self.old.faults) }
        ensures noted { IfErr result (NotedUntil (running_state self.old) self.old.faults event
            (running_state self.new) self.new.faults) }
    {
        match event {
            Event::Act(act) => self.act(act),
            Event::Deliver(number) => self.deliver(number),
            Event::Settle => self.settle(),
            Event::Restart(process, bytes) => self.restart(process, bytes),
            Event::Trim(process) => self.trim(process),
        }
    }

    /// Makes an event that stays with its caller, once it is counted what the last fault left.
    fn make_copy(&mut self, event: &Event) -> Result<(), StepError>
        requires { AreInPlace (running_state self.old) self.old.faults }
        ensures ok { OnOk result (Applies (running_state self.old) event.now (running_state self.new)) }
        ensures err { IfErr result (λ e. Stops (running_state self.old) event.now
            e (running_state self.new)) }
        ensures places { AreInPlace (running_state self.new) self.new.faults }
        ensures adds { OnOk result (AddsToTrace (running_state self.old) self.old.faults
            (running_state self.new) self.new.faults []) }
        ensures until { IfErr result (AddsUntil (running_state self.old) self.old.faults event.now
            (running_state self.new) self.new.faults) }
    {
        let copy = event.copied(self.alloc)?;
        self.make(copy)
    }

    /// Makes these events, in order, up to the first that is refused.
    pub(crate) fn make_all(&mut self, events: &[Event]) -> Result<(), (usize, StepError)>
        requires { AreInPlace (running_state self.old) self.old.faults }
        ensures ok { OnOk result (EventsLead (running_state self.old) events.now (running_state self.new)) }
        ensures err { IfErr result (λ refusal. LeadsUntil (running_state self.old) events.now refusal.0
            refusal.1 (running_state self.new)) }
        ensures within { IfErr result (λ refusal. refusal.0 < length events.now) }
        ensures places { AreInPlace (running_state self.new) self.new.faults }
        ensures adds { OnOk result (AddsToTrace (running_state self.old) self.old.faults
            (running_state self.new) self.new.faults []) }
        ensures until { IfErr result (λ refusal. AddsAfter (running_state self.old) self.old.faults events.now
            (running_state self.new) self.new.faults refusal.0 refusal.1) }
    {
        for (made, event) in events.iter().enumerate() {
            if let Err(refusal) = self.make_copy(event) {
                return Err((made, refusal));
            }
        }
        Ok(())
    }

    /// What an application asks, or an operator.
    fn act(&mut self, act: Act) -> Result<(), StepError>
        requires { self.old.faults.last ≡ None }
        ensures ok { OnOk result (Applies (running_state self.old)
            (Event.Act act) (running_state self.new)) }
        ensures err { IfErr result (λ e. Stops (running_state self.old) (Event.Act act)
            e (running_state self.new)) }
        ensures stay { OnOk result (self.new.faults ≡ self.old.faults) }
        ensures noted { IfErr result (NotedUntil (running_state self.old) self.old.faults (Event.Act act)
            (running_state self.new) self.new.faults) }
    {
        self.journal.make_room()?;
        let process = act.process(self.tree.root());
        let (before, made) = self.nodes.step(process, InputRef::Act(&act));
        if is_fault(&made) {
            self.faults.note(process, FaultCause::Act(act), before);
            return Err(StepError::Device);
        }
        self.journal.close_act(process, act, made)
    }

    /// Delivers the message with this number.
    fn deliver(&mut self, number: u64) -> Result<(), StepError>
        requires { self.old.faults.last ≡ None }
        ensures ok { OnOk result (Applies (running_state self.old)
            (Event.Deliver number) (running_state self.new)) }
        ensures err { IfErr result (λ e. Stops (running_state self.old) (Event.Deliver number)
            e (running_state self.new)) }
        ensures stay { OnOk result (self.new.faults ≡ self.old.faults) }
        ensures noted { IfErr result (NotedUntil (running_state self.old) self.old.faults
            (Event.Deliver number)
            (running_state self.new) self.new.faults) }
    {
        self.journal.make_room()?;
        self.deliver_ready(number)
    }

    /// Delivers the message with this number, with room in the journal for a step.
    fn deliver_ready(&mut self, number: u64) -> Result<(), StepError>
        requires ready { IsReadyJournal self.old.journal }
        requires counted { self.old.faults.last ≡ None }
        ensures ok { OnOk result (Applies (running_state self.old)
            (Event.Deliver number) (running_state self.new)) }
        ensures err { IfErr result (λ e. Stops (running_state self.old) (Event.Deliver number)
            e (running_state self.new)) }
        ensures stay { OnOk result (self.new.faults ≡ self.old.faults) }
        ensures noted { IfErr result (NotedUntil (running_state self.old) self.old.faults
            (Event.Deliver number)
            (running_state self.new) self.new.faults) }
    {
        let Some(envelope) = self.journal.message(number) else {
            return Err(StepError::NoSuch);
        };
        let to = envelope.to;
        let input = InputRef::Message(number, &envelope.message);
        let (before, made) = self.nodes.step(to, input);
        if is_fault(&made) {
            self.faults.note(to, FaultCause::Message(number), before);
            return Err(StepError::Device);
        }
        self.journal.close_message(to, number, made)
    }

    /// Delivers the least numbered message that was not delivered, again and again, at most 10,000 times.
    fn settle(&mut self) -> Result<(), StepError>
        requires { self.old.faults.last ≡ None }
        ensures ok { OnOk result (Applies (running_state self.old) Event.Settle (running_state self.new)) }
        ensures err { IfErr result (λ e. Stops (running_state self.old) Event.Settle
            e (running_state self.new)) }
        ensures stay { OnOk result (self.new.faults ≡ self.old.faults) }
        ensures noted { IfErr result (NotedUntil (running_state self.old) self.old.faults Event.Settle
            (running_state self.new) self.new.faults) }
    {
        for _ in 0..SETTLE_LIMIT {
            let Some(number) = self.journal.least_open()? else {
                return Ok(());
            };
            self.deliver_ready(number)?;
        }
        Ok(())
    }

    /// Restarts a process, which keeps N bytes after its forced front; all of them, where no number
    /// is given.
    fn restart(&mut self, process: ProcessId, bytes: Option<u64>) -> Result<(), StepError>
        requires { self.old.faults.last ≡ None }
        ensures ok { OnOk result (Applies (running_state self.old)
            (Event.Restart process bytes) (running_state self.new)) }
        ensures err { IfErr result (λ e. Stops (running_state self.old) (Event.Restart process bytes)
            e (running_state self.new)) }
        ensures stay { OnOk result (self.new.faults ≡ self.old.faults) }
        ensures noted { IfErr result (NotedUntil (running_state self.old) self.old.faults
            (Event.Restart process bytes)
            (running_state self.new) self.new.faults) }
    {
        self.journal.make_room()?;
        let keeps = self.nodes.kept(process, bytes)?;
        let (before, made) = self.nodes.restart(process, bytes);
        match made {
            Ok((kept, reaction)) => {
                self.journal
                    .enter(process, Happening::Restart(kept), reaction);
                Ok(())
            }
            Err(StepError::Device) => {
                self.faults
                    .note(process, FaultCause::Restart(keeps), before);
                Err(StepError::Device)
            }
            Err(error) => Err(error),
        }
    }

    /// Trims the log of a process.
    fn trim(&mut self, process: ProcessId) -> Result<(), StepError>
        requires { self.old.faults.last ≡ None }
        ensures ok { OnOk result (Applies (running_state self.old)
            (Event.Trim process) (running_state self.new)) }
        ensures err { IfErr result (λ e. Stops (running_state self.old) (Event.Trim process)
            e (running_state self.new)) }
        ensures stay { OnOk result (self.new.faults ≡ self.old.faults) }
        ensures noted { IfErr result (NotedUntil (running_state self.old) self.old.faults (Event.Trim process)
            (running_state self.new) self.new.faults) }
    {
        self.journal.make_room()?;
        let text = self.nodes.log_text(self.alloc, process)?;
        are_bytes(&text);
        let (before, made) = self.nodes.trim(process);
        match made {
            Ok(remain) => {
                self.journal
                    .enter(process, Happening::Trim, trimmed(self.alloc, remain));
                Ok(())
            }
            Err(StepError::Device) => {
                self.nodes.log_stands(process);
                self.faults.note(process, FaultCause::Trim(text), before);
                Err(StepError::Device)
            }
            Err(error) => Err(error),
        }
    }
}
