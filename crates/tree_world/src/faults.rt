//! The steps in which a device failed, in the trace of a tree that runs.

ghost use Rattle.std.specs.Prelude.{◌≡◌, IfOk, None, OnErr, OnOk, ◌++◌, length, slice_get};
ghost use Rattle.protocol.specs.Plays.{sent_as};
ghost use Rattle.tree_faults.specs.Faults.{happening_by, last_step, placed_in};
ghost use Rattle.tree_world.specs.Nodes.{kept_at};
ghost use Rattle.tree_faults.specs.Traces.{AreInPlace, trace_by};
ghost use Rattle.tree_world.specs.Worlds.{running_state};

use crate::running_tree::RunningTree;
use log_store::LogStore;
use protocol::{Envelope, Happening, Input, JournalEntry, Step};
use std::alloc::{AllocError, Global};
use tree_faults::{FaultCause, failed_entry};

/// What happened as the message with this number was delivered, of these; None if there is none.
fn delivery_of(
    alloc: Global,
    sent: &[Envelope],
    number: u64,
) -> Result<Option<Happening>, AllocError>
    ensures { IfOk result (λ found. found ≡ happening_by sent.now (FaultCause.Message number)) }
{
    if number == 0 {
        return Ok(None);
    }
    match sent.get((number - 1) as usize) {
        None => Ok(None),
        Some(envelope) => {
            let message = envelope.message.copied(alloc)?;
            Ok(Some(Happening::Input(Input::Message(number, message))))
        }
    }
}

impl<L: LogStore> RunningTree<L> {
    /// What was to happen in a step with this cause, made again.
    fn happening_of(&self, cause: &FaultCause) -> Result<Option<Happening>, AllocError>
        ensures { IfOk result (λ found. found ≡ happening_by self.now.journal.net cause.now) }
    {
        Ok(match cause {
            FaultCause::Act(act) => Some(Happening::Input(Input::Act(act.copied(self.alloc)?))),
            FaultCause::Message(number) => {
                let sent = self.journal.sent()?;
                delivery_of(self.alloc, &sent, *number)?
            }
            FaultCause::Restart(kept) => Some(Happening::Restart(*kept)),
            FaultCause::Trim(_) => Some(Happening::Trim),
        })
    }

    /// The step of the last fault, where what it left is not counted yet, with what it left.
    fn last_step(&self) -> Result<Option<Step>, AllocError>
        ensures { IfOk result (λ step. step ≡ last_step self.now.journal.net
            (kept_at self.now.nodes.nodes.entries).node_at self.now.faults.last) }
    {
        let Some(last) = self.faults.last() else {
            return Ok(None);
        };
        let Some(happening) = self.happening_of(&last.cause)? else {
            return Ok(None);
        };
        let Some(fault) = self.nodes.fault(self.alloc, last)? else {
            return Ok(None);
        };
        Ok(Some(Step {
            process: last.process,
            happening,
            fault: Some(fault),
        }))
    }

    /// Counts what the last fault left, before another event. Memory: nothing changed.
    pub(crate) fn count_fault(&mut self) -> Result<(), AllocError>
        ensures state { running_state self.new ≡ running_state self.old }
        ensures err { OnErr result (self.new.faults ≡ self.old.faults) }
        ensures none { OnOk result (self.new.faults.last ≡ None) }
        ensures counted { OnOk result (self.new.faults.counted ≡ self.old.faults.counted
            ++ placed_in (length self.old.journal.entries) (last_step self.old.journal.net
            (kept_at self.old.nodes.nodes.entries).node_at self.old.faults.last)) }
    {
        let step = self.last_step()?;
        self.faults.count(self.journal.len(), step)
    }

    /// Every step, with those in which a device failed, as a list made again.
    pub(crate) fn trace(&self) -> Result<Vec<JournalEntry>, AllocError>
        requires { AreInPlace (running_state self.now) self.now.faults }
        ensures { IfOk result (λ trace. trace.items ≡ trace_by (running_state self.now) self.now.faults) }
    {
        let mut trace = self.faults.trace(self.alloc, &self.journal)?;
        if let Some(step) = self.last_step()? {
            trace.push(failed_entry(self.alloc, step))?;
        }
        Ok(trace)
    }
}
