//! The processes of a tree.

ghost use Rattle.std.specs.Prelude.{◌≡◌, IfErr, IfOk, IfSome, option_map};
ghost use Rattle.process_state.specs.Inputs.{input_of};
ghost use Rattle.tree_faults.specs.Counts.{CountsAt, KeepsAt};
ghost use Rattle.tree_faults.specs.Faults.{fault_by};
ghost use Rattle.case_table.specs.Known.{KnowsCases};
ghost use Rattle.protocol.specs.declared.events.StepError.TheVariants.{Device};
ghost use Rattle.tree_process.specs.Nodes.{live_at, standing_at};
ghost use Rattle.tree_world.specs.LogsLeft.{LogStandsBy};
ghost use Rattle.tree_world.specs.Nodes.{BreaksUnder, NoStepAt, SpellsLogBy, StepsAt, kept_at, log_by, node_in, nodes_at};
ghost use Rattle.tree_world.specs.Restarts.{NoRestartAt, NoTrimAt, RestartsAt, TrimsAt};

use crate::counted::{CountedNode, fault_of, kept_by};
use indexmap::IndexMap;
use log_store::LogStore;
use process_state::InputRef;
use protocol::{Fault, LogRecord, ProcessId, Reaction, StepError};
use std::alloc::{AllocError, Global};
use tree_faults::{Count, LastFault};

/// The processes of a tree, each by its name.
#[derive(Drop)]
pub(crate) struct Nodes<L: LogStore> {
    pub(crate) nodes: IndexMap<ProcessId, CountedNode<L>>,
}

impl<L: LogStore> Nodes<L> {
    /// A process handles an input. Gives besides the count of its log before, where its device failed.
    /// NoSuch: there is no such process. Exhausted: numbers that the input wants are used up.
    pub(crate) fn step(
        &mut self,
        process: ProcessId,
        input: InputRef<'_>,
    ) -> (Count, Result<Reaction, StepError>)
        ensures before { IfErr result.1 (λ e. e ≡ Device → CountsAt result.0
            (nodes_at self.old.nodes.entries process)) }
        ensures ok { IfOk result.1 (StepsAt (kept_at self.old.nodes.entries)
            (kept_at self.new.nodes.entries) process (input_of input.entry)) }
        ensures err { IfErr result.1 (NoStepAt (kept_at self.old.nodes.entries)
            (kept_at self.new.nodes.entries) process (input_of input.entry)) }
        ensures under { IfErr result.1 (λ e. e ≡ Device → BreaksUnder (kept_at self.old.nodes.entries)
            (kept_at self.new.nodes.entries) process (input_of input.entry)) }
    {
        let Some(node) = self.nodes.get_mut(&process) else {
            return (Count::all_forced(0), Err(StepError::NoSuch));
        };
        let Ok(before) = node.count() else {
            return (Count::all_forced(0), Err(StepError::Memory));
        };
        (before, node.handle(input, before))
    }

    /// A process restarts, and keeps N bytes after its forced front; all of them, if no number is given.
    /// Gives how many of its unforced records were kept, and the count of its log before, where its device
    /// failed. NoSuch: there is no such process.
    pub(crate) fn restart(
        &mut self,
        process: ProcessId,
        bytes: Option<u64>,
    ) -> (Count, Result<(u64, Reaction), StepError>)
        ensures before { IfErr result.1 (λ e. e ≡ Device → CountsAt result.0
            (nodes_at self.old.nodes.entries process)) }
        ensures ok { IfOk result.1 (RestartsAt (kept_at self.old.nodes.entries)
            (kept_at self.new.nodes.entries) process bytes) }
        ensures err { IfErr result.1 (NoRestartAt (kept_at self.old.nodes.entries)
            (kept_at self.new.nodes.entries) process bytes) }
    {
        let Some(node) = self.nodes.get_mut(&process) else {
            return (Count::all_forced(0), Err(StepError::NoSuch));
        };
        let Ok(before) = node.count() else {
            return (Count::all_forced(0), Err(StepError::Memory));
        };
        (before, node.restart(bytes, before))
    }

    /// The log of a process is trimmed. Gives how many records remain, and the count of its log before, where
    /// its device failed. NoSuch: there is no such process.
    pub(crate) fn trim(&mut self, process: ProcessId) -> (Count, Result<u64, StepError>)
        ensures before { IfErr result.1 (λ e. e ≡ Device → CountsAt result.0
            (nodes_at self.old.nodes.entries process)) }
        ensures ok { IfOk result.1 (TrimsAt (kept_at self.old.nodes.entries)
            (kept_at self.new.nodes.entries) process) }
        ensures err { IfErr result.1 (NoTrimAt (kept_at self.old.nodes.entries)
            (kept_at self.new.nodes.entries) process) }
    {
        let Some(node) = self.nodes.get_mut(&process) else {
            return (Count::all_forced(0), Err(StepError::NoSuch));
        };
        let Ok(before) = node.count() else {
            return (Count::all_forced(0), Err(StepError::Memory));
        };
        (before, node.trim())
    }

    /// How many of its unforced records a process keeps in a restart that names these bytes.
    pub(crate) fn kept(&self, process: ProcessId, bytes: Option<u64>) -> Result<u64, AllocError>
        ensures { IfOk result (KeepsAt bytes (nodes_at self.now.nodes.entries process)) }
    {
        match self.nodes.get(&process) {
            None => Ok(0),
            Some(node) => kept_by(node.node(), bytes),
        }
    }

    /// What the last fault left of its process's log; None if there is no such process.
    pub(crate) fn fault(&self, alloc: Global, last: &LastFault) -> Result<Option<Fault>, AllocError>
        ensures { IfOk result (λ fault. fault
            ≡ option_map (fault_by last.now.cause last.now.before)
            (nodes_at self.now.nodes.entries last.now.process)) }
    {
        match self.nodes.get(&last.process) {
            None => Ok(None),
            Some(node) => Ok(Some(fault_of(alloc, node.node(), &last.cause, last.before)?)),
        }
    }

    /// How many cases are live at a process, if there is one.
    pub(crate) fn live(&self, process: ProcessId) -> Option<usize>
        ensures known { IfSome (node_in self.now.nodes.entries process)
            (λ node. IfSome result (KnowsCases (standing_at node))) }
        ensures entries { result ≡ option_map live_at (node_in self.now.nodes.entries process) }
    {
        match self.nodes.get(&process) {
            None => None,
            Some(node) => Some(node.node().live()),
        }
    }

    /// The records of a process's log; none, if there is no such process.
    pub(crate) fn records(
        &self,
        alloc: Global,
        process: ProcessId,
    ) -> Result<Vec<LogRecord>, AllocError>
        ensures { IfOk result (λ records. records.items ≡ log_by (nodes_at self.now.nodes.entries process)) }
    {
        match self.nodes.get(&process) {
            None => Ok(Vec::new(alloc)),
            Some(node) => node.node().records(),
        }
    }

    /// What `Node::log_stands` says of a process, if there is one. It does nothing.
    pub(crate) fn log_stands(&self, process: ProcessId)
        ensures { LogStandsBy (nodes_at self.now.nodes.entries process) }
    {
        if let Some(node) = self.nodes.get(&process) {
            node.node().log_stands();
        }
    }

    /// The bytes of a process's log; none, if there is no such process.
    pub(crate) fn log_text(&self, alloc: Global, process: ProcessId) -> Result<Vec<u8>, AllocError>
        ensures { IfOk result (λ text. SpellsLogBy (nodes_at self.now.nodes.entries process) text.items) }
    {
        match self.nodes.get(&process) {
            None => Ok(Vec::new(alloc)),
            Some(node) => node.node().log_text(),
        }
    }
}
