//! The tree that runs, as a caller sees it.

ghost use Rattle.std.specs.Prelude.{◌≡◌, ◌<◌, ℕ, List, false, IfErr, IfOk, IfSome, OnOk, length, map, option_map, slice_get};
ghost use Rattle.protocol.specs.World.{Made, World as ModelWorld};
ghost use Rattle.tree_state.specs.Worlds.{Applies, Stops};
ghost use Rattle.tree_state.specs.Runs.{EventsLead, LeadsUntil};
ghost use Rattle.proof_runs.specs.worlds.Follows.{FollowsBehindFaults, GoesOnBehindFaults};
ghost use Rattle.proof_runs.specs.worlds.Modelled.{KeepsHeadline};
ghost use Rattle.proof_reopened.specs.Earlier.{Earlier};
ghost use Rattle.proof_reopened.specs.Since.{FollowsSince, GoesOnKeeping};
ghost use Rattle.tree_journal.specs.Shown.{entry_part, shown_part};
ghost use Rattle.case_table.specs.Known.{KnowsCases};
ghost use Rattle.tree_process.specs.Nodes.{live_at, standing_at};
ghost use Rattle.tree_world.specs.LogsLeft.{LogStandsBy};
ghost use Rattle.tree_world.specs.Nodes.{SpellsLogBy, node_in};
ghost use Rattle.tree_faults.specs.Traces.{TraceGoesOnFrom, TraceIsRun};
ghost use Rattle.tree_world.specs.Worlds.{logs_at, state, trace};

use crate::running_tree::RunningTree;
use log_store::LogStore;
use protocol::{Envelope, Event, JournalEntry, LogRecord, ProcessId, StepError, Tree};
use std::alloc::AllocError;
use std::marker::Model;
use tree_journal::ShownStep;

/// A tree of processes, each with its log in a store; every message ever sent, with the mark whether it was
/// delivered; and every step that was made.
#[derive(Drop)]
pub struct World<L: LogStore> {
    pub(crate) running: RunningTree<L>,
    /// Whether it was opened over the logs that an earlier run left.
    pub(crate) reopened: bool,
}

impl<L: LogStore> Model for World<L> {
    ghost use Rattle.tree_world.specs.Worlds.{KeepsWorld, WorldValue, running_state, value_by};

    ghost Value = { WorldValue L };

    ghost view = { λ w. value_by w.running w.reopened };

    ghost invariant = { λ w. KeepsWorld w.reopened (running_state w.running) w.running.faults };
}

impl<L: LogStore> World<L> {
    /// Whether it was opened over the logs that an earlier run left; then the first steps are the restarts of
    /// its processes.
    pub fn is_reopened(&self) -> bool
        ensures { result ≡ self.now.reopened }
    {
        self.reopened
    }

    /// How many steps were made.
    pub fn made(&self) -> usize
        ensures { result ≡ length (state self.now).entries }
    {
        self.running.journal.len()
    }

    /// The step at this place, from 0, with its reaction, made again; None, if N were not made.
    pub fn entry(&self, place: usize) -> Result<Option<JournalEntry>, AllocError>
        ensures { IfOk result (λ found. found ≡ slice_get (state self.now).entries place) }
    {
        self.running.journal.entry(place)
    }

    /// Every step that was made, with its reaction, as a list made again.
    pub fn steps(&self) -> Result<Vec<JournalEntry>, AllocError>
        ensures { IfOk result (λ steps. steps.items ≡ (state self.now).entries) }
    {
        self.running.journal.entries()
    }

    /// The steps of the run, whole: those that were made, and among them each in which a device failed, after
    /// those made before it, as a list made again. Such a step names its event, how many of its records stand
    /// and how many more are forced, and shows nothing.
    pub fn trace(&self) -> Result<Vec<JournalEntry>, AllocError>
        ensures steps { IfOk result (λ steps. steps.items ≡ trace self.now) }
        ensures run { self.now.reopened ≡ false → TraceIsRun (state self.now) (trace self.now) }
    {
        self.running.trace()
    }

    /// What the step at this place shows, from 0, as the journal has it; None, if N were not made.
    pub fn shown(&self, place: usize) -> Option<ShownStep<'_>>
        ensures { option_map shown_part result
            ≡ option_map entry_part (slice_get (state self.now).entries place) }
    {
        self.running.journal.shown(place)
    }

    /// The tree.
    pub fn tree(&self) -> &Tree
        ensures { result.now ≡ (state self.now).tree }
    {
        &self.running.tree
    }

    /// Every message that was ever sent, as a list made again; the first has number 1.
    pub fn sent(&self) -> Result<Vec<Envelope>, AllocError>
        ensures { IfOk result (λ sent. sent.items ≡ (state self.now).net) }
    {
        self.running.journal.sent()
    }

    /// Lets the tree go, and all that it keeps. A caller that does it so need not see what that comes to: it
    /// is proved here, once.
    pub fn close(self)
    where
        L: Drop,
    {}

    /// How many cases are live at a process, if there is one: those that are not Unknown.
    pub fn live(&self, process: ProcessId) -> Option<usize>
        ensures known { IfSome (node_in self.now.nodes process)
            (λ node. IfSome result (KnowsCases (standing_at node))) }
        ensures entries { result ≡ option_map live_at (node_in self.now.nodes process) }
    {
        self.running.nodes.live(process)
    }

    /// The bytes of a process's log, as a list made again; none, if there is no such process.
    pub fn log_text(&self, process: ProcessId) -> Result<Vec<u8>, AllocError>
        ensures { IfOk result (λ text. SpellsLogBy ((state self.now).node_at process) text.items) }
    {
        self.running.nodes.log_text(self.running.alloc, process)
    }

    /// Each record of a process's log can be there, and a manager's may follow one another. It does nothing.
    pub(crate) fn log_stands(&self, process: ProcessId)
        ensures { LogStandsBy ((state self.now).node_at process) }
    {
        self.running.nodes.log_stands(process);
    }

    /// The records of each process's log, in the order of the tree.
    pub fn logs(&self) -> Result<Vec<Vec<LogRecord>>, AllocError>
        ensures { IfOk result (λ logs. map (λ log. log.items) logs.items
            ≡ logs_at (state self.now) (state self.now).tree) }
    {
        self.running.logs()
    }

    /// Makes an event. After a refusal nothing has changed, but for what a settle had delivered. Device: a
    /// process's device failed under its record, and it answers Failed from then on. Memory: a growth was
    /// refused. Exhausted: numbers that the event wants of a process are used up.
    ///
    /// However it ends, and whatever devices failed, the tree stands for a run of the model that goes on from
    /// the one that it stood for. In this run no two processes end one transaction differently except by an
    /// operator's decision; commit is decided only where every participant voted yes or read-only; every
    /// answer that finds its asker in doubt tells the root's outcome; a mismatch stands until it is
    /// forgotten; an operator's record comes from an operator alone; and each End of the root reports
    /// mismatches truly (R*). Where the tree was opened over the logs of an earlier run, so it is of both
    /// parts together, from each run that it stood for, and each End of the later part reports truly.
    pub fn apply(&mut self, event: Event) -> Result<(), StepError>
        ensures ok { OnOk result (Applies (state self.old) event (state self.new)) }
        ensures err { IfErr result (λ e. Stops (state self.old) event e (state self.new)) }
        ensures goes_on { (es : List Made) (w : ModelWorld) → FollowsBehindFaults es w (state self.old)
            → GoesOnBehindFaults es w (state self.new) }
        ensures goes_on_since { (past : Earlier) (es : List Made) (w : ModelWorld)
            → FollowsSince past es w (state self.old) → GoesOnKeeping past es w (state self.new) }
        ensures traced { TraceGoesOnFrom (state self.old) (trace self.old) (state self.new) (trace self.new) }
        ensures headline { self.old.reopened ≡ false → KeepsHeadline (state self.new) }
        ensures reopened { self.new.reopened ≡ self.old.reopened }
    {
        self.running.make(event)
    }

    /// Makes these events, in order, up to the first that is refused: then how many were made, and why the
    /// next was not. However it ends, the tree stands for a run that goes on, as after one event, and the
    /// same holds of it.
    pub fn run(&mut self, events: &[Event]) -> Result<(), (usize, StepError)>
        ensures ok { OnOk result (EventsLead (state self.old) events.now (state self.new)) }
        ensures err { IfErr result (λ refusal. LeadsUntil (state self.old) events.now refusal.0
            refusal.1 (state self.new)) }
        ensures within { IfErr result (λ refusal. refusal.0 < length events.now) }
        ensures goes_on { (es : List Made) (w : ModelWorld) → FollowsBehindFaults es w (state self.old)
            → GoesOnBehindFaults es w (state self.new) }
        ensures goes_on_since { (past : Earlier) (es : List Made) (w : ModelWorld)
            → FollowsSince past es w (state self.old) → GoesOnKeeping past es w (state self.new) }
        ensures traced { TraceGoesOnFrom (state self.old) (trace self.old) (state self.new) (trace self.new) }
        ensures headline { self.old.reopened ≡ false → KeepsHeadline (state self.new) }
        ensures reopened { self.new.reopened ≡ self.old.reopened }
    {
        self.running.make_all(events)
    }
}
