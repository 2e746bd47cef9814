//! One process of a tree, of either kind.

ghost use Rattle.std.specs.Prelude.{◌≡◌, false, IfErr, IfOk, IsTrue};
ghost use Rattle.case_table.specs.Known.{KnowsCases};
ghost use Rattle.log_records.specs.Sights.{records_of};
ghost use Rattle.process_state.specs.Inputs.{input_of};
ghost use Rattle.process_state.specs.States.{HasNumbers};
ghost use Rattle.coord_process.specs.States.{state};
ghost use Rattle.kv_manager.specs.Resources.{sight_of};
ghost use Rattle.sub_process.specs.Steps.{state as manager_state};
ghost use Rattle.tree_state.specs.Worlds.{HandlesInput};
ghost use Rattle.resource_manager.specs.Data.{no_data};
ghost use Rattle.resource_manager.specs.Sights.{manager_data};
ghost use Rattle.protocol.specs.declared.events.StepError.TheVariants.{Device};
ghost use Rattle.tree_process.specs.Nodes.{FailsUnder, HasAnswer, NotHandled, HoldsLog, SpellsLog, core_of, data_of, live_at, standing_at};

use coord_process::Coordinator;
use kv_manager::KvManager;
use log_store::{LogStore, MemoryStore};
use process_state::InputRef;
use protocol::{LogRecord, Reaction, StepError};
use std::alloc::AllocError;
use sub_process::Subordinate;

/// One process of a tree, over its log in a store.
pub enum Process<L: LogStore> {
    /// The root, or a coordinator below it.
    Coordinator(Coordinator<L>),
    /// A process below a parent, with a key store.
    Manager(Subordinate<KvManager<L>>),
}

// For the proof: what is let go by hand is proved here alone, and not again by each crate above.
impl<L: LogStore + Drop> Drop for Process<L> {
    fn drop(self) {
        match self {
            Process::Coordinator(_a) => {}
            Process::Manager(_a) => {}
        }
    }
}

impl<L: LogStore> Process<L> {
    /// Whether there are numbers left for a transaction and a ticket more, which each input wants.
    pub fn has_numbers(&self) -> bool
        ensures yes { IsTrue result → HasNumbers (core_of self.now) }
        ensures no { HasNumbers (core_of self.now) → IsTrue result }
    {
        match self {
            Process::Coordinator(coordinator) => coordinator.has_numbers(),
            Process::Manager(manager) => manager.has_numbers(),
        }
    }

    /// How many cases are live: those that are not Unknown.
    pub fn live(&self) -> usize
        ensures known { KnowsCases (standing_at self.now) result }
        ensures entries { result ≡ live_at self.now }
    {
        match self {
            Process::Coordinator(coordinator) => coordinator.live(),
            Process::Manager(manager) => manager.live(),
        }
    }

    /// Whether the device failed under it: it answers `Failed` until its restart.
    pub fn failed(&self) -> bool
        ensures { result ≡ (core_of self.now).log.failed }
    {
        match self {
            Process::Coordinator(coordinator) => coordinator.failed(),
            Process::Manager(manager) => manager.failed(),
        }
    }

    /// The records of its log, as a list made again.
    pub fn records(&self) -> Result<Vec<LogRecord>, AllocError>
        ensures { IfOk result (λ records. records.items ≡ records_of (core_of self.now).log.kept) }
    {
        match self {
            Process::Coordinator(coordinator) => coordinator.records(),
            Process::Manager(manager) => manager.manager().records(),
        }
    }

    /// The bytes of its log, as a list made again.
    pub fn log_text(&self) -> Result<Vec<u8>, AllocError>
        ensures { IfOk result (λ text. SpellsLog (core_of self.now) text.items) }
    {
        match self {
            Process::Coordinator(coordinator) => coordinator_text(coordinator),
            Process::Manager(manager) => manager.manager().log_text(),
        }
    }

    /// The store under its log, to be read.
    pub fn store(&self) -> &L
        ensures { HoldsLog L.bytes L.forced L.failures (core_of self.now) result.now }
    {
        match self {
            Process::Coordinator(coordinator) => store_of_coordinator(coordinator),
            Process::Manager(manager) => store_of_manager(manager),
        }
    }

    /// Handles an input. The refusals of the reaction table, as `StepError` says them, change nothing, nor
    /// does Memory, nor Exhausted: numbers that the input wants are used up. Device: the device failed under
    /// the record of the input, which stands or not, and the process answers Failed until its restart.
    pub fn step(&mut self, input: InputRef<'_>) -> Result<Reaction, StepError>
        requires numbers { HasNumbers (core_of self.old) }
        ensures ok { IfOk result (HandlesInput (core_of self.old) (core_of self.new)
            (data_of self.old) (data_of self.new) (input_of input.entry)) }
        ensures err { IfErr result (NotHandled (core_of self.old) (core_of self.new)
            (data_of self.old) (data_of self.new) (input_of input.entry)) }
        ensures under { IfErr result (λ e. e ≡ Device → FailsUnder (core_of self.old) (core_of self.new)
            (data_of self.old) (input_of input.entry)) }
    {
        match self {
            Process::Coordinator(coordinator) => step_coordinator(coordinator, input),
            Process::Manager(manager) => step_manager(manager, input),
        }
    }

    /// For the proof: the data of a manager have an answer to an input; a coordinator has none, and answers
    /// nothing.
    fn data_answers(&self, input: InputRef<'_>)
        ensures { HasAnswer (core_of self.now) (data_of self.now) (input_of input.entry) }
    {
        match self {
            Process::Coordinator(coordinator) => answer_nothing(coordinator, input),
            Process::Manager(manager) => answer_by_data(manager, input),
        }
    }

    /// As `step`, and Exhausted if no numbers are left, by which nothing changed.
    pub fn handle(&mut self, input: InputRef<'_>) -> Result<Reaction, StepError>
        ensures ok { IfOk result (HandlesInput (core_of self.old) (core_of self.new)
            (data_of self.old) (data_of self.new) (input_of input.entry)) }
        ensures err { IfErr result (NotHandled (core_of self.old) (core_of self.new)
            (data_of self.old) (data_of self.new) (input_of input.entry)) }
        ensures under { IfErr result (λ e. e ≡ Device → FailsUnder (core_of self.old) (core_of self.new)
            (data_of self.old) (input_of input.entry)) }
    {
        self.data_answers(input);
        if !self.has_numbers() {
            return Err(StepError::Exhausted);
        }
        self.step(input)
    }
}

impl<L: LogStore + Drop> Process<L> {
    /// The store under its log, as it is.
    pub fn into_store(self) -> L
        ensures { HoldsLog L.bytes L.forced L.failures (core_of self) result }
    {
        match self {
            Process::Coordinator(coordinator) => coordinator_store(coordinator),
            Process::Manager(manager) => manager_store(manager),
        }
    }
}

impl Process<MemoryStore> {
    /// A store in memory does not fail.
    pub fn never_failed(&self)
        ensures { (core_of self.now).log.failures ≡ 0 }
    {
        match self {
            Process::Coordinator(coordinator) => coordinator.never_failed(),
            Process::Manager(manager) => manager.manager().never_failed(),
        }
    }
}

/// The store under a coordinator's log.
fn coordinator_store<L: LogStore + Drop>(coordinator: Coordinator<L>) -> L
    ensures { HoldsLog L.bytes L.forced L.failures (state coordinator) result }
{
    coordinator.into_store()
}

/// The store under a manager's log.
fn manager_store<L: LogStore + Drop>(manager: Subordinate<KvManager<L>>) -> L
    ensures { HoldsLog L.bytes L.forced L.failures (manager_state sight_of manager) result }
{
    manager.into_manager().into_store()
}

/// The store under a coordinator's log, to be read.
fn store_of_coordinator<L: LogStore>(coordinator: &Coordinator<L>) -> &L
    ensures { HoldsLog L.bytes L.forced L.failures (state coordinator.now) result.now }
{
    coordinator.store()
}

/// The store under a manager's log, to be read.
fn store_of_manager<L: LogStore>(manager: &Subordinate<KvManager<L>>) -> &L
    ensures { HoldsLog L.bytes L.forced L.failures (manager_state sight_of manager.now) result.now }
{
    manager.manager().store()
}

/// The bytes of a coordinator's log.
fn coordinator_text<L: LogStore>(coordinator: &Coordinator<L>) -> Result<Vec<u8>, AllocError>
    ensures { IfOk result (λ text. SpellsLog (state coordinator.now) text.items) }
{
    coordinator.log_text()
}

/// For the proof: a coordinator has no data that answer.
fn answer_nothing<L: LogStore>(coordinator: &Coordinator<L>, input: InputRef<'_>)
    ensures { HasAnswer (state coordinator.now) no_data (input_of input.entry) }
{
    let _coordinator = coordinator;
    let _input = input;
}

/// For the proof: a manager's data answer each input.
fn answer_by_data<L: LogStore>(manager: &Subordinate<KvManager<L>>, input: InputRef<'_>)
    ensures { HasAnswer (manager_state sight_of manager.now) (manager_data (sight_of manager.now.manager))
        (input_of input.entry) }
{
    let _input = input;
    manager.data_answers();
}

/// A coordinator handles an input; it has no data that answer.
fn step_coordinator<L: LogStore>(
    coordinator: &mut Coordinator<L>,
    input: InputRef<'_>,
) -> Result<Reaction, StepError>
    requires { HasNumbers (state coordinator.old) }
    ensures ok { IfOk result (HandlesInput (state coordinator.old)
        (state coordinator.new) no_data no_data (input_of input.entry)) }
    ensures err { IfErr result (NotHandled (state coordinator.old)
        (state coordinator.new) no_data no_data (input_of input.entry)) }
    ensures under { IfErr result (λ e. e ≡ Device → FailsUnder (state coordinator.old)
        (state coordinator.new) no_data (input_of input.entry)) }
{
    coordinator.step(input)
}

/// A manager handles an input; its data answer.
fn step_manager<L: LogStore>(
    manager: &mut Subordinate<KvManager<L>>,
    input: InputRef<'_>,
) -> Result<Reaction, StepError>
    requires numbers { HasNumbers (manager_state sight_of manager.old) }
    ensures ok { IfOk result (HandlesInput (manager_state sight_of manager.old)
        (manager_state sight_of manager.new) (manager_data (sight_of manager.old.manager))
        (manager_data (sight_of manager.new.manager)) (input_of input.entry)) }
    ensures err { IfErr result (NotHandled (manager_state sight_of manager.old)
        (manager_state sight_of manager.new) (manager_data (sight_of manager.old.manager))
        (manager_data (sight_of manager.new.manager)) (input_of input.entry)) }
    ensures under { IfErr result (λ e. e ≡ Device → FailsUnder (manager_state sight_of manager.old)
        (manager_state sight_of manager.new) (manager_data (sight_of manager.old.manager))
        (input_of input.entry)) }
{
    manager.data_answers();
    manager.step(input)
}
