//! Events, inputs, steps and what they lead to.

ghost use Rattle.std.specs.Prelude.{◌≡◌, IfOk};
ghost use Rattle.protocol.specs.Errors.{step_error_number};
ghost use Rattle.protocol.specs.Plays.{process_of_act};

use crate::lists::Sequence;
use crate::messages::{Envelopes, Message, Op};
use crate::names::{Case, Outcome, Presumption, ProcessId, Txn};
use crate::records::ShownRecord;
use std::alloc::{AllocError, Global};
use thiserror::Error;

/// What an application or an operator asks of one process.
#[derive(Drop)]
pub enum Act {
    /// The root begins a transaction.
    Begin(Presumption),
    /// The case invites a child.
    Join(Case, ProcessId),
    /// The case has a child do a piece of work.
    Work(Case, ProcessId, Op),
    Commit(Txn),
    Abort(Txn),
    /// A case in doubt asks its parent for the outcome.
    Ask(Case),
    /// A manager's operator decides a prepared branch (a heuristic decision, C193).
    Decide(Case, Outcome),
    /// A heuristic decision may be forgotten.
    Forget(Case),
}

impl Act {
    /// A copy of the act.
    pub fn copied(&self, alloc: Global) -> Result<Act, AllocError>
        ensures { IfOk result (λ copy. copy ≡ self.now) }
    {
        Ok(match self {
            Act::Begin(presumption) => Act::Begin(*presumption),
            Act::Join(case, child) => Act::Join(*case, *child),
            Act::Work(case, child, op) => Act::Work(*case, *child, op.copied(alloc)?),
            Act::Commit(txn) => Act::Commit(*txn),
            Act::Abort(txn) => Act::Abort(*txn),
            Act::Ask(case) => Act::Ask(*case),
            Act::Decide(case, outcome) => Act::Decide(*case, *outcome),
            Act::Forget(case) => Act::Forget(*case),
        })
    }

    /// The process whose act it is in a tree with this root: its case's, or the root.
    pub fn process(&self, root: ProcessId) -> ProcessId
        ensures { result ≡ process_of_act root self.now }
    {
        match self {
            Act::Begin(_) => root,
            Act::Join(case, _)
            | Act::Work(case, _, _)
            | Act::Ask(case)
            | Act::Decide(case, _)
            | Act::Forget(case) => case.process(),
            Act::Commit(txn) | Act::Abort(txn) => txn.root,
        }
    }
}

/// What a process handles: an act, or a message with its number in the net (from 1).
#[derive(Drop)]
pub enum Input {
    Act(Act),
    Message(u64, Message),
}

/// An event of a script.
#[derive(Drop)]
pub enum Event {
    Act(Act),
    /// Delivers the message with this number.
    Deliver(u64),
    /// Delivers the least numbered message that was not delivered yet, again and again, at most 10,000 times.
    Settle,
    /// Restarts a process, which keeps N bytes after its forced front, or all of them.
    Restart(ProcessId, Option<u64>),
    Trim(ProcessId),
}

impl Event {
    /// A copy of the event.
    pub fn copied(&self, alloc: Global) -> Result<Event, AllocError>
        ensures { IfOk result (λ copy. copy ≡ self.now) }
    {
        Ok(match self {
            Event::Act(act) => Event::Act(act.copied(alloc)?),
            Event::Deliver(number) => Event::Deliver(*number),
            Event::Settle => Event::Settle,
            Event::Restart(process, bytes) => Event::Restart(*process, *bytes),
            Event::Trim(process) => Event::Trim(*process),
        })
    }
}

/// What happens at one process.
#[derive(Drop)]
pub enum Happening {
    Input(Input),
    /// N records after the forced front are kept.
    Restart(u64),
    Trim,
}

/// What a device's failure left of an event: how many of its records were appended, and how many of the
/// records after the old forced front are in the new one.
#[derive(Clone, Copy, PartialEq, Eq)]
pub struct Fault {
    pub appended: u64,
    pub forced: u64,
}

/// One atomic step of the whole system: what happened at which process, and the device's failure in it.
#[derive(Drop)]
pub struct Step {
    pub process: ProcessId,
    pub happening: Happening,
    pub fault: Option<Fault>,
}

/// How a transaction was concluded for the application.
#[derive(Clone, Copy, PartialEq, Eq)]
pub enum Conclusion {
    Committed,
    Aborted,
    ReadOnly,
}

/// What the application was told.
#[derive(Clone, Copy, PartialEq, Eq)]
pub struct Told {
    pub txn: Txn,
    pub conclusion: Conclusion,
}

/// What a step led to: the transaction begun, the records made, what was told, the messages, and for a trim
/// the number of records kept. One with nothing in it takes no memory.
#[derive(Drop)]
pub struct Reaction {
    pub begun: Option<Txn>,
    pub written: Sequence<ShownRecord>,
    pub told: Option<Told>,
    pub messages: Envelopes,
    pub kept: Option<u64>,
}

/// A step with its reaction.
#[derive(Drop)]
pub struct JournalEntry {
    pub step: Step,
    pub reaction: Reaction,
}

/// Why a step was refused. After all but `Device` nothing has changed.
#[derive(Clone, Copy, Debug, PartialEq, Eq, Error)]
pub enum StepError {
    /// A growth was refused.
    #[error("out of memory")]
    Memory,
    /// The device failed; the process answers `Failed` until its restart.
    #[error("the device failed")]
    Device,
    /// No such case is at the process.
    #[error("no such case here")]
    UnknownTxn,
    /// The process is no child of this one, or for work no accepted child that is a manager.
    #[error("not a child that can take it")]
    NotAChild,
    /// Commit or abort was asked already, or PREPARE came (but a case that collects votes takes an abort). A
    /// case that is forgotten after that is no case any more, and so `UnknownTxn`.
    #[error("the case is closed")]
    Closed,
    /// The process's device failed, and it was not restarted yet.
    #[error("the process has failed")]
    Failed,
    /// A question or a heuristic decision for a case that is not in doubt here.
    #[error("the case is not in doubt here")]
    NotInDoubt,
    /// The case has no heuristic decision here.
    #[error("nothing to forget")]
    NothingToForget,
    /// No process or no message has this number.
    #[error("no such process or message")]
    NoSuch,
    /// A number of 2^63 or more would be needed, or a record that no log holds, as one that names more than
    /// 255 tickets.
    #[error("numbers are used up")]
    Exhausted,
}

impl From<AllocError> for StepError {
    ghost use Rattle.std.specs.Prelude.{◌≡◌};
    ghost use Rattle.protocol.specs.declared.events.StepError.TheVariants.{Memory};

    ghost from_gives = { λ _ e. e ≡ Memory };

    fn from(_e: AllocError) -> StepError {
        StepError::Memory
    }
}

impl StepError {
    /// The number that is printed, 1 to 9, or 11.
    pub fn number(self) -> u8
        ensures { result ≡ step_error_number self }
    {
        match self {
            StepError::Memory => 1,
            StepError::Device => 2,
            StepError::UnknownTxn => 3,
            StepError::NotAChild => 4,
            StepError::Closed => 5,
            StepError::Failed => 6,
            StepError::NotInDoubt => 7,
            StepError::NothingToForget => 8,
            StepError::NoSuch => 9,
            StepError::Exhausted => 11,
        }
    }
}
