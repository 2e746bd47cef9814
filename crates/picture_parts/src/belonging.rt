//! Which steps of a run are of a transaction.

ghost use Rattle.std.specs.Prelude.{◌≡◌, ◌&&◌, ◌||◌, IfOk, OnOk};
ghost use Rattle.protocol.specs.Names.{same_process};
ghost use Rattle.tree_world.specs.Worlds.{state};
ghost use Rattle.picture_parts.specs.Belonging.{AddsPart, AddsParts, TookPart, act_is_of, is_among, is_of, is_restart, is_shown, is_txn, marks_of, message_case, message_is_of, names, record_is_of, with_mark};

use log_store::MemoryStore;
use protocol::{
    Act, Case, Envelope, Happening, Input, JournalEntry, Message, ProcessId, ShownRecord, Subject,
    Txn,
};
use std::alloc::{AllocError, Global};
use tree_world::World;

/// The case that a message names.
fn case_of(message: &Message) -> Case
    ensures { result ≡ message_case message.now }
{
    match message {
        Message::Join(case) => *case,
        Message::Joined(case, _) => *case,
        Message::Work(case, _, _) => *case,
        Message::Prepare(case, _) => *case,
        Message::Yes(case) => *case,
        Message::No(case) => *case,
        Message::Read(case) => *case,
        Message::Commit(case) => *case,
        Message::Abort(case) => *case,
        Message::Ack(case, _, _) => *case,
        Message::Inquire(case) => *case,
    }
}

/// Whether a transaction, if there is one, is this one.
fn is_txn(txn: &Txn, found: Option<Txn>) -> bool
    ensures { result ≡ is_txn txn.now found }
{
    match found {
        None => false,
        Some(found) => found.is(txn),
    }
}

/// Whether an act is of a transaction; it began the second one, if it began one.
fn is_act_of(txn: &Txn, begun: Option<Txn>, act: &Act) -> bool
    ensures { result ≡ act_is_of txn.now begun act.now }
{
    match act {
        Act::Begin(_) => is_txn(txn, begun),
        Act::Join(case, _) => case.txn.is(txn),
        Act::Work(case, _, _) => case.txn.is(txn),
        Act::Commit(named) => named.is(txn),
        Act::Abort(named) => named.is(txn),
        Act::Ask(case) => case.txn.is(txn),
        Act::Decide(case, _) => case.txn.is(txn),
        Act::Forget(case) => case.txn.is(txn),
    }
}

/// Whether what a step handles names a transaction.
fn names(txn: &Txn, begun: Option<Txn>, happening: &Happening) -> bool
    ensures { result ≡ names txn.now begun happening.now }
{
    match happening {
        Happening::Input(Input::Act(act)) => is_act_of(txn, begun, act),
        Happening::Input(Input::Message(_, message)) => case_of(message).txn.is(txn),
        Happening::Restart(_) => false,
        Happening::Trim => false,
    }
}

/// Whether a record is of a case of the transaction.
pub(crate) fn is_record_of(txn: &Txn, logged: &ShownRecord) -> bool
    ensures { result ≡ record_is_of txn.now logged.now }
{
    match logged.subject {
        Subject::Boot(_) => false,
        Subject::Case(case) => case.txn.is(txn),
        Subject::Other => false,
    }
}

/// Whether a message names a case of the transaction.
pub(crate) fn is_message_of(txn: &Txn, envelope: &Envelope) -> bool
    ensures { result ≡ message_is_of txn.now envelope.now }
{
    case_of(&envelope.message).txn.is(txn)
}

/// Whether a step is of a transaction: it handles an act or a message of it, or makes a record or a message
/// of it.
#[tactic(auto, unfolding(crate::specs::Belonging::is_of))]
pub(crate) fn is_of(txn: &Txn, entry: &JournalEntry) -> bool
    ensures { result ≡ is_of txn.now entry.now }
{
    let reaction = &entry.reaction;
    let written = reaction.written.as_slice();
    let messages = reaction.messages.as_slice();
    names(txn, reaction.begun, &entry.step.happening)
        || written
            .iter()
            .filter(|logged| is_record_of(txn, logged))
            .count()
            != 0
        || messages
            .iter()
            .filter(|envelope| is_message_of(txn, envelope))
            .count()
            != 0
}

/// A step of a run, and whether it is drawn.
#[derive(Drop)]
pub struct Belonging {
    pub entry: JournalEntry,
    pub shown: bool,
}

/// Which steps of a run are drawn.
#[derive(Clone, Copy)]
pub(crate) enum Choice {
    /// Those of a transaction, and the restarts of the processes that took part in it before.
    OfTxn(Txn),
    /// Those from the first of these places on, up to the one before the second.
    Between(usize, usize),
}

/// Whether a process is one of these.
fn is_among(process: ProcessId, parts: &[ProcessId]) -> bool
    ensures { result ≡ is_among process parts.now }
{
    parts.iter().filter(|part| is_same(**part, process)).count() != 0
}

/// Whether two processes are one.
#[tactic(auto, unfolding(protocol::specs::Names::same_process))]
fn is_same(part: ProcessId, process: ProcessId) -> bool
    ensures { result ≡ same_process part process }
{
    part == process
}

/// Adds a process to those that took part, if it is not one of them.
fn add_part(parts: &mut Vec<ProcessId>, process: ProcessId) -> Result<(), AllocError>
    ensures { OnOk result (AddsPart process parts.old.items parts.new.items) }
{
    if !is_among(process, parts) {
        parts.push(process)?;
    }
    Ok(())
}

/// Whether a step is a restart.
fn is_restart(happening: &Happening) -> bool
    ensures { result ≡ is_restart happening.now }
{
    match happening {
        Happening::Restart(_) => true,
        Happening::Input(_) => false,
        Happening::Trim => false,
    }
}

/// Whether a step is drawn of a transaction in which these processes took part before.
fn shows_txn(txn: &Txn, parts: &[ProcessId], entry: &JournalEntry) -> bool
    ensures { result ≡ (is_of txn.now entry.now || (is_restart entry.now.step.happening
        && is_among entry.now.step.process parts.now)) }
{
    is_of(txn, entry) || is_restart(&entry.step.happening) && is_among(entry.step.process, parts)
}

impl Choice {
    /// Whether the step after these is drawn, in which these processes took part.
    #[tactic(auto, unfolding(crate::specs::Belonging::is_shown))]
    fn shows(&self, before: &[Belonging], parts: &[ProcessId], entry: &JournalEntry) -> bool
        requires { TookPart self.now before.now parts.now }
        ensures { result ≡ is_shown self.now before.now entry.now }
    {
        match self {
            Choice::OfTxn(txn) => shows_txn(txn, parts, entry),
            Choice::Between(from, to) => *from <= before.len() && before.len() < *to,
        }
    }

    /// Adds the process of a step to those that took part, if it takes part in it.
    #[tactic(auto, unfolding(crate::specs::Belonging::is_of_at))]
    fn add_parts(&self, parts: &mut Vec<ProcessId>, entry: &JournalEntry) -> Result<(), AllocError>
        ensures { OnOk result (AddsParts self.now entry.now parts.old.items parts.new.items) }
    {
        match self {
            Choice::OfTxn(txn) => {
                if is_of(txn, entry) {
                    return add_part(parts, entry.step.process);
                }
                Ok(())
            }
            Choice::Between(_, _) => Ok(()),
        }
    }
}

/// Adds a step to those before it, in which these processes took part, with whether it is drawn.
#[tactic(auto, using(crate::proofs::Marking::parts_more))]
fn push_mark(
    choice: &Choice,
    marks: &mut Vec<Belonging>,
    parts: &mut Vec<ProcessId>,
    entry: JournalEntry,
) -> Result<(), AllocError>
    requires { TookPart choice.now marks.old.items parts.old.items }
    ensures marked { OnOk result (marks.new.items ≡ with_mark choice.now marks.old.items entry) }
    ensures took { OnOk result (TookPart choice.now marks.new.items parts.new.items) }
{
    let shown = choice.shows(marks, parts, &entry);
    choice.add_parts(parts, &entry)?;
    marks.push(Belonging { entry, shown })?;
    Ok(())
}

/// The steps of a run, each with whether it is drawn.
#[tactic(auto, unfolding(crate::specs::Belonging::marks_of))]
pub(crate) fn marks_of(
    alloc: Global,
    world: &World<MemoryStore>,
    choice: &Choice,
) -> Result<Vec<Belonging>, AllocError>
    ensures { IfOk result (λ marks. marks.items ≡ marks_of choice.now (state world.now).entries) }
{
    let mut marks = Vec::new(alloc);
    let mut parts = Vec::new(alloc);
    for place in 0..world.made() {
        let Some(entry) = world.entry(place)? else {
            return Ok(marks);
        };
        push_mark(choice, &mut marks, &mut parts, entry)?;
    }
    Ok(marks)
}
