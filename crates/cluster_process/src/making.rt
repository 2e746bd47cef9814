//! The steps of a turn: what a process makes under its own lock alone.

ghost use Rattle.std.specs.Prelude.{◌≡◌, ◌+◌, ◌≤◌, All, IfErr, IfOk, length};
ghost use Rattle.protocol.specs.declared.events.Happening.TheVariants as kinds;
ghost use Rattle.process_state.specs.Inputs.{input_of};
ghost use Rattle.tree_state.specs.Steps.{records_kept, trim_reaction};
ghost use Rattle.tree_state.specs.Worlds.{HandlesInput};
ghost use Rattle.proof_cuts.specs.Alone.{MakesAlone, RestartsAlone, TrimsAlone};
ghost use Rattle.tree_process.specs.Nodes.{core_of, data_of};
ghost use Rattle.cluster_process.specs.Makes.{FitsNode, NotMadeIt};
ghost use Rattle.cluster_process.specs.Turns.{GoesFurther, IsDeliveryAt, MakesStep};

use crate::marked::MarkedStep;
use crate::seated::Gate;
use cluster_ties::seats::{Place, Seats};
use cluster_turns::Room;
use log_store::MemoryStore;
use process_state::InputRef;
use protocol::{Happening, Input, JournalEntry, ProcessId, Reaction, Sequence, StepError, Txn};
use std::alloc::Global;
use std::collections::LinkedList;
use std::sync::Wait;
use tree_process::Process;

/// What a process has made in a turn: the entries, each with its caller's number, in the room that was made
/// for them; and the transaction that the first of them began, if it began one.
#[derive(Drop)]
pub struct Made {
    pub(crate) turn: Room,
    pub(crate) begun: Option<Txn>,
}

impl Made {
    /// The transaction that was begun, if one was.
    pub fn begun(&self) -> Option<Txn>
        ensures { result ≡ self.now.begun }
    {
        self.begun
    }
}

/// What a trim shows: how many records remain. It takes no memory.
fn trimmed(alloc: Global, remain: u64) -> Reaction
    ensures { result ≡ trim_reaction remain }
{
    Reaction {
        begun: None,
        written: Sequence::new(alloc),
        told: None,
        messages: Sequence::new(alloc),
        kept: Some(remain),
    }
}

/// A process handles an input. A store in memory does not fail.
fn handle(node: &mut Process<MemoryStore>, input: InputRef<'_>) -> Result<Reaction, StepError>
    ensures ok { IfOk result (HandlesInput (core_of node.old) (core_of node.new) (data_of node.old)
        (data_of node.new) (input_of input.entry)) }
    ensures err { IfErr result (NotMadeIt (core_of node.old) (core_of node.new) (data_of node.old)
        (data_of node.new) (kinds.Input (input_of input.entry))) }
{
    let handled = node.handle(input);
    node.never_failed();
    handled
}

/// A process restarts, and keeps `keep` bytes after its forced front, which are `kept` records.
fn restart(node: &mut Process<MemoryStore>, kept: u64, keep: usize) -> Result<Reaction, StepError>
    requires { kept ≡ records_kept (core_of node.old) keep }
    ensures ok { IfOk result (RestartsAlone (core_of node.old) (core_of node.new)
        (data_of node.new) keep kept) }
    ensures err { IfErr result (NotMadeIt (core_of node.old) (core_of node.new) (data_of node.old)
        (data_of node.new) (kinds.Restart kept)) }
{
    let _ = kept;
    let restarted = node.restart(keep);
    node.never_failed();
    restarted
}

/// The log of a process is trimmed. Gives how many records remain.
fn trim(node: &mut Process<MemoryStore>) -> Result<u64, StepError>
    ensures ok { IfOk result (TrimsAlone (core_of node.old) (core_of node.new) (data_of node.old)
        (data_of node.new)) }
    ensures err { IfErr result (NotMadeIt (core_of node.old) (core_of node.new) (data_of node.old)
        (data_of node.new) kinds.Trim) }
{
    let remain = node.trim_sound();
    node.never_failed();
    remain
}

/// The log of a process is trimmed. Gives the reaction that shows how many records remain.
fn trim_shown(alloc: Global, node: &mut Process<MemoryStore>) -> Result<Reaction, StepError>
    ensures ok { IfOk result (MakesAlone (core_of node.old) (core_of node.new) (data_of node.old)
        (data_of node.new) 0 kinds.Trim) }
    ensures err { IfErr result (NotMadeIt (core_of node.old) (core_of node.new) (data_of node.old)
        (data_of node.new) kinds.Trim) }
{
    match trim(node) {
        Ok(remain) => Ok(trimmed(alloc, remain)),
        Err(error) => Err(error),
    }
}

/// A process makes what happens.
fn make_it(
    alloc: Global,
    node: &mut Process<MemoryStore>,
    happening: &Happening,
    keep: usize,
) -> Result<Reaction, StepError>
    requires { FitsNode (core_of node.old) keep happening.now }
    ensures ok { IfOk result (MakesAlone (core_of node.old) (core_of node.new) (data_of node.old)
        (data_of node.new) keep happening.now) }
    ensures err { IfErr result (NotMadeIt (core_of node.old) (core_of node.new) (data_of node.old)
        (data_of node.new) happening.now) }
{
    match happening {
        Happening::Input(Input::Act(act)) => handle(node, InputRef::Act(act)),
        Happening::Input(Input::Message(number, message)) => {
            handle(node, InputRef::Message(*number, message))
        }
        Happening::Restart(kept) => restart(node, *kept, keep),
        Happening::Trim => trim_shown(alloc, node),
    }
}

/// Makes the marked step under the process's lock alone, whatever the others do meanwhile, as the process's
/// data answer it: a turn of one entry, under the caller's number, in the room that was taken at the mark. A
/// refusal, which is never Device, leaves the process and its data as they were.
pub fn make_step(
    alloc: Global,
    node: &mut Process<MemoryStore>,
    caller: u64,
    marked: MarkedStep,
) -> Result<Made, StepError>
    requires { FitsNode (core_of node.old) marked.keep marked.wanted.step.happening }
    ensures ok { IfOk result (MakesStep caller marked.wanted marked.keep (core_of node.old) (core_of node.new)
        (data_of node.old) (data_of node.new)) }
    ensures more { IfOk result (λ made. made.turn.more + 1 ≡ marked.room.more) }
    ensures err { IfErr result (NotMadeIt (core_of node.old) (core_of node.new) (data_of node.old)
        (data_of node.new) marked.wanted.step.happening) }
{
    let MarkedStep { wanted, keep, room } = marked;
    let reaction = make_it(alloc, node, &wanted.step.happening, keep)?;
    let begun = reaction.begun;
    let entry = JournalEntry {
        step: wanted.step,
        reaction,
    };
    let mut turn = room;
    turn.push(caller, entry);
    Ok(Made { turn, begun })
}

/// Makes the next of these deliveries, and adds its entry to the turn, which has room for all of them.
/// Whether it was made: not if there is none, or if it is refused, which leaves the process as it was. The
/// seat is the process's.
fn make_next<N: Seats, R: Wait, G: Gate>(
    rt: &R,
    alloc: Global,
    me: ProcessId,
    node: &mut Process<MemoryStore>,
    seat: &Place,
    caller: u64,
    gate: &G,
    more: &mut LinkedList<JournalEntry>,
    made: &mut Made,
) -> bool
    requires deliveries { All (IsDeliveryAt seat.now.me.0.process.net me) more.old }
    requires room { length more.old ≤ made.old.turn.more }
    ensures rest { All (IsDeliveryAt seat.now.me.0.process.net me) more.new }
    ensures room { length more.new ≤ made.new.turn.more }
    ensures further { GoesFurther N.tree seat.now.me.0.process.net me caller made.old.turn.entries
        made.new.turn.entries
        (core_of node.old) (core_of node.new) (data_of node.old) (data_of node.new) }
{
    let _ = seat;
    let Some(wanted) = more.pop_front() else {
        return false;
    };
    let Ok(reaction) = make_it(alloc, node, &wanted.step.happening, 0) else {
        return false;
    };
    let entry = JournalEntry {
        step: wanted.step,
        reaction,
    };
    made.turn.push(caller, entry);
    gate.before(rt, me);
    true
}

/// Makes these deliveries one after another, until one is refused, and adds their entries to the turn, which
/// has room for them. The seat is the process's.
pub(crate) fn make_more<N: Seats, R: Wait, G: Gate>(
    rt: &R,
    alloc: Global,
    me: ProcessId,
    node: &mut Process<MemoryStore>,
    seat: &Place,
    caller: u64,
    gate: &G,
    mut more: LinkedList<JournalEntry>,
    made: &mut Made,
)
    requires deliveries { All (IsDeliveryAt seat.now.me.0.process.net me) more }
    requires room { length more ≤ made.old.turn.more }
    ensures { GoesFurther N.tree seat.now.me.0.process.net me caller made.old.turn.entries
        made.new.turn.entries
        (core_of node.old) (core_of node.new) (data_of node.old) (data_of node.new) }
{
    for _ in 0..more.len() {
        if !make_next::<N, R, G>(rt, alloc, me, node, seat, caller, gate, &mut more, made) {
            return;
        }
    }
}
