//! The mark of a turn: what a process is asked to do, and room for the entries of it.

ghost use Rattle.std.specs.Prelude.{◌≡◌, ◌≢◌, ◌+◌, ◌++◌, ◌<◌, ◌≤◌, [], ◌∷◌, if◌then◌else◌, Some, IfErr, IfNone, IfOk, IfSome, IsTrue, OnErr, OnOk, length};
ghost use Rattle.protocol.specs.Plays.{sent_as};
ghost use Rattle.protocol.specs.Trees.{root_of};
ghost use Rattle.protocol.specs.World.{entries_of};
ghost use Rattle.tree_state.specs.Worlds.{KeepsBytes};
ghost use Rattle.proof_cuts.specs.Alone.{IsMine};
ghost use Rattle.tree_state.specs.Cuts.{net_of};
ghost use Rattle.tree_process.specs.Nodes.{core_of};
ghost use Rattle.cluster_ties.specs.Seats.{IsProcessSeat};
ghost use Rattle.cluster_ties.specs.Views.{entries_in, noted, worker};
ghost use Rattle.cluster_process.specs.Makes.{IsAt};
ghost use Rattle.cluster_process.specs.Marks.{ActsHere, Happens, IsMarked, IsNotFor, NotMarked};
ghost use Rattle.cluster_process.specs.Turns.{AreNext, IsNext};

use crate::errors::PostError;
use crate::ledger::Ledger;
use crate::marked::MarkedStep;
use cluster_ties::seats::{Place, Seats, Ties};
use cluster_ties::ties::note_net;
use cluster_turns::Room;
use log_store::MemoryStore;
use protocol::{
    Envelope, Event, Happening, Input, JournalEntry, ProcessId, Reaction, Sequence, Step,
};
use std::alloc::{AllocError, Global};
use std::collections::LinkedList;
use tree_process::Process;

/// The most entries that a journal has when a step is marked.
pub const MOST_ENTRIES: usize = 1_000_000;

/// The most steps that a process makes in a turn.
pub const MOST_STEPS: usize = 32;

/// Whether these are one process.
pub fn is_same(a: ProcessId, b: ProcessId) -> bool
    ensures yes { IsTrue result → a ≡ b }
    ensures no { a ≡ b → IsTrue result }
{
    a.0 == b.0
}

/// N bytes after the forced front are kept as a restart names; all, where it names none.
fn kept_of(node: &Process<MemoryStore>, bytes: Option<u64>) -> usize
    ensures { KeepsBytes (core_of node.now) bytes result }
{
    match bytes {
        None => node.log_size(),
        Some(bytes) => bytes as usize,
    }
}

/// The message with this number, if it was sent to this process.
fn message_for<N: Seats>(ledger: &Ledger<N>, me: ProcessId, number: u64) -> Option<&Envelope>
    requires { ledger.now.late ≡ 0 }
    ensures found { IfSome result (λ l. (sent_as (net_of (entries_in ledger.now.entries)) number ≡ Some l.now)
        × (l.now.to ≡ me)) }
    ensures none { IfNone result (IsNotFor me (sent_as (net_of (entries_in ledger.now.entries)) number)) }
{
    let Some(envelope) = ledger.message(number) else {
        return None;
    };
    if is_same(envelope.to, me) {
        return Some(envelope);
    }
    None
}

/// Whether the journal takes one more entry.
fn has_room<N: Seats>(ledger: &Ledger<N>) -> Result<(), PostError>
    ensures ok { OnOk result (length ledger.now.entries < 1000000) }
    ensures err { IfErr result (λ e. (e ≡ PostError.JournalFull) × (1000000 ≤ length ledger.now.entries)) }
{
    if ledger.journal.len() < MOST_ENTRIES {
        Ok(())
    } else {
        Err(PostError::JournalFull)
    }
}

/// What happens by the event at this process, and how many bytes it keeps, where that is its restart.
fn asked<N: Seats>(
    alloc: Global,
    me: ProcessId,
    node: &Process<MemoryStore>,
    ledger: &Ledger<N>,
    event: Event,
) -> Result<(Happening, usize), PostError>
    requires { ledger.now.late ≡ 0 }
    ensures ok { IfOk result (λ h. Happens (net_of (entries_in ledger.now.entries)) me (core_of node.now)
        event h.0 h.1) }
    ensures room { OnOk result (length ledger.now.entries < 1000000) }
    ensures err { IfErr result (NotMarked (net_of (entries_in ledger.now.entries))
        (length ledger.now.entries) me event) }
{
    match event {
        Event::Act(act) => {
            has_room(ledger)?;
            Ok((Happening::Input(Input::Act(act)), 0))
        }
        Event::Deliver(number) => {
            let Some(envelope) = message_for(ledger, me, number) else {
                return Err(PostError::Stranger);
            };
            has_room(ledger)?;
            let message = envelope.message.copied(alloc)?;
            Ok((Happening::Input(Input::Message(number, message)), 0))
        }
        Event::Settle => Err(PostError::Stranger),
        Event::Restart(process, bytes) => {
            if !is_same(process, me) {
                return Err(PostError::Stranger);
            }
            has_room(ledger)?;
            let keep = kept_of(node, bytes);
            let kept = node.unforced_left(keep)?;
            Ok((Happening::Restart(kept as u64), keep))
        }
        Event::Trim(process) => {
            if !is_same(process, me) {
                return Err(PostError::Stranger);
            }
            has_room(ledger)?;
            Ok((Happening::Trim, 0))
        }
    }
}

/// A reaction with nothing in it. It takes no memory.
fn nothing(alloc: Global) -> Reaction {
    Reaction {
        begun: None,
        written: Sequence::new(alloc),
        told: None,
        messages: Sequence::new(alloc),
        kept: None,
    }
}

/// What a process wants to do, as an entry that shows nothing yet. It takes no memory.
fn wanted(alloc: Global, me: ProcessId, happening: Happening) -> JournalEntry
    ensures { IsAt me result × (result.step.happening ≡ happening) }
{
    JournalEntry {
        step: Step {
            process: me,
            happening,
            fault: None,
        },
        reaction: nothing(alloc),
    }
}

/// What a process wants to do, with room for the entry of it. Memory: a growth was refused.
fn wanted_at(
    alloc: Global,
    me: ProcessId,
    happening: Happening,
    keep: usize,
) -> Result<MarkedStep, AllocError>
    ensures { IfOk result (λ m. IsAt me m.wanted × (m.wanted.step.happening ≡ happening) × (m.keep ≡ keep)) }
{
    let room = Room::new(alloc, 1)?;
    Ok(MarkedStep {
        wanted: wanted(alloc, me, happening),
        keep,
        room,
    })
}

/// Marks the step that an event asks of a process, under its lock and the journal's, and takes room for the
/// entry of it; the process's seat notes the messages of the journal. An act is this process's.
///
/// Stranger: the event is a settle, delivers a message that was not sent to this process, or is another's
/// restart or trim. JournalFull: else, and the journal has 1,000,000 entries or more. Memory: a growth was
/// refused. After a refusal the process and the journal are as before.
pub fn mark<N: Seats>(
    alloc: Global,
    ties: &Ties,
    me: ProcessId,
    node: &Process<MemoryStore>,
    seat: &mut Place,
    ledger: &mut Ledger<N>,
    event: Event,
) -> Result<MarkedStep, PostError>
    requires here { (ties.now.shared.table_id ≡ N.table) × (seat.old.table_id ≡ N.table)
        × (0 < N.table.words) }
    requires seat { IsProcessSeat seat.old.me × (seat.old.me.0.process.name ≡ Some me) }
    requires acts { ActsHere (root_of N.tree) me event }
    ensures ledger { (ledger.new.entries ≡ ledger.old.entries) × OnOk result (ledger.new.late ≡ 0) }
    ensures tied { OnOk result (seat.old.me.0.process.own ≡ entries_of me (entries_in ledger.old.entries)) }
    ensures here { seat.new.table_id ≡ seat.old.table_id }
    ensures ok { IfOk result (IsMarked (net_of (entries_in ledger.old.entries)) me (core_of node.now) event) }
    ensures seat { OnOk result (seat.new.me
        ≡ (worker (noted seat.old.me.0.process (net_of (entries_in ledger.old.entries))), [])) }
    ensures mine { IfOk result (λ m. IsMine (root_of N.tree) me m.wanted.step.happening) }
    ensures room { OnOk result (length ledger.old.entries < 1000000) }
    ensures err { OnErr result (seat.new.me ≡ seat.old.me) }
    ensures refused { IfErr result (NotMarked (net_of (entries_in ledger.old.entries))
        (length ledger.old.entries) me event) }
{
    ledger.place()?;
    let (happening, keep) = asked(alloc, me, node, ledger, event)?;
    let marked = wanted_at(alloc, me, happening, keep)?;
    note_net(ties, seat, &mut ledger.seat);
    Ok(marked)
}

/// The delivery of the message with this number, as a step that its receiver wants; None if memory for it was
/// refused.
fn mark_next<N: Seats>(
    alloc: Global,
    me: ProcessId,
    ledger: &Ledger<N>,
    number: u64,
) -> Option<JournalEntry>
    requires { ledger.now.late ≡ 0 }
    ensures { IfSome result (IsNext (net_of (entries_in ledger.now.entries)) me number) }
{
    let envelope = message_for(ledger, me, number)?;
    let message = envelope.message.copied(alloc).ok()?;
    Some(wanted(alloc, me, Happening::Input(Input::Message(number, message))))
}

/// Adds a step to these. Whether there was memory for it.
fn is_added(more: &mut LinkedList<JournalEntry>, wanted: JournalEntry) -> bool
    ensures { more.new ≡ (if result then more.old ++ wanted ∷ [] else more.old) }
{
    more.push_back(wanted).is_ok()
}

/// The deliveries of the open messages to a process after the one with this number, in order of sending, as
/// steps that it wants: at most N, and fewer if memory is refused.
pub(crate) fn mark_more<N: Seats>(
    alloc: Global,
    me: ProcessId,
    ledger: &Ledger<N>,
    number: u64,
    most: usize,
) -> LinkedList<JournalEntry>
    requires { ledger.now.late ≡ 0 }
    ensures next { AreNext (net_of (entries_in ledger.now.entries)) me ledger.now.marks number result }
    ensures few { length result ≤ most }
{
    let mut more = LinkedList::new(alloc);
    let mut last = number;
    for _ in 0..most {
        let Some(next) = ledger.open_after(me, last) else {
            break;
        };
        let Some(wanted) = mark_next(alloc, me, ledger, next) else {
            break;
        };
        if !is_added(&mut more, wanted) {
            break;
        }
        last = next;
    }
    more
}

/// How many more steps a turn may have whose first is marked: none where a gate holds steps, and no more than
/// the journal takes.
fn most_more<N: Seats>(ledger: &Ledger<N>, me: ProcessId, holds: bool) -> usize
    requires { length ledger.now.entries < 1000000 }
    ensures room { length ledger.now.entries + 1 + result ≤ 1000000 }
    ensures few { result + 1 ≤ 32 }
{
    if holds {
        return 0;
    }
    let room = MOST_ENTRIES - ledger.journal.len() - 1;
    ledger.waiting_for(me).min(MOST_STEPS - 1).min(room)
}

/// Takes room for the whole turn, whose first step is marked: for how many more steps there is room. Where it
/// is refused, the turn has the one step.
pub(crate) fn room_for_more<N: Seats>(
    ledger: &Ledger<N>,
    me: ProcessId,
    holds: bool,
    marked: &mut MarkedStep,
) -> usize
    requires { length ledger.now.entries < 1000000 }
    ensures same { (marked.new.wanted ≡ marked.old.wanted) × (marked.new.keep ≡ marked.old.keep) }
    ensures taken { result + 1 ≤ marked.new.room.more }
    ensures room { length ledger.now.entries + 1 + result ≤ 1000000 }
    ensures few { result + 1 ≤ 32 }
{
    let most = most_more(ledger, me, holds);
    if most > 0 && marked.room.widen(most + 1) {
        most
    } else {
        0
    }
}
