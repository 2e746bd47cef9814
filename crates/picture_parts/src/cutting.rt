//! The steps of a part of a run, as they are drawn.

ghost use Rattle.std.specs.Prelude.{◌≡◌, ◌+◌, ◌++◌, ◌∷◌, [], if◌then◌else◌, IfOk, OnOk, filter};
ghost use Rattle.picture_parts.specs.Cut.{cut, drawn_entry, drawn_from, drawn_happening, drawn_messages, drawn_sent, message_stays, number_in, numbers_of, record_stays};
ghost use Rattle.picture_parts.specs.Tails.{tail_in};

use crate::belonging::{Belonging, is_message_of};
use crate::counting::{Tails, record_stays};
use protocol::{
    Envelope, Happening, Input, JournalEntry, ProcessId, Reaction, Sequence, ShownRecord, Step, Txn,
};
use report_io::Failure;
use std::alloc::{AllocError, Global};

/// Whether a message is of no other transaction than this one, if only that is drawn.
fn message_stays(only: Option<Txn>, envelope: &Envelope) -> bool
    ensures { result ≡ message_stays only envelope.now }
{
    match only {
        None => true,
        Some(txn) => is_message_of(&txn, envelope),
    }
}

/// The records that are drawn of these.
fn records_of(
    alloc: Global,
    only: Option<Txn>,
    written: &[ShownRecord],
) -> Result<Vec<ShownRecord>, AllocError>
    ensures { IfOk result (λ stay. stay.items ≡ filter (record_stays only) written.now) }
{
    let mut stay = Vec::new(alloc);
    for logged in written {
        if record_stays(only, logged) {
            stay.push(*logged)?;
        }
    }
    Ok(stay)
}

/// The messages that are drawn of these.
fn messages_of(
    alloc: Global,
    only: Option<Txn>,
    messages: &[Envelope],
) -> Result<Vec<Envelope>, AllocError>
    ensures { IfOk result (λ stay. stay.items ≡ filter (message_stays only) messages.now) }
{
    let mut stay = Vec::new(alloc);
    for envelope in messages {
        if message_stays(only, envelope) {
            stay.push(envelope.copied(alloc)?)?;
        }
    }
    Ok(stay)
}

/// What is drawn of a reaction.
fn cut(alloc: Global, only: Option<Txn>, reaction: &Reaction) -> Result<Reaction, AllocError>
    ensures { IfOk result (λ drawn. drawn ≡ cut only reaction.now) }
{
    let written = records_of(alloc, only, reaction.written.as_slice())?;
    let messages = messages_of(alloc, only, reaction.messages.as_slice())?;
    Ok(Reaction {
        begun: reaction.begun,
        written: Sequence::from_vec(written),
        told: reaction.told,
        messages: Sequence::from_vec(messages),
        kept: reaction.kept,
    })
}

/// Adds of each message of a step whether it is drawn.
#[tactic(auto, unfolding(crate::specs::Cut::drawn_messages))]
fn push_drawn(sent: &mut Vec<bool>, only: Option<Txn>, marked: &Belonging) -> Result<(), AllocError>
    ensures { OnOk result (sent.new.items ≡ sent.old.items ++ drawn_messages only marked.now) }
{
    for envelope in marked.entry.reaction.messages.as_slice() {
        sent.push(marked.shown && message_stays(only, envelope))?;
    }
    Ok(())
}

/// Of each message of a run, in the order of their numbers, whether it is drawn.
#[tactic(auto, unfolding(crate::specs::Cut::drawn_sent))]
pub(crate) fn sent_of(
    alloc: Global,
    only: Option<Txn>,
    marks: &[Belonging],
) -> Result<Vec<bool>, AllocError>
    ensures { IfOk result (λ sent. sent.items ≡ drawn_sent only marks.now) }
{
    let mut sent = Vec::new(alloc);
    for marked in marks {
        push_drawn(&mut sent, only, marked)?;
    }
    Ok(sent)
}

/// Adds the number of a message in the picture, of which N messages before it are drawn: how many are drawn
/// with it.
fn push_drawn_number(numbers: &mut Vec<u64>, drawn: u64, flag: bool) -> Result<u64, Failure>
    ensures items { OnOk result (numbers.new.items
        ≡ numbers.old.items ++ (if flag then drawn + 1 else 0) ∷ []) }
    ensures next { IfOk result (λ next. next ≡ (if flag then drawn + 1 else drawn)) }
{
    if !flag {
        numbers.push(0)?;
        return Ok(drawn);
    }
    let Some(next) = drawn.checked_add(1) else {
        return Err(Failure::Exhausted);
    };
    numbers.push(next)?;
    Ok(next)
}

/// Of each message its number in the picture; 0, if it is not drawn.
#[tactic(auto, unfolding(crate::specs::Cut::numbers_of))]
fn numbers_of(alloc: Global, sent: &[bool]) -> Result<Vec<u64>, Failure>
    ensures { IfOk result (λ numbers. numbers.items ≡ numbers_of sent.now) }
{
    let mut numbers = Vec::new(alloc);
    let mut drawn: u64 = 0;
    for flag in sent {
        drawn = push_drawn_number(&mut numbers, drawn, *flag)?;
    }
    Ok(numbers)
}

/// The number in the picture of the message with this number in the run; 0, if it is not drawn.
fn number_of(numbers: &[u64], number: u64) -> u64
    ensures { result ≡ number_in numbers.now number }
{
    if number == 0 {
        return 0;
    }
    match numbers.get((number - 1) as usize) {
        None => 0,
        Some(number) => *number,
    }
}

/// What happens in a step of a process, as it is drawn.
fn happening_of(
    alloc: Global,
    numbers: &[u64],
    tails: &Tails,
    process: ProcessId,
    happening: &Happening,
) -> Result<Happening, AllocError>
    ensures { IfOk result (λ drawn. drawn
        ≡ drawn_happening numbers.now (tail_in tails.now.tails.entries process) happening.now) }
{
    Ok(match happening {
        Happening::Input(Input::Act(act)) => Happening::Input(Input::Act(act.copied(alloc)?)),
        Happening::Input(Input::Message(number, message)) => {
            let message = message.copied(alloc)?;
            Happening::Input(Input::Message(number_of(numbers, *number), message))
        }
        Happening::Restart(kept) => Happening::Restart(tails.own_left(process, *kept)),
        Happening::Trim => Happening::Trim,
    })
}

/// A step as it is drawn, before which a crash could take these records.
#[tactic(auto, unfolding(crate::specs::Cut::drawn_entry))]
fn entry_of(
    alloc: Global,
    only: Option<Txn>,
    numbers: &[u64],
    tails: &Tails,
    entry: &JournalEntry,
) -> Result<JournalEntry, AllocError>
    ensures { IfOk result (λ drawn. drawn ≡ drawn_entry only numbers.now
        (tail_in tails.now.tails.entries entry.now.step.process) entry.now) }
{
    let process = entry.step.process;
    let happening = happening_of(alloc, numbers, tails, process, &entry.step.happening)?;
    let reaction = cut(alloc, only, &entry.reaction)?;
    Ok(JournalEntry {
        step: Step {
            process,
            happening,
            fault: entry.step.fault,
        },
        reaction,
    })
}

/// Adds a step as it is drawn, if it is, before which a crash could take these records.
fn push_entry(
    alloc: Global,
    drawn: &mut Vec<JournalEntry>,
    only: Option<Txn>,
    numbers: &[u64],
    tails: &Tails,
    marked: &Belonging,
) -> Result<(), AllocError>
    ensures { OnOk result (drawn.new.items ≡ (if marked.now.shown
        then drawn.old.items ++ drawn_entry only numbers.now
        (tail_in tails.now.tails.entries marked.now.entry.step.process) marked.now.entry ∷ []
        else drawn.old.items)) }
{
    if marked.shown {
        drawn.push(entry_of(alloc, only, numbers, tails, &marked.entry)?)?;
    }
    Ok(())
}

/// The steps that are drawn of a run, as they are drawn: what is of one transaction, if only that is drawn,
/// or all.
#[tactic(auto, unfolding(crate::specs::Cut::drawn_from))]
pub fn drawn_from(
    alloc: Global,
    only: Option<Txn>,
    marks: &[Belonging],
) -> Result<Vec<JournalEntry>, Failure>
    ensures { IfOk result (λ drawn. drawn.items ≡ drawn_from only marks.now) }
{
    let numbers = numbers_of(alloc, &sent_of(alloc, only, marks)?)?;
    let mut drawn = Vec::new(alloc);
    let mut tails = Tails::new(alloc);
    for marked in marks {
        push_entry(alloc, &mut drawn, only, &numbers, &tails, marked)?;
        tails.add(only, marked)?;
    }
    Ok(drawn)
}
