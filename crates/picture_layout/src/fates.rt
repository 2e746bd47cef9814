//! What becomes of each message.

ghost use Rattle.std.specs.Prelude.{◌≡◌, ◌-◌, ◌++◌, ◌∷◌, [], List, IfOk, OnOk, false, get_or, length, map, replicate, set, true};
ghost use Rattle.protocol_words.specs.Types.{AnyEntry};
ghost use Rattle.picture_layout.specs.declared.fates.Fate.{Fate as AnyFate};
ghost use Rattle.picture_layout.specs.Fates.{AreFates, HeardFrom, heard_at, no_fate, unheard};
ghost use Rattle.picture_layout.specs.Ways.{senders};
ghost use Rattle.picture_layout.specs.Whole.{heard_in, is_known, sent_in};

use protocol::{Envelope, Happening, Input, JournalEntry};
use std::alloc::{AllocError, Global};

/// By which step, from 0, a message was sent, and by which it was first delivered, if by any.
#[derive(Clone, Copy, PartialEq, Eq)]
pub struct Fate {
    pub sent: usize,
    pub heard: Option<usize>,
}

/// The number of the message that a step delivered, if it delivered one.
pub fn heard_by(entry: &JournalEntry) -> Option<u64>
    ensures { result ≡ heard_in entry.now.step.happening }
{
    match &entry.step.happening {
        Happening::Input(Input::Message(number, _)) => Some(*number),
        _ => None,
    }
}

/// The message with this number is delivered by this step, if by none before.
fn hear(fates: &mut [Fate], number: u64, step: usize)
    ensures known { is_known (length fates.old) number ≡ true
        → fates.new ≡ set fates.old (number - 1) (heard_at step (get_or fates.old (number - 1) no_fate)) }
    ensures other { is_known (length fates.old) number ≡ false → fates.new ≡ fates.old }
    ensures sent { map (λ (f : AnyFate). f.sent) fates.new ≡ map (λ (f : AnyFate). f.sent) fates.old }
{
    if number == 0 || number > fates.len() as u64 {
        return;
    }
    let fate = &mut fates[(number - 1) as usize];
    if fate.heard.is_none() {
        fate.heard = Some(step);
    }
}

/// N messages are sent by a step.
fn send(fates: &mut Vec<Fate>, step: usize, count: usize) -> Result<(), AllocError>
    ensures { OnOk result (fates.new.items ≡ fates.old.items ++ replicate count (unheard step)) }
{
    for _ in 0..count {
        fates.push(Fate {
            sent: step,
            heard: None,
        })?;
    }
    Ok(())
}

/// A step delivers a message or none.
fn hear_step(fates: &mut Vec<Fate>, step: usize, entry: &JournalEntry)
    ensures heard { (es : List AnyEntry) → length es ≡ step → HeardFrom 1 es fates.old.items
        → HeardFrom 1 (es ++ entry.now ∷ []) fates.new.items }
    ensures sent { map (λ (f : AnyFate). f.sent) fates.new.items
        ≡ map (λ (f : AnyFate). f.sent) fates.old.items }
{
    if let Some(number) = heard_by(entry) {
        hear(fates.as_mut_slice(), number, step);
    }
}

/// What becomes of the messages of a run, in the order of their numbers, from 1.
#[tactic(auto, using(crate::proofs::Ways::no_senders, crate::proofs::Ways::fates_more))]
pub fn fates_of(alloc: Global, entries: &[JournalEntry]) -> Result<Vec<Fate>, AllocError>
    ensures all { IfOk result (λ fates. length fates.items ≡ length (sent_in entries.now)) }
    ensures sent { IfOk result (λ fates. map (λ f. f.sent) fates.items ≡ senders entries.now) }
    ensures each { IfOk result (λ fates. AreFates entries.now fates.items) }
{
    let mut fates = Vec::new(alloc);
    for (step, entry) in entries.iter().enumerate() {
        hear_step(&mut fates, step, entry);
        send(&mut fates, step, entry.reaction.messages.len())?;
    }
    Ok(fates)
}

/// Adds copies of these messages.
fn push_copies(
    alloc: Global,
    out: &mut Vec<Envelope>,
    messages: &[Envelope],
) -> Result<(), AllocError>
    ensures { OnOk result (out.new.items ≡ out.old.items ++ messages.now) }
{
    for envelope in messages {
        out.push(envelope.copied(alloc)?)?;
    }
    Ok(())
}

/// The messages of a run, in the order of their numbers, from 1.
#[tactic(auto, unfolding(crate::specs::Whole::sent_in))]
pub fn messages_of(alloc: Global, entries: &[JournalEntry]) -> Result<Vec<Envelope>, AllocError>
    ensures { IfOk result (λ messages. messages.items ≡ sent_in entries.now) }
{
    let mut messages = Vec::new(alloc);
    for entry in entries {
        push_copies(alloc, &mut messages, entry.reaction.messages.as_slice())?;
    }
    Ok(messages)
}
