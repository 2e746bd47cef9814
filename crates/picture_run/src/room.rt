//! Room for the words of a picture: each column is as wide as its words, within bounds.

use crate::plan::{Plan, Scene};
use picture_layout::place_of;
use picture_shapes::{PictureRoom, Tone, WIDE};
use picture_words::{
    act_label, act_tone, event_line, message_label, message_with, number_label, record_name,
    told_label,
};
use protocol::{Act, Envelope, Happening, Input, JournalEntry};
use std::alloc::{AllocError, Global};

/// Whether the application asks this of the root, whose place is 0.
pub(crate) fn is_call(place: u32, act: &Act) -> bool {
    place == 0 && act_tone(act) == Tone::Dim
}

/// How many characters stand along the arrow of a message.
fn message_size(alloc: Global, messages: &[Envelope], number: u64) -> Result<usize, AllocError> {
    let Some(envelope) = message_with(messages, number) else {
        return Ok(0);
    };
    let numbered = number_label(alloc, number)?.len();
    let label = message_label(alloc, numbered, &envelope.message, WIDE)?;
    Ok(numbered.saturating_add(label.len()))
}

/// With room for the words of a step of the process at this place.
fn with_step(
    alloc: Global,
    mut room: PictureRoom,
    place: u32,
    entry: &JournalEntry,
) -> Result<PictureRoom, AllocError> {
    let reaction = &entry.reaction;
    if let Happening::Input(Input::Act(act)) = &entry.step.happening {
        let size = act_label(alloc, act, reaction.begun, WIDE)?.len();
        if is_call(place, act) {
            room.calls = room.calls.max(size);
        } else {
            room.messages = room.messages.max(size.saturating_add(2));
        }
    }
    if let Some(told) = reaction.told {
        room.calls = room.calls.max(told_label(alloc, told, WIDE)?.len());
    }
    Ok(room)
}

/// Room for the lines of the events.
fn events_room(
    alloc: Global,
    scene: &Scene,
    plan: &Plan,
    least: usize,
) -> Result<usize, AllocError> {
    let mut room = least;
    for rule in &plan.rows.rules {
        if let Some(event) = scene.events.get(rule.event) {
            room = room.max(event_line(alloc, event)?.len());
        }
    }
    Ok(room)
}

/// Room for the words of messages and records.
fn messages_room(alloc: Global, plan: &Plan, least: usize) -> Result<usize, AllocError> {
    let messages = plan.messages.as_slice();
    let mut room = least;
    for arrow in &plan.arrows {
        room = room.max(message_size(alloc, messages, arrow.number)?);
    }
    for stub in &plan.stubs {
        room = room.max(message_size(alloc, messages, stub.number)?);
    }
    for mark in &plan.marks {
        room = room.max(record_name(alloc, &mark.logged)?.len());
    }
    Ok(room)
}

/// Room for all words of a run.
pub(crate) fn room_of(
    alloc: Global,
    scene: &Scene,
    plan: &Plan,
) -> Result<PictureRoom, AllocError> {
    let narrow = PictureRoom::narrow();
    let mut room = PictureRoom {
        events: events_room(alloc, scene, plan, narrow.events)?.min(WIDE),
        calls: narrow.calls,
        messages: messages_room(alloc, plan, narrow.messages)?,
    };
    for entry in scene.entries {
        let place = place_of(&plan.seats, entry.step.process);
        room = with_step(alloc, room, place, entry)?;
    }
    room.messages = room.messages.min(WIDE);
    Ok(room)
}
