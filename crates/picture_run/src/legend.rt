//! Which signs a picture has, for its legend.

use crate::plan::{Plan, Scene};
use crate::room::is_call;
use picture_layout::{Band, StepRows, place_of};
use picture_shapes::{Signs, Tone};
use picture_words::{act_tone, message_tone, message_with, record_tone, told_tone};
use protocol::{Happening, Input, JournalEntry};

/// With the colour of a tone.
fn with_tone(mut signs: Signs, tone: Tone) -> Signs {
    match tone {
        Tone::Vote => signs.vote = true,
        Tone::Yes => signs.commit = true,
        Tone::No => signs.abort = true,
        Tone::Ask => signs.inquiry = true,
        Tone::Ink | Tone::Dim | Tone::Operator => {}
    }
    signs
}

/// With the colour of a message.
fn with_message(signs: Signs, plan: &Plan, number: u64) -> Signs {
    match message_with(&plan.messages, number) {
        None => signs,
        Some(envelope) => with_tone(signs, message_tone(&envelope.message)),
    }
}

/// With the signs of messages.
fn with_messages(mut signs: Signs, plan: &Plan) -> Signs {
    for arrow in &plan.arrows {
        signs.message = true;
        signs.again = signs.again || arrow.again;
        signs.far = signs.far || arrow.way.far;
        signs = with_message(signs, plan, arrow.number);
    }
    for stub in &plan.stubs {
        signs.undelivered = signs.undelivered || stub.crossed;
        signs.far = signs.far || !stub.crossed;
        signs = with_message(signs, plan, stub.number);
    }
    signs
}

/// With the signs of records; each process began with one that was forced.
fn with_records(mut signs: Signs, plan: &Plan) -> Signs {
    signs.forced = true;
    for mark in &plan.marks {
        signs.unforced = signs.unforced || !mark.logged.forced;
        signs = with_tone(signs, record_tone(mark.logged.kind));
    }
    for lost in &plan.history.lost {
        signs.lost = signs.lost || *lost;
    }
    signs
}

/// With the signs of stretches.
fn with_stretches(mut signs: Signs, plan: &Plan) -> Signs {
    for stretch in &plan.stretches {
        match stretch.band {
            Band::Doubt => signs.doubt = true,
            Band::Operator => signs.operator = true,
        }
    }
    signs
}

/// With the signs of what a step was asked.
fn with_happening(mut signs: Signs, place: u32, entry: &JournalEntry, rows: StepRows) -> Signs {
    match &entry.step.happening {
        Happening::Input(Input::Act(act)) => {
            let tone = act_tone(act);
            signs = with_tone(signs, tone);
            if tone == Tone::Operator {
                signs.warning = true;
            } else if !is_call(place, act) {
                signs.application = true;
            }
        }
        Happening::Input(_) => {}
        Happening::Restart(_) => return signs,
        Happening::Trim => signs.trim = true,
    }
    signs.several = signs.several || rows.last > rows.first;
    signs
}

/// With the signs of a step.
fn with_step(signs: Signs, place: u32, entry: &JournalEntry, rows: StepRows) -> Signs {
    let mut signs = with_happening(signs, place, entry, rows);
    let reaction = &entry.reaction;
    let writes = !reaction.written.as_slice().is_empty();
    let sends = !reaction.messages.as_slice().is_empty();
    signs.handled = signs.handled || (sends && !writes);
    match reaction.told {
        None => signs,
        Some(told) => with_tone(signs, told_tone(told)),
    }
}

/// The signs of a picture of a run.
pub(crate) fn signs_of(scene: &Scene, plan: &Plan) -> Signs {
    let mut signs = with_messages(Signs::none(), plan);
    signs = with_records(signs, plan);
    signs = with_stretches(signs, plan);
    signs.crash = !plan.history.crashes.is_empty();
    signs.warning = !plan.history.mismatches.is_empty();
    for words in scene.notes {
        signs.note = signs.note || !words.is_empty();
    }
    for (entry, rows) in scene.entries.iter().zip(plan.rows.steps.iter()) {
        let place = place_of(&plan.seats, entry.step.process);
        signs = with_step(signs, place, entry, *rows);
    }
    signs
}
