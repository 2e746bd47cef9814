//! Draws crashes, mismatches, what a run leaves, and the event that was refused.

ghost use Rattle.std.specs.Prelude.{◌≡◌, ◌++◌, IfOk, OnOk};
ghost use Rattle.tree_script.specs.Spellings.{event_text};
ghost use Rattle.picture_run.specs.Lines.{refused_in, refused_lines};
ghost use Rattle.picture_run.specs.Pictures.{titles_of};

use crate::drawing::{Drawing, bytes_of};
use crate::plan::{Plan, Scene};
use crate::sheet::Draft;
use picture_layout::{Column, LastState, place_of};
use picture_shapes::{Label, Look, Shape, Spot, Stroke, Tip, Tone, Torn, push_word, width_of};
use picture_words::{
    event_line, message_with, outcome_label, record_names, refusal_words, shortened,
};
use protocol::{Act, Envelope, Event, Outcome, ProcessId, ShownRecord, StepError};
use std::alloc::AllocError;
use trace_lines::{push, push_number};

impl Drawing {
    fn draw_crash(
        &mut self,
        seat: &Column,
        row: u32,
        lost: &[ShownRecord],
    ) -> Result<(), AllocError> {
        let (x, y) = (self.frame.x_of(seat.place), self.frame.y_of(row));
        let names = record_names(self.alloc, lost)?;
        let mut title = Vec::new(self.alloc);
        push_number(&mut title, u64::from(seat.process.0))?;
        push(&mut title, " restarts; lost: ")?;
        if lost.is_empty() {
            push(&mut title, "nothing")?;
        } else {
            title.extend_from_slice(names.as_slice())?;
        }
        self.sheet.marks.push(Shape::Torn(Torn {
            title,
            x: x.saturating_sub(22),
            edge: x.saturating_sub(20),
            y: y.saturating_sub(7),
        }))?;
        let body = bytes_of(self.alloc, "CRASH ")?;
        let gone = shortened(names, self.frame.room.messages.saturating_sub(4))?;
        let size = width_of(body.len().saturating_add(gone.len()));
        self.sheet.write(Label {
            tone: Tone::No,
            look: Look::Bold,
            x: x.saturating_add(26),
            y: y.saturating_add(4),
            right: true,
            number: Vec::new(self.alloc),
            body,
            gone,
            size,
        })
    }

    pub(crate) fn draw_crashes(&mut self, scene: &Scene, plan: &Plan) -> Result<(), AllocError> {
        for crash in &plan.history.crashes {
            let Some(entry) = scene.entries.get(crash.step) else {
                continue;
            };
            let Some(rows) = plan.rows.steps.get(crash.step) else {
                continue;
            };
            let place = place_of(&plan.seats, entry.step.process);
            if let Some(seat) = plan.seats.get(place as usize) {
                self.draw_crash(seat, rows.first, &crash.lost)?;
            }
        }
        Ok(())
    }

    /// Words that tell of a mismatch, below the record of a step.
    fn draw_mismatch(
        &mut self,
        place: u32,
        row: u32,
        right: bool,
        told: Outcome,
    ) -> Result<(), AllocError> {
        let (x, y) = (self.frame.x_of(place), self.frame.y_of(row));
        let (sign, words_at) = if right {
            (x.saturating_add(21), x.saturating_add(34))
        } else {
            (x.saturating_sub(21), x.saturating_sub(34))
        };
        self.sheet.marks.push(Shape::Warning(Spot {
            x: sign,
            y: y.saturating_sub(15),
        }))?;
        let mut words = bytes_of(self.alloc, "MISMATCH: told ")?;
        push(&mut words, outcome_label(told))?;
        self.say(Tone::Operator, Look::Bold, (words_at, y), right, words)
    }

    pub(crate) fn draw_mismatches(&mut self, scene: &Scene, plan: &Plan) -> Result<(), AllocError> {
        for mismatch in &plan.history.mismatches {
            let Some(entry) = scene.entries.get(mismatch.step) else {
                continue;
            };
            let Some(rows) = plan.rows.steps.get(mismatch.step) else {
                continue;
            };
            let place = place_of(&plan.seats, entry.step.process);
            // A manager is told by its parent, which is at its left.
            self.draw_mismatch(place, rows.last, true, mismatch.told)?;
        }
        Ok(())
    }

    /// Words beside the end of a line, with a number where there is more than one.
    fn draw_left(
        &mut self,
        tone: Tone,
        words: &str,
        count: u64,
        at: (u64, u64),
    ) -> Result<(), AllocError> {
        if count == 0 {
            return Ok(());
        }
        let mut body = bytes_of(self.alloc, words)?;
        if count > 1 {
            push_word(&mut body, " ", count)?;
        }
        self.say(tone, Look::Bold, at, true, body)
    }

    /// What the run leaves of a process.
    pub(crate) fn draw_ending(&mut self, ending: &LastState, end: u32) -> Result<(), AllocError> {
        let x = self.frame.x_of(ending.place).saturating_add(16);
        let y = self.frame.y_of(end).saturating_sub(8);
        self.draw_left(Tone::Ask, "IN DOUBT", ending.doubts, (x, y))?;
        self.draw_left(
            Tone::Operator,
            "MISMATCH",
            ending.mismatches,
            (x, y.saturating_add(16)),
        )
    }

    /// The line of the event that was refused; its words are laid.
    fn draw_refused(
        &mut self,
        place: u32,
        event: &Event,
        row: u32,
        refusal: StepError,
    ) -> Result<Stroke, AllocError>
        ensures { IfOk result (λ stroke. stroke.title.items ≡ event_text event.now) }
    {
        let (x, y) = (self.frame.x_of(place), self.frame.y_of(row));
        let mut label = Vec::new(self.alloc);
        push_word(&mut label, "REFUSED ", u64::from(refusal.number()))?;
        let draft = Draft {
            tone: Tone::No,
            title: event_line(self.alloc, event)?,
            x: if place == 0 {
                self.frame.application()
            } else {
                x.saturating_sub(140)
            },
            y,
            to_x: x,
            to_y: y,
            number: Vec::new(self.alloc),
            label,
            tip: Tip::Cross,
            again: false,
            far: false,
        };
        let stroke = self.sheet.draw(self.alloc, draft)?;
        let words = bytes_of(self.alloc, refusal_words(refusal))?;
        self.say(
            Tone::No,
            Look::Bold,
            (x.saturating_add(12), y.saturating_sub(5)),
            true,
            words,
        )?;
        Ok(stroke)
    }
}

/// The process that an event asks; none where it is the root, or no process.
fn asked_process(messages: &[Envelope], event: &Event) -> Option<ProcessId> {
    match event {
        Event::Act(
            Act::Join(case, _)
            | Act::Work(case, _, _)
            | Act::Ask(case)
            | Act::Decide(case, _)
            | Act::Forget(case),
        ) => Some(case.process()),
        Event::Act(_) => None,
        Event::Deliver(number) => {
            let envelope = message_with(messages, *number)?;
            Some(envelope.to)
        }
        Event::Settle => None,
        Event::Restart(process, _) | Event::Trim(process) => Some(*process),
    }
}

/// Adds the line of the event that was refused, if one was.
#[tactic(auto, using(crate::proofs::Adding::none_refused))]
pub(crate) fn draw_refusal(
    drawing: &mut Drawing,
    lines: &mut Vec<Stroke>,
    scene: &Scene,
    plan: &Plan,
) -> Result<(), AllocError>
    ensures { OnOk result (titles_of lines.new.items
        ≡ titles_of lines.old.items ++ refused_lines (refused_in scene.now.events.now scene.now.refusal)) }
{
    let Some((refused, why)) = scene.refusal else {
        return Ok(());
    };
    let Some(event) = scene.events.get(refused) else {
        return Ok(());
    };
    let row = plan.rows.refused.unwrap_or(plan.rows.end);
    let place = match asked_process(&plan.messages, event) {
        None => 0,
        Some(process) => place_of(&plan.seats, process),
    };
    lines.push(drawing.draw_refused(place, event, row, why)?)?;
    Ok(())
}
