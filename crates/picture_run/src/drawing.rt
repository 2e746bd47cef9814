//! Draws the steps of a run: its messages, its records, and what was asked.

ghost use Rattle.std.specs.Prelude.{◌≡◌, ◌++◌, ◌∷◌, [], IfOk, OnOk, Some, if◌then◌else◌, length, map};
ghost use Rattle.picture_layout.specs.declared.drawn.Arrow.{Arrow as AnyArrow};
ghost use Rattle.picture_layout.specs.declared.drawn.RecordMark.{RecordMark as AnyMark};
ghost use Rattle.picture_layout.specs.declared.drawn.Stub.{Stub as AnyStub};
ghost use Rattle.picture_layout.specs.declared.seats.Column.{Column as AnySeat};
ghost use Rattle.picture_shapes.specs.declared.shapes.Stroke.{Stroke as AnyStroke};
ghost use Rattle.picture_shapes.specs.declared.shapes.Tip.TheVariants as tip;
ghost use Rattle.picture_words.specs.Labels.{label_in, number_text, title_in};
ghost use Rattle.picture_layout.specs.Fates.{leaving_in};
ghost use Rattle.picture_layout.specs.Ways.{spot_of};
ghost use Rattle.tree_script.specs.Spellings.{act_text};
ghost use Rattle.protocol.specs.Texts.{told_lines, told_text};
ghost use Rattle.picture_run.specs.Along.{DepartAll, Departs, RunAlong, RunsAlong};
ghost use Rattle.picture_run.specs.Captions.{caption_along, caption_of, said_of, says_of};
ghost use Rattle.picture_run.specs.Lines.{asked_lines, step_lines, steps_lines};
ghost use Rattle.picture_run.specs.Pictures.{opening_of, spot_key, square_key, titles_of};

use crate::plan::{Plan, Scene};
use crate::room::is_call;
use crate::sheet::{Draft, Sheet, ahead};
use picture_layout::{Arrow, Column, RecordMark, Rows, StepRows, Stretch, Stub, place_of};
use picture_shapes::{
    Bar, Dot, EventRule, Label, Look, Patch, PictureFrame, Shape, Spot, Square, Stroke, Tip, Tone,
    push_word, width_of,
};
use picture_words::{
    act_label, act_line, act_tone, event_line, message_label, message_title, message_tone,
    message_with, number_label, record_name, record_tone, shortened, told_label, told_title,
    told_tone,
};
use protocol::{
    Act, Envelope, Happening, Input, JournalEntry, RecordKind, ShownRecord, Subject, Told,
};
use std::alloc::{AllocError, Global};
use trace_lines::{push, push_number};

/// A sheet that is drawn on, and what its rows and places are.
#[derive(Drop)]
pub(crate) struct Drawing {
    pub(crate) alloc: Global,
    pub(crate) frame: PictureFrame,
    pub(crate) sheet: Sheet,
}

/// Bytes of these words.
pub(crate) fn bytes_of(alloc: Global, words: &str) -> Result<Vec<u8>, AllocError> {
    Vec::from_slice(alloc, words.as_bytes())
}

/// How the line of a message ends that is drawn where it was sent: in a cross, if it is never delivered.
fn stub_tip(crossed: bool) -> Tip
    ensures { result ≡ (if crossed then tip.Cross else tip.Ring) }
{
    if crossed { Tip::Cross } else { Tip::Ring }
}

/// How the name of a record looks.
fn look_of(forced: bool, lost: bool) -> Look {
    if lost {
        Look::Lost
    } else if forced {
        Look::Bold
    } else {
        Look::Plain
    }
}

impl Drawing {
    /// The words that were laid, which are taken off the sheet.
    pub(crate) fn take_words(&mut self) -> Vec<Shape>
        ensures words { result ≡ self.old.sheet.words }
        ensures none { self.new.sheet.words.items ≡ [] }
        ensures frame { self.new.frame ≡ self.old.frame }
    {
        self.sheet.take_words(self.alloc)
    }

    /// Words at a place, with nothing before or after them.
    pub(crate) fn say(
        &mut self,
        tone: Tone,
        look: Look,
        at: (u64, u64),
        right: bool,
        body: Vec<u8>,
    ) -> Result<(), AllocError>
        ensures { self.new.frame ≡ self.old.frame }
    {
        let size = width_of(body.len());
        self.sheet.write(Label {
            tone,
            look,
            x: at.0,
            y: at.1,
            right,
            number: Vec::new(self.alloc),
            body,
            gone: Vec::new(self.alloc),
            size,
        })
    }

    pub(crate) fn draw_rules(&mut self, scene: &Scene, rows: &Rows) -> Result<(), AllocError>
        ensures { self.new.frame ≡ self.old.frame }
    {
        for rule in &rows.rules {
            let Some(event) = scene.events.get(rule.event) else {
                continue;
            };
            let line = event_line(self.alloc, event)?;
            let y = self.frame.y_of(rule.row);
            self.sheet.back.push(Shape::Rule(EventRule {
                y: y.saturating_sub(17),
                width: self.frame.width(),
                words_y: y.saturating_add(4),
                event: (rule.event as u64).saturating_add(1),
                line: shortened(line, self.frame.room.events)?,
            }))?;
        }
        Ok(())
    }

    /// A row with the numbers of all processes.
    pub(crate) fn draw_ruler(&mut self, seats: &[Column], row: u32) -> Result<(), AllocError>
        ensures { self.new.frame ≡ self.old.frame }
    {
        let y = self.frame.y_of(row).saturating_add(4);
        for seat in seats {
            let mut number = Vec::new(self.alloc);
            push_number(&mut number, u64::from(seat.process.0))?;
            let x = self
                .frame
                .x_of(seat.place)
                .saturating_sub(width_of(number.len()) / 2);
            self.say(Tone::Dim, Look::Bold, (x, y), true, number)?;
        }
        Ok(())
    }

    /// The colour of the message with this number, and what stands along its line after the number, which has
    /// N characters; nothing, if there is no such message.
    fn tone_and_label(
        &self,
        messages: &[Envelope],
        number: u64,
        characters: usize,
    ) -> Result<(Tone, Vec<u8>), AllocError>
        requires { characters ≡ length (number_text number) }
        ensures { IfOk result (λ found. found.1.items ≡ label_in self.now.frame.room.messages
            messages.now number) }
    {
        let Some(envelope) = message_with(messages, number) else {
            return Ok((Tone::Dim, Vec::new(self.alloc)));
        };
        let room = self.frame.room.messages;
        let label = message_label(self.alloc, characters, &envelope.message, room)?;
        Ok((message_tone(&envelope.message), label))
    }

    /// The line of a message that was delivered; its words are laid.
    fn draw_arrow(&mut self, messages: &[Envelope], arrow: &Arrow) -> Result<Stroke, AllocError>
        ensures title { IfOk result (λ stroke. stroke.title.items ≡ title_in messages.now arrow.now.number) }
        ensures along { IfOk result (RunsAlong self.old.frame.grid arrow.now.way) }
        ensures words { OnOk result (map caption_of self.new.sheet.words.items
            ≡ map caption_of self.old.sheet.words.items
            ++ Some (caption_along self.old.frame.grid self.old.frame.room.messages messages.now arrow.now.way arrow.now.number)
            ∷ []) }
        ensures frame { self.new.frame ≡ self.old.frame }
    {
        let title = message_title(self.alloc, arrow.number, messages)?;
        let number = number_label(self.alloc, arrow.number)?;
        let (tone, label) = self.tone_and_label(messages, arrow.number, number.len())?;
        let draft = Draft {
            tone,
            title,
            x: self.frame.x_of(arrow.way.from),
            y: self.frame.y_of(arrow.way.left),
            to_x: self.frame.x_of(arrow.way.to),
            to_y: self.frame.y_of(arrow.way.row),
            label,
            number,
            tip: Tip::Head,
            again: arrow.again,
            far: arrow.way.far,
        };
        self.sheet.draw(self.alloc, draft)
    }

    /// The lines of all messages that were delivered.
    pub(crate) fn draw_arrows(
        &mut self,
        messages: &[Envelope],
        arrows: &[Arrow],
    ) -> Result<Vec<Stroke>, AllocError>
        ensures titles { IfOk result (λ strokes. map (λ (s : AnyStroke). s.title.items) strokes.items
            ≡ map (λ (a : AnyArrow). title_in messages.now a.number) arrows.now) }
        ensures along { IfOk result (λ strokes. RunAlong self.old.frame.grid
            (map (λ (a : AnyArrow). a.way) arrows.now) strokes.items) }
        ensures words { OnOk result (map caption_of self.new.sheet.words.items
            ≡ map caption_of self.old.sheet.words.items
            ++ map (λ (a : AnyArrow). Some (caption_along self.old.frame.grid self.old.frame.room.messages messages.now a.way
            a.number)) arrows.now) }
        ensures frame { self.new.frame ≡ self.old.frame }
    {
        let mut strokes = Vec::new(self.alloc);
        for arrow in arrows {
            strokes.push(self.draw_arrow(messages, arrow)?)?;
        }
        Ok(strokes)
    }

    /// The line of a message where it was sent; its words are laid.
    fn draw_stub(&mut self, messages: &[Envelope], stub: &Stub) -> Result<Stroke, AllocError>
        ensures title { IfOk result (λ stroke. stroke.title.items ≡ title_in messages.now stub.now.number) }
        ensures departs { IfOk result (Departs self.old.frame.grid (leaving_in stub.now)) }
        ensures words { OnOk result (map said_of self.new.sheet.words.items
            ≡ map said_of self.old.sheet.words.items
            ++ says_of self.old.frame.room.messages messages.now stub.now.number ∷ []) }
        ensures frame { self.new.frame ≡ self.old.frame }
    {
        let title = message_title(self.alloc, stub.number, messages)?;
        let number = number_label(self.alloc, stub.number)?;
        let (tone, label) = self.tone_and_label(messages, stub.number, number.len())?;
        let size = width_of(number.len().saturating_add(label.len())).saturating_add(48);
        let x = self.frame.x_of(stub.from);
        let draft = Draft {
            tone,
            title,
            x,
            y: self.frame.y_of(stub.left),
            to_x: ahead(x, size, stub.to > stub.from),
            to_y: self.frame.y_of(stub.row),
            label,
            number,
            tip: stub_tip(stub.crossed),
            again: false,
            far: false,
        };
        let stroke = self.sheet.draw(self.alloc, draft)?;
        Ok(stroke)
    }

    /// The lines of all messages that are drawn where they were sent.
    pub(crate) fn draw_stubs(
        &mut self,
        messages: &[Envelope],
        stubs: &[Stub],
    ) -> Result<Vec<Stroke>, AllocError>
        ensures titles { IfOk result (λ lines. titles_of lines.items
            ≡ map (λ (s : AnyStub). title_in messages.now s.number) stubs.now) }
        ensures depart { IfOk result (λ lines. DepartAll self.old.frame.grid
            (map leaving_in stubs.now) lines.items) }
        ensures words { OnOk result (map said_of self.new.sheet.words.items
            ≡ map said_of self.old.sheet.words.items
            ++ map (λ (s : AnyStub). says_of self.old.frame.room.messages messages.now s.number) stubs.now) }
    {
        let mut lines = Vec::new(self.alloc);
        for stub in stubs {
            lines.push(self.draw_stub(messages, stub)?)?;
        }
        Ok(lines)
    }

    /// The mark of a record, which a crash takes or not; its words are laid.
    fn draw_mark(&mut self, mark: &RecordMark, lost: bool) -> Result<Square, AllocError>
        ensures key { IfOk result (λ square. square_key square
            ≡ spot_key self.old.frame.grid (spot_of mark.now)) }
        ensures frame { self.new.frame ≡ self.old.frame }
    {
        let (x, y) = (self.frame.x_of(mark.place), self.frame.y_of(mark.row));
        let words = shortened(
            record_name(self.alloc, &mark.logged)?,
            self.frame.room.messages,
        )?;
        let forced = mark.logged.forced;
        let tone = record_tone(mark.logged.kind);
        let look = look_of(forced, lost);
        let words_x = if mark.right {
            x.saturating_add(12)
        } else {
            x.saturating_sub(12)
        };
        self.say(
            tone,
            look,
            (words_x, y.saturating_sub(5)),
            mark.right,
            words,
        )?;
        Ok(Square {
            tone,
            name: record_name(self.alloc, &mark.logged)?,
            x: x.saturating_sub(5),
            y: y.saturating_sub(5),
            forced,
            lost,
        })
    }

    /// The marks of all records; `lost` says of each whether a crash takes it.
    pub(crate) fn draw_marks(
        &mut self,
        marks: &[RecordMark],
        lost: &[bool],
    ) -> Result<Vec<Square>, AllocError>
        ensures keys { IfOk result (λ squares. map square_key squares.items
            ≡ map (λ (m : AnyMark). spot_key self.old.frame.grid (spot_of m)) marks.now) }
        ensures frame { self.new.frame ≡ self.old.frame }
    {
        let mut squares = Vec::new(self.alloc);
        for mark in marks {
            let is_lost = lost.get(squares.len()).copied().unwrap_or(false);
            squares.push(self.draw_mark(mark, is_lost)?)?;
        }
        Ok(squares)
    }

    /// The marks of the Opened with which each process began.
    pub(crate) fn draw_openings(&mut self, seats: &[Column]) -> Result<Vec<Square>, AllocError>
        ensures keys { IfOk result (λ squares. map square_key squares.items
            ≡ map (λ (s : AnySeat). spot_key self.old.frame.grid (opening_of s)) seats.now) }
        ensures frame { self.new.frame ≡ self.old.frame }
    {
        let mut squares = Vec::new(self.alloc);
        for seat in seats {
            let mark = RecordMark {
                place: seat.place,
                row: 0,
                logged: ShownRecord {
                    subject: Subject::Boot(1),
                    kind: RecordKind::Opened,
                    forced: true,
                },
                right: true,
            };
            squares.push(self.draw_mark(&mark, false)?)?;
        }
        Ok(squares)
    }

    pub(crate) fn draw_stretch(
        &mut self,
        seats: &[Column],
        stretch: &Stretch,
    ) -> Result<(), AllocError> {
        let process = match seats.get(stretch.place as usize) {
            None => 0,
            Some(seat) => seat.process.0,
        };
        let half = stretch.count.saturating_sub(1).min(3) * 3 + 8;
        let y = self.frame.y_of(stretch.first);
        let end = self.frame.y_of(stretch.end);
        let end = if stretch.stays {
            end.saturating_add(8)
        } else {
            end
        };
        self.sheet.bands.push(Shape::Patch(Patch {
            band: stretch.band,
            process,
            count: stretch.count,
            x: self.frame.x_of(stretch.place).saturating_sub(half),
            y,
            width: half * 2,
            height: end.saturating_sub(y),
        }))?;
        Ok(())
    }

    /// A bar after the marks of a step of several rows, and a dot where a step only sends.
    fn draw_step(
        &mut self,
        place: u32,
        entry: &JournalEntry,
        rows: StepRows,
    ) -> Result<(), AllocError> {
        let (x, first, last) = (
            self.frame.x_of(place),
            self.frame.y_of(rows.first),
            self.frame.y_of(rows.last),
        );
        let crashes = matches!(entry.step.happening, Happening::Restart(_));
        if last > first && !crashes {
            self.sheet.bars.push(Shape::Bar(Bar {
                x: x.saturating_sub(4),
                y: first.saturating_sub(4),
                height: last.saturating_sub(first).saturating_add(8),
            }))?;
        }
        let reaction = &entry.reaction;
        let writes = !reaction.written.as_slice().is_empty();
        if !reaction.messages.as_slice().is_empty() && !writes {
            self.sheet.marks.push(Shape::Dot(Dot {
                tone: Tone::Dim,
                x,
                y: last,
                radius: 4,
            }))?;
        }
        Ok(())
    }

    /// The line of what the root tells the application; its words are laid.
    fn draw_told(&mut self, place: u32, told: Told, row: u32) -> Result<Stroke, AllocError>
        ensures { IfOk result (λ stroke. stroke.title.items ≡ told_text told) }
    {
        let (x, y) = (self.frame.x_of(place), self.frame.y_of(row));
        let draft = Draft {
            tone: told_tone(told),
            title: told_title(self.alloc, told)?,
            x,
            y,
            to_x: self.frame.application(),
            to_y: y,
            number: Vec::new(self.alloc),
            label: told_label(self.alloc, told, self.frame.room.calls)?,
            tip: Tip::Head,
            again: false,
            far: false,
        };
        self.sheet.draw(self.alloc, draft)
    }

    /// The line of what an application or an operator asks; its words are laid.
    fn draw_act(
        &mut self,
        place: u32,
        act: &Act,
        entry: &JournalEntry,
        row: u32,
    ) -> Result<Stroke, AllocError>
        ensures { IfOk result (λ stroke. stroke.title.items ≡ act_text act.now) }
    {
        let tone = act_tone(act);
        let called = is_call(place, act);
        let room = if called {
            self.frame.room.calls
        } else {
            self.frame.room.messages.saturating_sub(2)
        };
        let label = act_label(self.alloc, act, entry.reaction.begun, room)?;
        let (to_x, y) = (self.frame.x_of(place), self.frame.y_of(row));
        let x = if called {
            self.frame.application()
        } else {
            to_x.saturating_sub(width_of(label.len()).saturating_add(40))
        };
        if tone == Tone::Operator {
            self.sheet.marks.push(Shape::Warning(Spot {
                x,
                y: y.saturating_sub(10),
            }))?;
        } else if !called {
            self.sheet.marks.push(Shape::Dot(Dot {
                tone,
                x,
                y,
                radius: 5,
            }))?;
        }
        let draft = Draft {
            tone,
            title: act_line(self.alloc, act)?,
            x,
            y,
            to_x,
            to_y: y,
            number: Vec::new(self.alloc),
            label,
            tip: Tip::Head,
            again: false,
            far: false,
        };
        self.sheet.draw(self.alloc, draft)
    }

    /// Adds the line of what a step was asked, if it was asked something, or what a trim left.
    fn draw_cause(
        &mut self,
        lines: &mut Vec<Stroke>,
        place: u32,
        entry: &JournalEntry,
        row: u32,
    ) -> Result<(), AllocError>
        ensures { OnOk result (titles_of lines.new.items
            ≡ titles_of lines.old.items ++ asked_lines entry.now.step.happening) }
    {
        match &entry.step.happening {
            Happening::Input(Input::Act(act)) => {
                lines.push(self.draw_act(place, act, entry, row)?)?;
                Ok(())
            }
            Happening::Trim => self.draw_trim(place, entry, row),
            _ => Ok(()),
        }
    }

    /// Adds the line of what a step told the application, if it told something.
    fn draw_word(
        &mut self,
        lines: &mut Vec<Stroke>,
        place: u32,
        told: Option<Told>,
        row: u32,
    ) -> Result<(), AllocError>
        ensures { OnOk result (titles_of lines.new.items ≡ titles_of lines.old.items ++ told_lines told) }
    {
        if let Some(told) = told {
            lines.push(self.draw_told(place, told, row)?)?;
        }
        Ok(())
    }

    fn draw_trim(&mut self, place: u32, entry: &JournalEntry, row: u32) -> Result<(), AllocError> {
        let (x, y) = (self.frame.x_of(place), self.frame.y_of(row));
        self.sheet.marks.push(Shape::Trim(Spot {
            x: x.saturating_sub(10),
            y: y.saturating_sub(3),
        }))?;
        let mut words = Vec::new(self.alloc);
        push_word(&mut words, "trim, ", entry.reaction.kept.unwrap_or(0))?;
        push(&mut words, " left")?;
        self.say(
            Tone::Dim,
            Look::Plain,
            (x.saturating_add(14), y.saturating_sub(5)),
            true,
            words,
        )
    }

    /// Adds the lines of a step.
    fn draw_entry(
        &mut self,
        lines: &mut Vec<Stroke>,
        plan: &Plan,
        entry: &JournalEntry,
        rows: StepRows,
    ) -> Result<(), AllocError>
        ensures { OnOk result (titles_of lines.new.items ≡ titles_of lines.old.items
            ++ step_lines entry.now) }
    {
        let place = place_of(&plan.seats, entry.step.process);
        self.draw_cause(lines, place, entry, rows.first)?;
        self.draw_step(place, entry, rows)?;
        self.draw_word(lines, place, entry.reaction.told, rows.last)
    }

    /// Adds the lines of all steps.
    #[tactic(auto, using(crate::proofs::Adding::no_steps, crate::proofs::Adding::steps_more))]
    pub(crate) fn draw_steps(
        &mut self,
        lines: &mut Vec<Stroke>,
        scene: &Scene,
        plan: &Plan,
    ) -> Result<(), AllocError>
        requires { length plan.now.rows.steps.items ≡ length scene.now.entries.now }
        ensures { OnOk result (titles_of lines.new.items
            ≡ titles_of lines.old.items ++ steps_lines scene.now.entries.now) }
    {
        let entries = scene.entries;
        let rows = plan.rows.steps.as_slice();
        for place in 0..entries.len() {
            self.draw_entry(lines, plan, &entries[place], rows[place])?;
        }
        Ok(())
    }
}
