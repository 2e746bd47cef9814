//! A whole picture.

ghost use Rattle.std.specs.Prelude.{◌≡◌, ◌++◌, ◌^◌, ◌<◌, ◌≤◌, ◌+◌, IfErr, IfOk, OnOk, codes, count_by, drop, length, map, take};
ghost use Rattle.picture_layout.specs.declared.drawn.Stub.{Stub as AnyStub};
ghost use Rattle.picture_layout.specs.Long.{IsLong};
ghost use Rattle.picture_shapes.specs.Grids.{row_at};
ghost use Rattle.picture_shapes.specs.Head.{head_text};
ghost use Rattle.picture_shapes.specs.Svg.{shapes_text, squares_text, strokes_text};
ghost use Rattle.picture_run.specs.Layers.{all_words, below_shapes};
ghost use Rattle.picture_run.specs.Lines.{refused_in, refused_lines, steps_lines};
ghost use Rattle.picture_run.specs.Pictures.{IsPicture, titles_of};
ghost use Rattle.picture_run.specs.Rings.{HasRings};
ghost use Rattle.picture_run.specs.Sums.{crashes_in, is_restart, summary_by};

use crate::drawing::Drawing;
use crate::endings::draw_refusal;
use crate::legend::signs_of;
use crate::plan::{Plan, Scene, plan_of};
use crate::rings::rings_of;
use crate::room::room_of;
use crate::sheet::Sheet;
use crate::tree::draw_tree;
use picture_layout::{Column, PictureError, Stub, place_of};
use picture_shapes::{
    PictureFrame, PictureRoom, Shape, Signs, Square, Stroke, Summary, keys_of, push_head,
    push_shapes, push_squares, push_strokes,
};
use protocol::{Happening, JournalEntry};
use std::alloc::{AllocError, Global};
use trace_lines::push;

/// Draws the lines of the events, and the numbers of the processes beside them.
fn draw_rulers(drawing: &mut Drawing, scene: &Scene, plan: &Plan) -> Result<(), AllocError>
    ensures { drawing.new.frame ≡ drawing.old.frame }
{
    drawing.draw_rules(scene, &plan.rows)?;
    for row in &plan.rows.rulers {
        drawing.draw_ruler(&plan.seats, *row)?;
    }
    Ok(())
}

/// Draws what each step was asked and told, the crashes and mismatches, what the run leaves, and the event
/// that was refused: the lines of these, and how many small marks are below the rings.
fn draw_run(
    drawing: &mut Drawing,
    scene: &Scene,
    plan: &Plan,
) -> Result<(Vec<Stroke>, usize), AllocError>
    requires { length plan.now.rows.steps.items ≡ length scene.now.entries.now }
    ensures { IfOk result (λ drawn. titles_of drawn.0.items
        ≡ steps_lines scene.now.entries.now
        ++ refused_lines (refused_in scene.now.events.now scene.now.refusal)) }
{
    let mut lines = Vec::new(drawing.alloc);
    for stretch in &plan.stretches {
        drawing.draw_stretch(&plan.seats, stretch)?;
    }
    drawing.draw_steps(&mut lines, scene, plan)?;
    let below = drawing.sheet.marks.len();
    drawing.draw_crashes(scene, plan)?;
    drawing.draw_mismatches(scene, plan)?;
    draw_refusal(drawing, &mut lines, scene, plan)?;
    for ending in &plan.history.endings {
        drawing.draw_ending(ending, plan.rows.end)?;
    }
    Ok((lines, below))
}

/// How many levels a tree has.
fn count_levels(seats: &[Column]) -> u32 {
    let mut levels: u32 = 0;
    for seat in seats {
        levels = levels.max(seat.level.saturating_add(1));
    }
    levels
}

/// How many messages are never delivered.
fn open_of(stubs: &[Stub]) -> u64
    ensures { result ≡ count_by (λ (s : AnyStub). s.crossed) stubs.now }
{
    stubs.iter().filter(|stub| stub.crossed).count() as u64
}

fn is_restart(entry: &JournalEntry) -> bool
    ensures { result ≡ is_restart entry.now.step.happening }
{
    matches!(entry.step.happening, Happening::Restart(_))
}

/// How many crashes there are.
fn crashes_of(entries: &[JournalEntry]) -> u64
    ensures { result ≡ crashes_in entries.now }
{
    let mut crashes: u64 = 0;
    for entry in entries {
        if is_restart(entry) {
            crashes = crashes.saturating_add(1);
        }
    }
    crashes
}

/// The numbers of a run for its head.
fn summary_of(scene: &Scene, plan: &Plan) -> Summary
    ensures { result ≡ summary_by (length scene.now.events.now) plan.now scene.now.entries.now }
{
    Summary {
        events: scene.events.len() as u64,
        processes: plan.seats.len() as u64,
        messages: plan.messages.len() as u64,
        open: open_of(&plan.stubs),
        crashes: crashes_of(scene.entries),
    }
}

/// How high a picture is.
fn height_of(frame: PictureFrame, end: u32) -> u64
    ensures { result ≡ row_at frame.grid end + 30 }
{
    frame.y_of(end).saturating_add(30)
}

/// The rows of the crashes of a process.
fn crash_rows(alloc: Global, scene: &Scene, plan: &Plan) -> Result<Vec<(u32, u32)>, AllocError> {
    let mut found = Vec::new(alloc);
    for crash in &plan.history.crashes {
        let Some(entry) = scene.entries.get(crash.step) else {
            continue;
        };
        if let Some(rows) = plan.rows.steps.get(crash.step) {
            found.push((place_of(&plan.seats, entry.step.process), rows.first))?;
        }
    }
    Ok(found)
}

/// Draws the tree of a run, its lines down to the end.
fn draw_lines(drawing: &mut Drawing, scene: &Scene, plan: &Plan) -> Result<(), AllocError> {
    let frame = drawing.frame;
    let crashes = crash_rows(drawing.alloc, scene, plan)?;
    draw_tree(
        drawing.alloc,
        &mut drawing.sheet,
        frame,
        &plan.seats,
        &crashes,
        frame.y_of(plan.rows.end),
    )
}

/// What is before the shapes of a picture.
fn head_of(
    alloc: Global,
    frame: PictureFrame,
    scene: &Scene,
    plan: &Plan,
    signs: &Signs,
) -> Result<Vec<u8>, AllocError>
    ensures { IfOk result (λ head. head.items ≡ head_text frame (row_at frame.grid plan.now.rows.end + 30)
        (summary_by (length scene.now.events.now) plan.now scene.now.entries.now) signs.now) }
{
    let height = height_of(frame, plan.rows.end);
    let mut out = Vec::new(alloc);
    push_head(&mut out, frame, height, &summary_of(scene, plan), signs)?;
    Ok(out)
}

/// The words of a picture that are taken off its sheet, in their order.
#[derive(Drop)]
struct Words {
    /// Those of each process's Opened.
    openings: Vec<Shape>,
    arrows: Vec<Shape>,
    /// Those of the other records, and the numbers of processes.
    records: Vec<Shape>,
    stubs: Vec<Shape>,
}

impl Words {
    /// The text of these words, and of the others, which lie above all.
    fn push_before(&self, out: &mut Vec<u8>, last: &[Shape]) -> Result<(), AllocError>
        ensures { OnOk result (out.new.items ≡ out.old.items ++ shapes_text (all_words self.now last.now)) }
    {
        push_shapes(out, &self.openings)?;
        push_shapes(out, &self.arrows)?;
        push_shapes(out, &self.records)?;
        push_shapes(out, &self.stubs)?;
        push_shapes(out, last)
    }
}

/// The arrows of a picture, and the marks of its records.
#[derive(Drop)]
struct Drawn {
    /// The deliveries.
    arrows: Vec<Stroke>,
    /// Messages where they were sent.
    stubs: Vec<Stroke>,
    /// What was asked and told, and the event that was refused.
    lines: Vec<Stroke>,
    openings: Vec<Square>,
    records: Vec<Square>,
    /// How many small marks are below the rings.
    below: usize,
    rings: Vec<Shape>,
    words: Words,
}

/// The text of a picture of these parts.
fn text_of(head: Vec<u8>, sheet: &Sheet, drawn: &Drawn) -> Result<Vec<u8>, AllocError>
    requires { drawn.now.below ≤ length sheet.now.marks.items }
    ensures { IfOk result (λ text. text.items ≡ (((((((((head.items ++ shapes_text (below_shapes sheet.now))
        ++ strokes_text drawn.now.arrows.items) ++ strokes_text drawn.now.stubs.items)
        ++ strokes_text drawn.now.lines.items) ++ shapes_text sheet.now.boxes.items) ++ squares_text drawn.now.openings.items)
        ++ shapes_text (take drawn.now.below sheet.now.marks.items ++ drawn.now.rings.items
        ++ drop drawn.now.below sheet.now.marks.items)) ++ squares_text drawn.now.records.items)
        ++ shapes_text (all_words drawn.now.words sheet.now.words.items)) ++ codes "</svg>\n") }
{
    let mut out = head;
    sheet.push_below(&mut out)?;
    push_strokes(&mut out, &drawn.arrows)?;
    push_strokes(&mut out, &drawn.stubs)?;
    push_strokes(&mut out, &drawn.lines)?;
    push_shapes(&mut out, &sheet.boxes)?;
    push_squares(&mut out, &drawn.openings)?;
    sheet.push_marks(&mut out, drawn.below, &drawn.rings)?;
    push_squares(&mut out, &drawn.records)?;
    drawn.words.push_before(&mut out, &sheet.words)?;
    push(&mut out, "</svg>\n")?;
    Ok(out)
}

/// A sheet for a plan, with so much room, and N entries in its legend. TooLong: it has 2^32 processes.
fn drawing_of(
    alloc: Global,
    plan: &Plan,
    room: PictureRoom,
    keys: u64,
) -> Result<Drawing, PictureError>
    ensures apart { IfOk result (λ drawing. 0 < drawing.frame.grid.gap) }
    ensures wide { IfOk result (λ drawing. drawing.frame.processes ≡ length plan.now.seats.items) }
    ensures keys { IfOk result (λ drawing. drawing.frame.keys ≡ keys) }
    ensures err { IfErr result (λ _. 2 ^ 32 ≤ length plan.now.seats.items) }
{
    let Ok(processes) = u32::try_from(plan.seats.len()) else {
        return Err(PictureError::TooLong);
    };
    Ok(Drawing {
        alloc,
        frame: PictureFrame::new(processes, count_levels(&plan.seats), room, keys),
        sheet: Sheet::new(alloc),
    })
}

/// The picture of a run, as one SVG file: time goes downward; each process is a line, each delivery an arrow
/// and each record a mark. TooLong: it has 2^32 rows or more, or its tree 2^32 processes.
pub fn picture(alloc: Global, scene: &Scene) -> Result<Vec<u8>, PictureError>
    ensures text { IfOk result (λ text. IsPicture scene.now.tree.now (length scene.now.events.now)
        scene.now.entries.now
        (refused_in scene.now.events.now scene.now.refusal) text.items) }
    ensures rings { IfOk result (λ text. HasRings scene.now.notes.now text.items) }
    ensures err { IfErr result (λ e. e ≡ PictureError.TooLong
        → IsLong scene.now.tree.now (length scene.now.turns.now) scene.now.entries.now) }
{
    let plan = plan_of(alloc, scene)?;
    let room = room_of(alloc, scene, &plan)?;
    let signs = signs_of(scene, &plan);
    let mut drawing = drawing_of(alloc, &plan, room, keys_of(&signs))?;
    let frame = drawing.frame;
    let openings = drawing.draw_openings(&plan.seats)?;
    let opening_words = drawing.take_words();
    let arrows = drawing.draw_arrows(&plan.messages, &plan.arrows)?;
    let arrow_words = drawing.take_words();
    let records = drawing.draw_marks(&plan.marks, &plan.history.lost)?;
    draw_rulers(&mut drawing, scene, &plan)?;
    let record_words = drawing.take_words();
    let stubs = drawing.draw_stubs(&plan.messages, &plan.stubs)?;
    let stub_words = drawing.take_words();
    let (lines, below) = draw_run(&mut drawing, scene, &plan)?;
    draw_lines(&mut drawing, scene, &plan)?;
    let rings = rings_of(alloc, frame, scene, &plan)?;
    let head = head_of(alloc, frame, scene, &plan, &signs)?;
    let drawn = Drawn {
        arrows,
        stubs,
        lines,
        openings,
        records,
        below: below.min(drawing.sheet.marks.len()),
        rings,
        words: Words {
            openings: opening_words,
            arrows: arrow_words,
            records: record_words,
            stubs: stub_words,
        },
    };
    let text = text_of(head, &drawing.sheet, &drawn)?;
    Ok(text)
}
