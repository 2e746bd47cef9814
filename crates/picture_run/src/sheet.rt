//! A sheet on which shapes are laid, one layer over the other.

ghost use Rattle.std.specs.Prelude.{◌≡◌, ◌≤◌, ◌+◌, ◌-◌, ◌^◌, ◌++◌, ◌∷◌, [], Some, if◌then◌else◌, drop, false, min, nat_lt, IfOk, OnOk, length, map, take};
ghost use Rattle.picture_run.specs.Along.{IsDrawn, tip_of};
ghost use Rattle.picture_run.specs.Captions.{caption_by, caption_of};
ghost use Rattle.picture_shapes.specs.declared.shapes.Shape.TheVariants as shape;
ghost use Rattle.picture_run.specs.Layers.{below_shapes};
ghost use Rattle.picture_shapes.specs.Svg.{shapes_text};

use picture_shapes::{
    Label, Look, Path, ROW, Ring, Shape, Stroke, Tip, Tone, push_shapes, width_of,
};
use std::alloc::{AllocError, Global};

/// The layers of a picture, the lowest first.
#[derive(Drop)]
pub(crate) struct Sheet {
    pub(crate) back: Vec<Shape>,
    pub(crate) tree: Vec<Shape>,
    pub(crate) bands: Vec<Shape>,
    pub(crate) bars: Vec<Shape>,
    pub(crate) boxes: Vec<Shape>,
    pub(crate) marks: Vec<Shape>,
    pub(crate) words: Vec<Shape>,
}

/// What an arrow is to say, from where to where.
#[derive(Drop)]
pub(crate) struct Draft {
    pub(crate) tone: Tone,
    pub(crate) title: Vec<u8>,
    pub(crate) x: u64,
    pub(crate) y: u64,
    pub(crate) to_x: u64,
    pub(crate) to_y: u64,
    /// The message's number with its space, and the words after it.
    pub(crate) number: Vec<u8>,
    pub(crate) label: Vec<u8>,
    pub(crate) tip: Tip,
    pub(crate) again: bool,
    /// Only its end is drawn, from a ring on.
    pub(crate) far: bool,
}

/// So far ahead, in the direction of an arrow.
pub(crate) fn ahead(x: u64, by: u64, right: bool) -> u64
    ensures { result ≡ (if right then min (x + by) (2 ^ 64 - 1) else x - by) }
{
    if right {
        x.saturating_add(by)
    } else {
        x.saturating_sub(by)
    }
}

/// So far after.
fn behind(x: u64, by: u64, right: bool) -> u64
    ensures { result ≡ (if right then x - by else min (x + by) (2 ^ 64 - 1)) }
{
    ahead(x, by, !right)
}

/// The path of an arrow to the right or to the left whose level part, with its tip, is so long.
fn path_of(x: u64, y: u64, to_x: u64, to_y: u64, level: u64, right: bool) -> Path
    ensures begins { (result.x ≡ x) × (result.y ≡ y) }
    ensures lands { result.level ≡ to_y }
    ensures tip { result.tip ≡ tip_of to_x right }
{
    let way = x.abs_diff(to_x);
    let land = behind(to_x, level.min(way.saturating_sub(14)), right);
    let run = land.abs_diff(x);
    let fall = to_y.saturating_sub(y);
    let bend = (run / 2).min(18).min(run.saturating_mul(18) / fall.max(1));
    Path {
        x,
        y,
        turn_x: behind(land, bend, right),
        turn_y: to_y.saturating_sub(fall.saturating_mul(bend) / run.max(1)),
        corner: land,
        level: to_y,
        straight: ahead(land, bend, right),
        tip: behind(to_x, 9, right),
    }
}

impl Draft {
    /// Its path, where its words are so wide.
    fn path(&self, size: u64) -> Path
        ensures begins { self.now.far ≡ false → (result.x ≡ self.now.x) × (result.y ≡ self.now.y) }
        ensures lands { result.level ≡ self.now.to_y }
        ensures tip { result.tip ≡ tip_of self.now.to_x (nat_lt self.now.x self.now.to_x) }
    {
        let level = size.saturating_add(24);
        let right = self.to_x > self.x;
        let whole = path_of(self.x, self.y, self.to_x, self.to_y, level, right);
        if !self.far {
            return whole;
        }
        let x = behind(whole.corner, 14, right);
        let y = self.to_y.saturating_sub(ROW / 2);
        path_of(x, y, self.to_x, self.to_y, level, right)
    }
}

impl Sheet {
    pub(crate) fn new(alloc: Global) -> Sheet {
        Sheet {
            back: Vec::new(alloc),
            tree: Vec::new(alloc),
            bands: Vec::new(alloc),
            bars: Vec::new(alloc),
            boxes: Vec::new(alloc),
            marks: Vec::new(alloc),
            words: Vec::new(alloc),
        }
    }

    /// Lays words.
    pub(crate) fn write(&mut self, label: Label) -> Result<(), AllocError>
        ensures { OnOk result (self.new.words.items ≡ self.old.words.items ++ shape.Label label ∷ []) }
    {
        self.words.push(Shape::Label(label))?;
        Ok(())
    }

    /// Draws an arrow: its words above the level part of it, and its line, which is answered.
    pub(crate) fn draw(&mut self, alloc: Global, draft: Draft) -> Result<Stroke, AllocError>
        ensures title { IfOk result (λ stroke. stroke.title ≡ draft.title) }
        ensures drawn { IfOk result (IsDrawn draft) }
        ensures tip { IfOk result (λ stroke. stroke.tip ≡ draft.tip) }
        ensures words { OnOk result (map caption_of self.new.words.items
            ≡ map caption_of self.old.words.items ++ Some (caption_by draft) ∷ []) }
    {
        let right = draft.to_x > draft.x;
        let size = width_of(draft.number.len().saturating_add(draft.label.len()));
        let path = draft.path(size);
        if draft.far {
            self.marks.push(Shape::Ring(Ring {
                tone: draft.tone,
                x: path.x,
                y: path.y,
            }))?;
        }
        self.write(Label {
            tone: if draft.tone == Tone::Dim {
                Tone::Ink
            } else {
                draft.tone
            },
            look: Look::Plain,
            x: behind(path.tip, 10, right),
            y: draft.to_y.saturating_sub(5),
            right: !right,
            number: draft.number,
            body: draft.label,
            gone: Vec::new(alloc),
            size,
        })?;
        Ok(Stroke {
            tone: draft.tone,
            title: draft.title,
            again: draft.again,
            tip: draft.tip,
            right,
            path,
        })
    }

    /// The text of the layers below the arrows.
    pub(crate) fn push_below(&self, out: &mut Vec<u8>) -> Result<(), AllocError>
        ensures { OnOk result (out.new.items ≡ out.old.items ++ shapes_text (below_shapes self.now)) }
    {
        push_shapes(out, &self.back)?;
        push_shapes(out, &self.tree)?;
        push_shapes(out, &self.bands)?;
        push_shapes(out, &self.bars)
    }

    /// The text of the small marks, these rings among them: the first N marks are below the rings.
    pub(crate) fn push_marks(
        &self,
        out: &mut Vec<u8>,
        below: usize,
        rings: &[Shape],
    ) -> Result<(), AllocError>
        requires { below ≤ length self.now.marks.items }
        ensures { OnOk result (out.new.items ≡ out.old.items
            ++ shapes_text (take below self.now.marks.items ++ rings.now ++ drop below self.now.marks.items)) }
    {
        push_shapes(out, &self.marks[..below])?;
        push_shapes(out, rings)?;
        push_shapes(out, &self.marks[below..])
    }

    /// The words that were laid, which are taken off the sheet.
    pub(crate) fn take_words(&mut self, alloc: Global) -> Vec<Shape>
        ensures words { result ≡ self.old.words }
        ensures none { self.new.words.items ≡ [] }
        ensures others { self.new.marks ≡ self.old.marks }
    {
        std::mem::replace(&mut self.words, Vec::new(alloc))
    }
}
