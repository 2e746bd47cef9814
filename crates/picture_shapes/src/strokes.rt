//! The text of arrows.

ghost use Rattle.std.specs.Prelude.{◌≡◌, ◌++◌, ◌-◌, OnOk};
ghost use Rattle.picture_shapes.specs.Svg.{
  cross_text,
  head_end,
  head_text,
  open_text,
  path_begin,
  path_text,
  stroke_text,
  strokes_text,
  tip_text,
};

use crate::parts::{push_circle, push_title, push_tone};
use crate::shapes::{Path, Stroke, Tip};
use crate::words::{push_pair, push_word};
use std::alloc::AllocError;
use trace_lines::push;

/// How the line of an arrow begins.
fn path_word(again: bool) -> &'static str
    ensures { result.now ≡ path_begin again }
{
    if again {
        "<path class=\"l again\" d=\""
    } else {
        "<path class=\"l\" d=\""
    }
}

#[tactic(auto, unfolding(crate::specs::Svg::path_text))]
fn push_path(out: &mut Vec<u8>, again: bool, path: &Path) -> Result<(), AllocError>
    ensures { OnOk result (out.new.items ≡ out.old.items ++ path_text again path.now) }
{
    push(out, path_word(again))?;
    push_pair(out, "M", path.x, path.y)?;
    push_pair(out, "L", path.turn_x, path.turn_y)?;
    push_pair(out, "Q", path.corner, path.level)?;
    push_pair(out, " ", path.straight, path.level)?;
    push_word(out, "H", path.tip)?;
    push(out, "\"/>")
}

/// A head that points to the right, or to the left.
fn head_word(right: bool) -> &'static str
    ensures { result.now ≡ head_end right }
{
    if right {
        "l-10 -5v10z\"/>"
    } else {
        "l10 -5v10z\"/>"
    }
}

#[tactic(auto, unfolding(crate::specs::Svg::head_text))]
fn push_head(out: &mut Vec<u8>, right: bool, x: u64, y: u64) -> Result<(), AllocError>
    ensures { OnOk result (out.new.items ≡ out.old.items ++ head_text right x y) }
{
    push_pair(out, "<path class=\"f\" d=\"M", x, y)?;
    push(out, head_word(right))
}

#[tactic(auto, unfolding(crate::specs::Svg::open_text))]
fn push_open(out: &mut Vec<u8>, x: u64, y: u64) -> Result<(), AllocError>
    ensures { OnOk result (out.new.items ≡ out.old.items ++ open_text x y) }
{
    push(out, "<circle class=\"bar\"")?;
    push_circle(out, x, y, 4)
}

#[tactic(auto, unfolding(crate::specs::Svg::cross_text))]
fn push_cross(out: &mut Vec<u8>, left: u64, top: u64) -> Result<(), AllocError>
    ensures { OnOk result (out.new.items ≡ out.old.items ++ cross_text left top) }
{
    push_pair(out, "<path class=\"l\" d=\"M", left, top)?;
    push(out, "l10 10m0 -10l-10 10\"/>")
}

/// The tip of an arrow, which comes from the left or from the right.
fn push_tip(out: &mut Vec<u8>, tip: Tip, right: bool, x: u64, y: u64) -> Result<(), AllocError>
    ensures { OnOk result (out.new.items ≡ out.old.items ++ tip_text tip right x y) }
{
    match tip {
        Tip::Head => push_head(out, right, x, y),
        Tip::Ring => push_open(out, x, y),
        Tip::Cross => push_cross(out, x.saturating_sub(5), y.saturating_sub(5)),
    }
}

#[tactic(auto, unfolding(crate::specs::Svg::stroke_text))]
fn push_stroke(out: &mut Vec<u8>, stroke: &Stroke) -> Result<(), AllocError>
    ensures { OnOk result (out.new.items ≡ out.old.items ++ stroke_text stroke.now) }
{
    push_tone(out, "<g class=\"", stroke.tone)?;
    push(out, "\">")?;
    push_title(out, &stroke.title)?;
    push_path(out, stroke.again, &stroke.path)?;
    push_tip(
        out,
        stroke.tip,
        stroke.right,
        stroke.path.tip,
        stroke.path.level,
    )?;
    push(out, "</g>")
}

/// Arrows, a line each.
pub fn push_strokes(out: &mut Vec<u8>, strokes: &[Stroke]) -> Result<(), AllocError>
    ensures { OnOk result (out.new.items ≡ out.old.items ++ strokes_text strokes.now) }
{
    for stroke in strokes {
        push_stroke(out, stroke)?;
        out.push(b'\n')?;
    }
    Ok(())
}
