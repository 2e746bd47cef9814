//! The text of a shape.

ghost use Rattle.std.specs.Prelude.{◌≡◌, ◌++◌, ◌-◌, OnOk, if◌then◌else◌};
ghost use Rattle.picture_shapes.specs.Svg.{anchor_text, band_begin, band_words, bar_text, corner_text, dot_text, force_words, frame_text, ground_of, ground_text, joint_text, label_begin, label_text, note_text, life_text, look_word, patch_text, plate_words, record_title, ring_text, rule_text, shape_text, shapes_text, span_text, square_begin, square_text, squares_text, torn_text, trim_text, warning_text};

use crate::parts::{push_circle, push_place, push_size, push_title, push_tone, push_words};
use crate::shapes::{
    Bar, Dot, EventRule, Joint, Label, Look, Note, Patch, PictureLife, Plate, Ring, Shape, Spot,
    Square, Torn,
};
use crate::words::{push_pair, push_word};
use picture_layout::Band;
use std::alloc::AllocError;
use trace_lines::push;

/// The class of a look, after a tone's.
fn look_word(look: Look) -> &'static str
    ensures { result.now ≡ look_word look }
{
    match look {
        Look::Plain => "",
        Look::Bold => " b",
        Look::Lost => " lost",
    }
}

#[tactic(auto, unfolding(crate::specs::Svg::rule_text))]
fn push_rule(out: &mut Vec<u8>, rule: &EventRule) -> Result<(), AllocError>
    ensures { OnOk result (out.new.items ≡ out.old.items ++ rule_text rule.now) }
{
    push_word(out, "<path class=\"l rule\" d=\"M0 ", rule.y)?;
    push_word(out, "H", rule.width)?;
    push_word(out, "\"/><text class=\"dim b\" x=\"34\" y=\"", rule.words_y)?;
    push_word(out, "\" text-anchor=\"end\">", rule.event)?;
    push_word(
        out,
        "</text><text class=\"dim\" x=\"44\" y=\"",
        rule.words_y,
    )?;
    push(out, "\">")?;
    push_words(out, &rule.line)?;
    push(out, "</text>")
}

#[tactic(auto, unfolding(crate::specs::Svg::life_text))]
fn push_life(out: &mut Vec<u8>, life: &PictureLife) -> Result<(), AllocError>
    ensures { OnOk result (out.new.items ≡ out.old.items ++ life_text life.now) }
{
    push_pair(out, "<path class=\"l life\" d=\"M", life.x, life.y)?;
    push_word(out, "V", life.end)?;
    push(out, "\"/>")
}

#[tactic(auto, unfolding(crate::specs::Svg::joint_text))]
fn push_joint(out: &mut Vec<u8>, joint: &Joint) -> Result<(), AllocError>
    ensures { OnOk result (out.new.items ≡ out.old.items ++ joint_text joint.now) }
{
    push_pair(out, "<path class=\"l life\" d=\"M", joint.x, joint.y)?;
    push_word(out, "H", joint.to_x)?;
    push_word(out, "V", joint.to_y)?;
    push(out, "\"/>")
}

/// How round the corners of a box are.
fn push_corner(out: &mut Vec<u8>, is_round: bool) -> Result<(), AllocError>
    ensures { OnOk result (out.new.items ≡ out.old.items ++ corner_text is_round) }
{
    if is_round {
        push(out, "15")
    } else {
        push(out, "4")
    }
}

/// A box of a process, 30 high.
#[tactic(auto, unfolding(crate::specs::Svg::frame_text))]
fn push_frame(out: &mut Vec<u8>, plate: &Plate) -> Result<(), AllocError>
    ensures { OnOk result (out.new.items ≡ out.old.items ++ frame_text plate.now) }
{
    push_word(out, "<rect class=\"box ink\" x=\"", plate.x)?;
    push_word(out, "\" y=\"", plate.y)?;
    push_word(out, "\" width=\"", plate.width)?;
    push(out, "\" height=\"30\" rx=\"")?;
    push_corner(out, plate.is_round)?;
    push(out, "\"/>")
}

/// The words in it.
#[tactic(auto, unfolding(crate::specs::Svg::plate_words))]
fn push_plate_words(out: &mut Vec<u8>, plate: &Plate) -> Result<(), AllocError>
    ensures { OnOk result (out.new.items ≡ out.old.items ++ plate_words plate.now) }
{
    push_word(out, "<text class=\"b\" x=\"", plate.middle)?;
    push_word(out, "\" y=\"", plate.words_y)?;
    push(out, "\" text-anchor=\"middle\">")?;
    push_words(out, &plate.body)?;
    push(out, "</text>")
}

fn push_plate(out: &mut Vec<u8>, plate: &Plate) -> Result<(), AllocError>
    ensures { OnOk result (out.new.items ≡ out.old.items ++ (frame_text plate.now ++ plate_words plate.now)) }
{
    push_frame(out, plate)?;
    push_plate_words(out, plate)
}

/// How a stretch begins.
fn band_word(band: Band) -> &'static str
    ensures { result.now ≡ band_begin band }
{
    match band {
        Band::Doubt => "<g class=\"ask\">",
        Band::Operator => "<g class=\"op\">",
    }
}

/// What the cases of a stretch are.
fn band_words(band: Band) -> &'static str
    ensures { result.now ≡ band_words band }
{
    match band {
        Band::Doubt => " in doubt</title><rect class=\"doubt\"",
        Band::Operator => " decided by an operator</title><rect class=\"oper\"",
    }
}

#[tactic(auto, unfolding(crate::specs::Svg::patch_text))]
fn push_patch(out: &mut Vec<u8>, patch: &Patch) -> Result<(), AllocError>
    ensures { OnOk result (out.new.items ≡ out.old.items ++ patch_text patch.now) }
{
    push(out, band_word(patch.band))?;
    push_word(out, "<title>", u64::from(patch.process))?;
    push_word(out, ": ", patch.count)?;
    push(out, band_words(patch.band))?;
    push_place(out, patch.x, patch.y)?;
    push_size(out, patch.width, patch.height)?;
    push(out, " rx=\"3\"/></g>")
}

#[tactic(auto, unfolding(crate::specs::Svg::bar_text))]
fn push_bar(out: &mut Vec<u8>, bar: &Bar) -> Result<(), AllocError>
    ensures { OnOk result (out.new.items ≡ out.old.items ++ bar_text bar.now) }
{
    push(out, "<rect class=\"bar life\"")?;
    push_place(out, bar.x, bar.y)?;
    push_size(out, 8, bar.height)?;
    push(out, " rx=\"4\"/>")
}

#[tactic(auto, unfolding(crate::specs::Svg::ring_text))]
fn push_ring(out: &mut Vec<u8>, ring: &Ring) -> Result<(), AllocError>
    ensures { OnOk result (out.new.items ≡ out.old.items ++ ring_text ring.now) }
{
    push_tone(out, "<circle class=\"bar ", ring.tone)?;
    push(out, "\"")?;
    push_circle(out, ring.x, ring.y, 4)
}

#[tactic(auto, unfolding(crate::specs::Svg::dot_text))]
fn push_dot(out: &mut Vec<u8>, dot: &Dot) -> Result<(), AllocError>
    ensures { OnOk result (out.new.items ≡ out.old.items ++ dot_text dot.now) }
{
    push_tone(out, "<circle class=\"f ", dot.tone)?;
    push(out, "\"")?;
    push_circle(out, dot.x, dot.y, dot.radius)
}

/// What the title of a record says of it.
fn force_words(forced: bool, lost: bool) -> &'static str
    ensures { result.now ≡ force_words forced lost }
{
    match (forced, lost) {
        (true, false) => ", forced</title>",
        (true, true) => ", forced, lost</title>",
        (false, false) => ", not forced</title>",
        (false, true) => ", not forced, lost</title>",
    }
}

/// A mark filled, or hollow.
fn square_word(forced: bool) -> &'static str
    ensures { result.now ≡ square_begin forced }
{
    if forced {
        "<rect class=\"f\""
    } else {
        "<rect class=\"o\""
    }
}

#[tactic(auto, unfolding(crate::specs::Svg::record_title))]
fn push_record_title(out: &mut Vec<u8>, square: &Square) -> Result<(), AllocError>
    ensures { OnOk result (out.new.items ≡ out.old.items ++ record_title square.now) }
{
    push_tone(out, "<g class=\"", square.tone)?;
    push(out, "\"><title>")?;
    push_words(out, &square.name)?;
    push(out, force_words(square.forced, square.lost))
}

#[tactic(auto, unfolding(crate::specs::Svg::square_text))]
fn push_square(out: &mut Vec<u8>, square: &Square) -> Result<(), AllocError>
    ensures { OnOk result (out.new.items ≡ out.old.items ++ square_text square.now) }
{
    push_record_title(out, square)?;
    push(out, square_word(square.forced))?;
    push_place(out, square.x, square.y)?;
    push(out, " width=\"10\" height=\"10\"/></g>")
}

#[tactic(auto, unfolding(crate::specs::Svg::torn_text))]
fn push_torn(out: &mut Vec<u8>, torn: &Torn) -> Result<(), AllocError>
    ensures { OnOk result (out.new.items ≡ out.old.items ++ torn_text torn.now) }
{
    push(out, "<g>")?;
    push_title(out, &torn.title)?;
    push_pair(out, "<path class=\"bg\" d=\"M", torn.x, torn.y)?;
    push_pair(
        out,
        "h44v14h-44z\"/><path class=\"l no\" d=\"M",
        torn.edge,
        torn.y,
    )?;
    push(
        out,
        "l5 -4 10 8 10 -8 10 8 5 -4m0 14l-5 4 -10 -8 -10 8 -10 -8 -5 4\"/></g>",
    )
}

fn push_note(out: &mut Vec<u8>, note: &Note) -> Result<(), AllocError>
    ensures { OnOk result (out.new.items ≡ out.old.items ++ note_text note.now) }
{
    push(out, "<g>")?;
    push_title(out, &note.title)?;
    push(out, "<circle class=\"l dim\" pointer-events=\"all\"")?;
    push_circle(out, note.x, note.y, 8)?;
    push(out, "</g>")
}

#[tactic(auto, unfolding(crate::specs::Svg::trim_text))]
fn push_trim(out: &mut Vec<u8>, spot: &Spot) -> Result<(), AllocError>
    ensures { OnOk result (out.new.items ≡ out.old.items ++ trim_text spot.now) }
{
    push_pair(out, "<path class=\"l dim\" d=\"M", spot.x, spot.y)?;
    push(out, "h20m-20 6h20\"/>")
}

#[tactic(auto, unfolding(crate::specs::Svg::warning_text))]
fn push_warning(out: &mut Vec<u8>, spot: &Spot) -> Result<(), AllocError>
    ensures { OnOk result (out.new.items ≡ out.old.items ++ warning_text spot.now) }
{
    push_pair(
        out,
        "<path class=\"f op\" fill-rule=\"evenodd\" d=\"M",
        spot.x,
        spot.y,
    )?;
    push(out, "l10 18h-20zm-1 6h2v6h-2zm0 8h2v2h-2z\"/>")
}

/// Where the ground of a label begins.
fn ground_x(label: &Label) -> u64
    ensures { result ≡ (if label.now.right then label.now.x else label.now.x - label.now.size) }
{
    if label.right {
        label.x
    } else {
        label.x.saturating_sub(label.size)
    }
}

/// The ground that words lie on, so that a line which crosses them is cut.
fn push_ground_at(out: &mut Vec<u8>, x: u64, y: u64, size: u64) -> Result<(), AllocError>
    ensures { OnOk result (out.new.items ≡ out.old.items ++ ground_text x y size) }
{
    push(out, "<rect class=\"bg\"")?;
    push_place(out, x, y)?;
    push_size(out, size, 13)?;
    push(out, "/>")
}

fn push_ground(out: &mut Vec<u8>, label: &Label) -> Result<(), AllocError>
    ensures { OnOk result (out.new.items ≡ out.old.items ++ ground_of label.now) }
{
    push_ground_at(out, ground_x(label), label.y.saturating_sub(11), label.size)
}

/// Words of a class of their own within a label, if there are any.
#[tactic(auto, unfolding(crate::specs::Svg::span_text))]
fn push_span(out: &mut Vec<u8>, begin: &str, words: &Vec<u8>) -> Result<(), AllocError>
    ensures { OnOk result (out.new.items ≡ out.old.items ++ span_text begin.now words.now.items) }
{
    if words.is_empty() {
        return Ok(());
    }
    push(out, begin)?;
    push_words(out, words)?;
    push(out, "</tspan>")
}

/// Whether the words of a label begin or end at their place.
fn anchor_word(right: bool) -> &'static str
    ensures { result.now ≡ anchor_text right }
{
    if right { ">" } else { " text-anchor=\"end\">" }
}

#[tactic(auto, unfolding(crate::specs::Svg::label_begin))]
fn push_label_begin(out: &mut Vec<u8>, label: &Label) -> Result<(), AllocError>
    ensures { OnOk result (out.new.items ≡ out.old.items ++ label_begin label.now) }
{
    push_tone(out, "<text class=\"", label.tone)?;
    push(out, look_word(label.look))?;
    push(out, "\"")?;
    push_place(out, label.x, label.y)?;
    push(out, anchor_word(label.right))
}

#[tactic(auto, unfolding(crate::specs::Svg::label_text))]
fn push_label(out: &mut Vec<u8>, label: &Label) -> Result<(), AllocError>
    ensures { OnOk result (out.new.items ≡ out.old.items ++ label_text label.now) }
{
    push_ground(out, label)?;
    push_label_begin(out, label)?;
    push_span(out, "<tspan class=\"dim\">", &label.number)?;
    push_words(out, &label.body)?;
    push_span(out, "<tspan class=\"lost\">", &label.gone)?;
    push(out, "</text>")
}

/// A shape, without the end of its line.
#[tactic(auto, unfolding(crate::specs::Svg::shape_text))]
fn push_shape(out: &mut Vec<u8>, shape: &Shape) -> Result<(), AllocError>
    ensures { OnOk result (out.new.items ≡ out.old.items ++ shape_text shape.now) }
{
    match shape {
        Shape::Rule(rule) => push_rule(out, rule),
        Shape::Life(life) => push_life(out, life),
        Shape::Joint(joint) => push_joint(out, joint),
        Shape::Plate(plate) => push_plate(out, plate),
        Shape::Patch(patch) => push_patch(out, patch),
        Shape::Bar(bar) => push_bar(out, bar),
        Shape::Ring(ring) => push_ring(out, ring),
        Shape::Dot(dot) => push_dot(out, dot),
        Shape::Torn(torn) => push_torn(out, torn),
        Shape::Note(note) => push_note(out, note),
        Shape::Trim(spot) => push_trim(out, spot),
        Shape::Warning(spot) => push_warning(out, spot),
        Shape::Label(label) => push_label(out, label),
    }
}

/// Shapes, a line each.
pub fn push_shapes(out: &mut Vec<u8>, shapes: &[Shape]) -> Result<(), AllocError>
    ensures { OnOk result (out.new.items ≡ out.old.items ++ shapes_text shapes.now) }
{
    for shape in shapes {
        push_shape(out, shape)?;
        out.push(b'\n')?;
    }
    Ok(())
}

/// Marks of records, a line each.
pub fn push_squares(out: &mut Vec<u8>, squares: &[Square]) -> Result<(), AllocError>
    ensures { OnOk result (out.new.items ≡ out.old.items ++ squares_text squares.now) }
{
    for square in squares {
        push_square(out, square)?;
        out.push(b'\n')?;
    }
    Ok(())
}
