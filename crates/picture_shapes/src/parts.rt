//! The text of what shapes have in common.

ghost use Rattle.std.specs.Prelude.{◌≡◌, ◌++◌, OnOk};
ghost use Rattle.picture_shapes.specs.Svg.{circle_text, place_text, size_text, title_text, tone_word};
ghost use Rattle.picture_shapes.specs.Words.{escaped};

use crate::shapes::Tone;
use crate::words::{push_escaped, push_word};
use std::alloc::AllocError;
use trace_lines::push;

/// The class of a tone.
fn tone_word(tone: Tone) -> &'static str
    ensures { result.now ≡ tone_word tone }
{
    match tone {
        Tone::Ink => "ink",
        Tone::Dim => "dim",
        Tone::Vote => "vote",
        Tone::Yes => "yes",
        Tone::No => "no",
        Tone::Ask => "ask",
        Tone::Operator => "op",
    }
}

/// A word, and a tone's class after it.
pub(crate) fn push_tone(out: &mut Vec<u8>, word: &str, tone: Tone) -> Result<(), AllocError>
    ensures { OnOk result (out.new.items ≡ out.old.items ++ (word.now ++ tone_word tone)) }
{
    push(out, word)?;
    push(out, tone_word(tone))
}

#[tactic(auto, unfolding(crate::specs::Svg::title_text))]
pub(crate) fn push_title(out: &mut Vec<u8>, title: &[u8]) -> Result<(), AllocError>
    ensures { OnOk result (out.new.items ≡ out.old.items ++ title_text title.now) }
{
    push(out, "<title>")?;
    push_escaped(out, title)?;
    push(out, "</title>")
}

#[tactic(auto, unfolding(crate::specs::Svg::place_text))]
pub(crate) fn push_place(out: &mut Vec<u8>, x: u64, y: u64) -> Result<(), AllocError>
    ensures { OnOk result (out.new.items ≡ out.old.items ++ place_text x y) }
{
    push_word(out, " x=\"", x)?;
    push_word(out, "\" y=\"", y)?;
    push(out, "\"")
}

#[tactic(auto, unfolding(crate::specs::Svg::size_text))]
pub(crate) fn push_size(out: &mut Vec<u8>, width: u64, height: u64) -> Result<(), AllocError>
    ensures { OnOk result (out.new.items ≡ out.old.items ++ size_text width height) }
{
    push_word(out, " width=\"", width)?;
    push_word(out, "\" height=\"", height)?;
    push(out, "\"")
}

#[tactic(auto, unfolding(crate::specs::Svg::circle_text))]
pub(crate) fn push_circle(out: &mut Vec<u8>, x: u64, y: u64, radius: u64) -> Result<(), AllocError>
    ensures { OnOk result (out.new.items ≡ out.old.items ++ circle_text x y radius) }
{
    push_word(out, " cx=\"", x)?;
    push_word(out, "\" cy=\"", y)?;
    push_word(out, "\" r=\"", radius)?;
    push(out, "\"/>")
}

/// Words between tags.
pub(crate) fn push_words(out: &mut Vec<u8>, words: &Vec<u8>) -> Result<(), AllocError>
    ensures { OnOk result (out.new.items ≡ out.old.items ++ escaped words.now.items) }
{
    push_escaped(out, words)
}
