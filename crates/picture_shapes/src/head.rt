//! What stands before the shapes of a picture: its size, its title, its style and its legend.

ghost use Rattle.std.specs.Prelude.{◌≡◌, ◌++◌, OnOk, length, map};
ghost use Rattle.picture_shapes.specs.Head.{ground_text, head_text, key_of, key_text, keys_among, keys_of, keys_text, legend_text, size_text, summary_text, title_words};

use crate::fixed::{Key, LEGEND, STYLE};
use crate::frame::PictureFrame;
use crate::signs::Signs;
use crate::words::{push_pair, push_word};
use std::alloc::AllocError;
use trace_lines::push;

/// What a picture says of its run.
#[derive(Clone, Copy)]
pub struct Summary {
    pub events: u64,
    pub processes: u64,
    pub messages: u64,
    /// Messages that are never delivered.
    pub open: u64,
    pub crashes: u64,
}

/// Of how many events and processes it is.
#[tactic(auto, unfolding(crate::specs::Head::title_words))]
fn push_title(out: &mut Vec<u8>, summary: &Summary) -> Result<(), AllocError>
    ensures { OnOk result (out.new.items ≡ out.old.items ++ title_words summary.now) }
{
    push_word(out, "A run of ", summary.events)?;
    push_word(out, " events on ", summary.processes)?;
    push(out, " processes")
}

#[tactic(auto, unfolding(crate::specs::Head::size_text))]
fn push_size(out: &mut Vec<u8>, width: u64, height: u64) -> Result<(), AllocError>
    ensures { OnOk result (out.new.items ≡ out.old.items ++ size_text width height) }
{
    push_word(
        out,
        "<svg xmlns=\"http://www.w3.org/2000/svg\" width=\"",
        width,
    )?;
    push_word(out, "\" height=\"", height)?;
    push_pair(out, "\" viewBox=\"0 0 ", width, height)?;
    push(
        out,
        "\" class=\"ink\" role=\"graphics-document\" aria-labelledby=\"title desc\">\n",
    )
}

#[tactic(auto, unfolding(crate::specs::Head::summary_text))]
fn push_summary(out: &mut Vec<u8>, summary: &Summary) -> Result<(), AllocError>
    ensures { OnOk result (out.new.items ≡ out.old.items ++ summary_text summary.now) }
{
    push(out, "<title id=\"title\">")?;
    push_title(out, summary)?;
    push_word(
        out,
        "</title>\n<desc id=\"desc\">Time runs downward. Each process is a line, each message an arrow. ",
        summary.messages,
    )?;
    push_word(out, " messages, ", summary.open)?;
    push_word(out, " of them never delivered; ", summary.crashes)?;
    push(out, " crashes.</desc>\n")
}

/// The ground of all of it, with the title on it.
#[tactic(auto, unfolding(crate::specs::Head::ground_text))]
fn push_ground(
    out: &mut Vec<u8>,
    width: u64,
    height: u64,
    summary: &Summary,
) -> Result<(), AllocError>
    ensures { OnOk result (out.new.items ≡ out.old.items ++ ground_text width height summary.now) }
{
    push_word(out, "<rect class=\"bg\" width=\"", width)?;
    push_word(out, "\" height=\"", height)?;
    push(out, "\"/><text x=\"20\" y=\"36\" class=\"big b\">")?;
    push_title(out, summary)?;
    push(out, "</text>\n")
}

/// An entry of the legend, with this number.
#[tactic(auto, unfolding(crate::specs::Head::key_text))]
fn push_key(
    out: &mut Vec<u8>,
    frame: PictureFrame,
    entry: u32,
    drawn: &str,
    meaning: &str,
) -> Result<(), AllocError>
    ensures { OnOk result (out.new.items ≡ out.old.items ++ key_text frame entry drawn.now meaning.now) }
{
    let (x, y) = frame.key_at(entry);
    push_pair(out, "<g transform=\"translate(", x, y)?;
    push(out, ")\">")?;
    push(out, drawn)?;
    push(out, "<text x=\"50\" y=\"4\" class=\"dim\">")?;
    push(out, meaning)?;
    push(out, "</text></g>\n")
}

/// How many of these entries explain these signs.
fn count_keys(signs: &Signs, keys: &[Key; 20]) -> u64
    ensures { result ≡ length (keys_among signs.now (map key_of keys.now)) }
{
    let mut count: u64 = 0;
    for (sign, _, _) in keys {
        if signs.has(*sign) {
            count = count.saturating_add(1);
        }
    }
    count
}

/// How many entries a legend has that explains these signs.
pub fn keys_of(signs: &Signs) -> u64
    ensures { result ≡ length (keys_of signs.now) }
{
    count_keys(signs, &LEGEND)
}

/// Those of these entries that explain these signs.
fn push_keys(
    out: &mut Vec<u8>,
    frame: PictureFrame,
    signs: &Signs,
    keys: &[Key; 20],
) -> Result<(), AllocError>
    ensures { OnOk result (out.new.items
        ≡ out.old.items ++ keys_text frame 0 (keys_among signs.now (map key_of keys.now))) }
{
    let mut entry: u32 = 0;
    for (sign, drawn, meaning) in keys {
        if signs.has(*sign) {
            push_key(out, frame, entry, drawn, meaning)?;
            entry = entry.saturating_add(1);
        }
    }
    Ok(())
}

/// The legend: of each sign that the picture has, what it means.
fn push_legend(out: &mut Vec<u8>, frame: PictureFrame, signs: &Signs) -> Result<(), AllocError>
    ensures { OnOk result (out.new.items ≡ out.old.items ++ legend_text frame signs.now) }
{
    push_keys(out, frame, signs, &LEGEND)
}

/// All that stands before the shapes.
#[tactic(auto, unfolding(crate::specs::Head::head_text))]
pub fn push_head(
    out: &mut Vec<u8>,
    frame: PictureFrame,
    height: u64,
    summary: &Summary,
    signs: &Signs,
) -> Result<(), AllocError>
    ensures { OnOk result (out.new.items ≡ out.old.items ++ head_text frame height summary.now signs.now) }
{
    push_size(out, frame.width(), height)?;
    push_summary(out, summary)?;
    push(out, STYLE)?;
    push_ground(out, frame.width(), height, summary)?;
    push_legend(out, frame, signs)
}
