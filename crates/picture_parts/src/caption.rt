//! What is above the picture of a part: which part it is, and how its events and messages are numbered in the
//! run.

ghost use Rattle.std.specs.Prelude.{◌≡◌, ◌++◌, IfOk, codes};
ghost use Rattle.picture_parts.specs.Captions.{Surrounds};

use crate::part::Range;
use picture_shapes::{push_pair, push_word};
use protocol::{Presumption, Txn};
use std::alloc::{AllocError, Global};
use std::str;
use trace_lines::{push, push_number};

/// The height of a caption.
const HEIGHT: u64 = 30;

/// What the caption of the picture of some events says: of how many of the run they are, and what number its
/// first message has in the run, if it has one.
pub(crate) fn caption_of_events(
    alloc: Global,
    range: &Range,
    events: usize,
    sent: &[bool],
) -> Result<Vec<u8>, AllocError> {
    let mut out = Vec::new(alloc);
    push_word(&mut out, "Events ", range.first as u64)?;
    push_word(&mut out, " to ", range.last as u64)?;
    push_word(&mut out, " of ", events as u64)?;
    push(&mut out, ". Here event 1 is event ")?;
    push_number(&mut out, range.first as u64)?;
    let before = sent.iter().take_while(|drawn| !**drawn).count();
    if before < sent.len() {
        push_word(
            &mut out,
            ", message 1 is message ",
            (before as u64).saturating_add(1),
        )?;
    }
    push(&mut out, ".")?;
    Ok(out)
}

/// Adds the numbers of the messages that are drawn.
fn push_numbers(out: &mut Vec<u8>, sent: &[bool]) -> Result<(), AllocError> {
    let mut number: u64 = 0;
    for drawn in sent {
        number = number.saturating_add(1);
        if *drawn {
            push_word(out, " ", number)?;
        }
    }
    Ok(())
}

/// What the caption of the picture of a transaction says; which events and messages of the run they are is
/// told by a tooltip.
pub(crate) fn caption_of_case(
    alloc: Global,
    txn: &Txn,
    events: usize,
    places: &[usize],
    sent: &[bool],
) -> Result<Vec<u8>, AllocError> {
    let mut out = Vec::new(alloc);
    push(&mut out, "<title>Events of the run:")?;
    for place in places {
        push_word(&mut out, " ", (*place as u64).saturating_add(1))?;
    }
    push(&mut out, ". Messages of the run:")?;
    push_numbers(&mut out, sent)?;
    push(&mut out, ".</title>Transaction ")?;
    push(
        &mut out,
        match txn.presumption {
            Presumption::PresumeAbort => "a",
            Presumption::PresumeCommit => "c",
        },
    )?;
    push_number(&mut out, txn.boot)?;
    push_word(&mut out, ".", txn.sequence)?;
    push_word(&mut out, " of a run of ", events as u64)?;
    push(
        &mut out,
        " events. Events and messages are numbered from 1 here.",
    )?;
    Ok(out)
}

/// The width and the height of a picture, which are the first numbers that it names.
fn size_of(text: &[u8]) -> Option<(u64, u64)> {
    let head = str::from_utf8(text).ok()?;
    let (_, rest) = head.split_once(" width=\"")?;
    let (width, rest) = rest.split_once('"')?;
    let (_, rest) = rest.split_once(" height=\"")?;
    let (height, _) = rest.split_once('"')?;
    Some((width.parse().ok()?, height.parse().ok()?))
}

/// What is before a picture with a caption.
fn head_of(alloc: Global, caption: &[u8], text: &[u8]) -> Result<Vec<u8>, AllocError> {
    let (width, height) = size_of(text).unwrap_or((0, 0));
    let height = height.saturating_add(HEIGHT);
    let mut out = Vec::new(alloc);
    push_word(
        &mut out,
        "<svg xmlns=\"http://www.w3.org/2000/svg\" width=\"",
        width,
    )?;
    push_word(&mut out, "\" height=\"", height)?;
    push_pair(&mut out, "\" viewBox=\"0 0 ", width, height)?;
    push_word(
        &mut out,
        "\" class=\"ink\">\n<rect class=\"bg\" width=\"",
        width,
    )?;
    push_word(&mut out, "\" height=\"", HEIGHT)?;
    push(&mut out, "\"/><text x=\"20\" y=\"20\" class=\"b\">")?;
    out.extend_from_slice(caption)?;
    push_word(&mut out, "</text>\n<g transform=\"translate(0 ", HEIGHT)?;
    push(&mut out, ")\">\n")?;
    Ok(out)
}

/// A picture below its caption.
pub(crate) fn captioned(alloc: Global, caption: &[u8], text: &[u8]) -> Result<Vec<u8>, AllocError>
    ensures { IfOk result (λ whole. Surrounds text.now whole.items) }
{
    let head = head_of(alloc, caption, text)?;
    surrounded(head, text)
}

/// A text after another, and the end of a picture after it.
fn surrounded(head: Vec<u8>, text: &[u8]) -> Result<Vec<u8>, AllocError>
    ensures { IfOk result (λ whole. Surrounds text.now whole.items) }
{
    let mut out = head;
    out.extend_from_slice(text)?;
    push(&mut out, "</g></svg>\n")?;
    Ok(out)
}
