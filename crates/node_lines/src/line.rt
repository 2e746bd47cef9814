//! The line of a message, with its number, its sender and its receiver.

ghost use Rattle.std.specs.Prelude.{◌≡◌, IfOk, option_map};
ghost use Rattle.node_lines.specs.Lines.{head_at, head_view, line_at, way_at};

use crate::message::message_of;
use protocol::{Envelope, ProcessId};
use spellings::numeral::number_of;
use spellings::word::cut;
use std::alloc::{AllocError, Global};
use tree_script::{after, process_of};

/// The message of a line and its number, over a tree with this root; None if it is not a message.
pub fn line_of(
    alloc: Global,
    root: ProcessId,
    line: &str,
) -> Result<Option<(u64, Envelope)>, AllocError>
    ensures { IfOk result (λ read. read ≡ line_at root line.now) }
{
    match head_of(line) {
        None => Ok(None),
        Some((number, (from, to), text)) => match message_of(alloc, root, text)? {
            None => Ok(None),
            Some(message) => Ok(Some((number, Envelope { from, to, message }))),
        },
    }
}

/// The number of a line's message, its sender and its receiver, and its text.
#[tactic(auto, unfolding(crate::specs::Lines::head_at))]
fn head_of(line: &str) -> Option<(u64, (ProcessId, ProcessId), &str)>
    ensures { option_map head_view result ≡ head_at line.now }
{
    let (number, rest) = cut(line, ' ')?;
    let number = number_of(number)?;
    let (way, text) = cut(rest, ' ')?;
    let way = way_of(way)?;
    Some((number, way, text))
}

/// The sender and the receiver that a word names, as `1->2`.
#[tactic(auto, unfolding(crate::specs::Lines::way_at))]
fn way_of(word: &str) -> Option<(ProcessId, ProcessId)>
    ensures { result ≡ way_at word.now }
{
    let (from, rest) = cut(word, '-')?;
    let from = process_of(from)?;
    let to = after(rest, '>')?;
    let to = process_of(to)?;
    Some((from, to))
}
