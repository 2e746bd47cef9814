//! Words and numbers added to a text.

ghost use Rattle.std.specs.Prelude.{◌≡◌, ◌++◌, OnOk};
ghost use Rattle.picture_shapes.specs.Words.{escaped, escaped_byte, pair_text, word_text};

use std::alloc::AllocError;
use trace_lines::{push, push_number};

/// A word and a number after it.
pub fn push_word(out: &mut Vec<u8>, word: &str, number: u64) -> Result<(), AllocError>
    ensures { OnOk result (out.new.items ≡ out.old.items ++ word_text word.now number) }
{
    push(out, word)?;
    push_number(out, number)
}

/// A word, and two numbers after it with a space between them.
pub fn push_pair(out: &mut Vec<u8>, word: &str, x: u64, y: u64) -> Result<(), AllocError>
    ensures { OnOk result (out.new.items ≡ out.old.items ++ pair_text word.now x y) }
{
    push_word(out, word, x)?;
    push_word(out, " ", y)
}

/// A byte of words between tags.
fn push_byte(out: &mut Vec<u8>, byte: u8) -> Result<(), AllocError>
    ensures { OnOk result (out.new.items ≡ out.old.items ++ escaped_byte byte) }
{
    match byte {
        b'&' => push(out, "&amp;"),
        b'<' => push(out, "&lt;"),
        b'>' => push(out, "&gt;"),
        _ => {
            out.push(byte)?;
            Ok(())
        }
    }
}

/// Words between tags: what would begin or end a tag or a name is written by its name.
#[tactic(auto, unfolding(crate::specs::Words::escaped))]
pub fn push_escaped(out: &mut Vec<u8>, words: &[u8]) -> Result<(), AllocError>
    ensures { OnOk result (out.new.items ≡ out.old.items ++ escaped words.now) }
{
    for byte in words {
        push_byte(out, *byte)?;
    }
    Ok(())
}
