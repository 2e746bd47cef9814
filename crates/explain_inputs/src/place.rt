//! A line by its number, by an event, or by a byte.

ghost use Rattle.std.specs.Prelude.{◌≡◌, ◌+◌, ◌-◌, ◌<◌, ◌≤◌, IfOk, IfSome, Some, count_by, false, length, not, nat_eq, option_map, slice_get, take};
ghost use Rattle.std.specs.Str.Lines.{lines as lines_in};
ghost use Rattle.script_words.specs.Lines.{is_skipped};

use script_words::{lines_of, says_nothing};
use std::alloc::{AllocError, Global};

/// The line of this number, counted from the text's first from 1 on.
pub(crate) fn line_at(alloc: Global, text: &str, number: u64) -> Result<Option<&str>, AllocError>
    ensures { IfOk result (λ line. 1 ≤ number
        → option_map (λ s. s.now) line ≡ slice_get (lines_in text.now) (number - 1)) }
{
    let lines = lines_of(alloc, text)?;
    match number.checked_sub(1) {
        None => Ok(None),
        Some(place) => Ok(lines.get(place as usize).copied()),
    }
}

/// The place of the line that asks for an event after N that do, from 0.
pub fn event_place(lines: &[&str], made: usize) -> Option<usize>
    ensures asks { IfSome result (λ place. option_map (λ s. is_skipped s.now)
        (slice_get lines.now place) ≡ Some false) }
    ensures made { IfSome result (λ place. count_by (λ s. not (is_skipped s.now))
        (take place lines.now) ≡ made) }
{
    let mut asked: usize = 0;
    for (place, line) in lines.iter().enumerate() {
        if says_nothing(line) {
            continue;
        }
        if asked == made {
            return Some(place);
        }
        asked += 1;
    }
    None
}

/// How many line ends there are.
fn line_ends(bytes: &[u8]) -> usize
    ensures { result ≡ count_by (λ b. nat_eq b 10) bytes.now }
{
    bytes.iter().filter(|b| **b == b'\n').count()
}

/// The number of the line in which the byte at this place stands, counted from 1; after the last byte, that
/// of the last line.
pub(crate) fn line_of_byte(bytes: &[u8], place: usize) -> u64
    ensures { place ≤ length bytes.now → result ≡ count_by (λ b. nat_eq b 10) (take place bytes.now) + 1 }
{
    if place <= bytes.len() {
        line_ends(&bytes[..place]) as u64 + 1
    } else {
        line_ends(bytes) as u64 + 1
    }
}
