//! Reading a line. It is read through its line feed, however long it is, and its front is kept.

ghost use Rattle.std.specs.Prelude.{◌≡◌, ◌≢◌, ◌≤◌, ◌<◌, ◌+◌, All, IfOk, length, take, get_or};
ghost use Rattle.input_lines.specs.Lines.{ReadsLine};
ghost use Rattle.input_lines.specs.Steps.{ReadsOn, ending};

use crate::line::{InputLine, InputLineFault, LONGEST};
use std::alloc::Global;
use std::io::{BufRead, ErrorKind};

/// What the bytes at hand bring a line to.
#[derive(Clone, Copy, Debug, PartialEq, Eq)]
enum Reach {
    /// It goes on after them.
    Within,
    /// A line feed ended it.
    Feed,
    /// There are none: the input is at its end.
    End,
}

/// How many bytes come before the first line feed, or all.
fn before_feed(bytes: &[u8]) -> usize
    ensures bound { result ≤ length bytes.now }
    ensures before { All (λ x. x ≢ 10) (take result bytes.now) }
    ensures feed { result < length bytes.now → get_or bytes.now result 0 ≡ 10 }
{
    let mut at = 0;
    while at < bytes.len() {
        if bytes[at] == b'\n' {
            return at;
        }
        at += 1;
    }
    at
}

/// What the next bytes bring a line to: their number, and that of those before the first line feed, or of all
/// if none is there. And how many of them the line takes.
fn reach_of(before: usize, count: usize) -> (Reach, usize)
    requires { before ≤ count }
    ensures end { result.0 ≡ Reach.End → count ≡ 0 }
    ensures feed { result.0 ≡ Reach.Feed → before < count }
    ensures taken { result.1 ≡ before + length (ending result.0) }
    ensures within { result.1 ≤ count }
{
    if before < count {
        (Reach::Feed, before + 1)
    } else if count == 0 {
        (Reach::End, before)
    } else {
        (Reach::Within, before)
    }
}

/// The first of these bytes, as far as there is room.
fn front_of(bytes: &[u8], room: usize) -> &[u8]
    ensures { result.now ≡ take room bytes.now }
{
    match bytes.get(..room) {
        Some(front) => front,
        None => bytes,
    }
}

/// Reads on in a line, as far as bytes are at hand, and keeps as many of them as there is room for.
fn read_on<R: BufRead>(
    reader: &mut R,
    kept: &mut Vec<u8>,
    room: usize,
) -> Result<Reach, InputLineFault>
    ensures { IfOk result (λ reach. ReadsOn (R.remaining reader.old) (R.remaining reader.new)
        kept.old.items kept.new.items room reach) }
{
    let available = match reader.fill_buf() {
        Ok(available) => available,
        Err(error) => {
            return if error.kind() == ErrorKind::Interrupted {
                Ok(Reach::Within)
            } else {
                Err(InputLineFault::Read)
            };
        }
    };
    let before = before_feed(available);
    let (reach, taken) = reach_of(before, available.len());
    kept.extend_from_slice(front_of(&available[..before], room))?;
    reader.consume(taken);
    Ok(reach)
}

/// Reads the next line through its line feed, and keeps at most `LONGEST` bytes and one of it. Without a line
/// any more nothing is kept, and no line feed ends it.
pub fn read_line<R: BufRead>(alloc: Global, reader: &mut R) -> Result<InputLine, InputLineFault>
    ensures { IfOk result (λ line. ReadsLine (R.remaining reader.old) (R.remaining reader.new)
        line.kept.items line.is_fed) }
{
    let mut kept = Vec::new(alloc);
    for _ in 0..u64::MAX {
        let room = (LONGEST + 1).saturating_sub(kept.len());
        match read_on(reader, &mut kept, room)? {
            Reach::Within => {}
            Reach::Feed => return Ok(InputLine { kept, is_fed: true }),
            Reach::End => return Ok(InputLine {
                kept,
                is_fed: false,
            }),
        }
    }
    Err(InputLineFault::Read)
}
