//! What a log holds, line by line.

ghost use Rattle.std.specs.Prelude.{◌≡◌, ◌++◌, OnOk, drop};
ghost use Rattle.log_lines.specs.Held.{heading_text, held_text, listed_text, placed_text, records_text, torn_text};
ghost use Rattle.log_script.specs.Places.{placed_in};
ghost use Rattle.log_records.specs.Openings.{IsLogFound};

use crate::words::push_words;
use log_records::StoreText;
use log_text::{HEADER_SIZE, LogForm, ReadFault, first_frame, read_record};
use protocol::{ProcessId, Record};
use std::alloc::{AllocError, Global};
use trace_lines::{kind_word, push, push_number};

/// Adds what a sound log holds, as it was found: a line `log P`, a line for each record with the place of its
/// first byte, and `torn N` where the log has a torn tail.
pub fn push_held(
    alloc: Global,
    out: &mut Vec<u8>,
    form: LogForm,
    bytes: &[u8],
    found: StoreText,
) -> Result<(), AllocError>
    requires { IsLogFound form bytes.now found }
    ensures { OnOk result (out.new.items ≡ out.old.items ++ held_text form bytes.now) }
{
    push_heading(out, form.process)?;
    match found {
        StoreText::Empty => Ok(()),
        StoreText::Sound(torn) => {
            let (_, frames) = bytes.split_at(HEADER_SIZE);
            push_records(alloc, out, form, frames)?;
            push_torn(out, torn)?;
            Ok(())
        }
    }
}

/// Adds a line `log P` and a line for each record of these bytes, up to the first frame that is none of this
/// form.
pub fn push_lines(
    alloc: Global,
    out: &mut Vec<u8>,
    form: LogForm,
    bytes: &[u8],
) -> Result<(), AllocError>
    ensures { OnOk result (out.new.items ≡ out.old.items ++ listed_text form bytes.now) }
{
    push_heading(out, form.process)?;
    push_records(alloc, out, form, behind_header(bytes))
}

/// The bytes after a header; none, where there are fewer than one has.
fn behind_header(bytes: &[u8]) -> &[u8]
    ensures { result.now ≡ drop 5 bytes.now }
{
    match bytes.get(HEADER_SIZE..) {
        Some(frames) => frames,
        None => &[],
    }
}

fn push_heading(out: &mut Vec<u8>, process: ProcessId) -> Result<(), AllocError>
    ensures { OnOk result (out.new.items ≡ out.old.items ++ heading_text process) }
{
    push(out, "log ")?;
    push_number(out, u64::from(process.0))?;
    push(out, "\n")
}

fn push_torn(out: &mut Vec<u8>, torn: usize) -> Result<(), AllocError>
    ensures { OnOk result (out.new.items ≡ out.old.items ++ torn_text torn) }
{
    if torn == 0 {
        return Ok(());
    }
    push(out, "torn ")?;
    push_number(out, torn as u64)?;
    push(out, "\n")
}

fn push_record(
    alloc: Global,
    out: &mut Vec<u8>,
    place: usize,
    entry: &Record,
) -> Result<(), AllocError>
    ensures { OnOk result (out.new.items ≡ out.old.items ++ placed_text place entry.now) }
{
    push_number(out, place as u64)?;
    push(out, " ")?;
    push(out, kind_word(entry.kind()))?;
    push_words(alloc, out, entry)?;
    push(out, "\n")
}

/// The lines of the records in the bytes after a header.
fn push_records(
    alloc: Global,
    out: &mut Vec<u8>,
    form: LogForm,
    frames: &[u8],
) -> Result<(), AllocError>
    ensures { OnOk result (out.new.items ≡ out.old.items ++ records_text (placed_in form 5 0 frames.now)) }
{
    let mut rest = frames;
    while let Some((frame_kind, payload, behind)) = first_frame(form.format, rest) {
        let place = HEADER_SIZE + (frames.len() - rest.len());
        match read_record(alloc, form, frame_kind, payload) {
            Ok(read) => push_record(alloc, out, place, &read.entry)?,
            Err(ReadFault::Malformed) => return Ok(()),
            Err(ReadFault::Memory) => return Err(AllocError),
        }
        rest = behind;
    }
    Ok(())
}
