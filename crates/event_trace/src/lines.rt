//! Lines with a number before them.

ghost use Rattle.std.specs.Prelude.{◌≡◌, ◌++◌, OnOk};
ghost use Rattle.event_trace.specs.Numbered.{byte_text, number_text, numbered};

use std::alloc::AllocError;
use trace_lines::{push, push_number};

/// Adds a number and a blank.
fn push_front(out: &mut Vec<u8>, number: u64) -> Result<(), AllocError>
    ensures { OnOk result (out.new.items ≡ out.old.items ++ number_text number) }
{
    push_number(out, number)?;
    push(out, " ")
}

/// Adds a byte of a line with this number; where the line begins, the number first.
fn push_byte(out: &mut Vec<u8>, begins: bool, number: u64, byte: u8) -> Result<(), AllocError>
    ensures { OnOk result (out.new.items ≡ out.old.items ++ byte_text begins number byte) }
{
    if begins {
        push_front(out, number)?;
    }
    out.push(byte)?;
    Ok(())
}

/// Adds lines, each with this number before it.
pub(crate) fn push_numbered(out: &mut Vec<u8>, number: u64, lines: &[u8]) -> Result<(), AllocError>
    ensures { OnOk result (out.new.items ≡ out.old.items ++ numbered number lines.now) }
{
    let mut begins = true;
    for byte in lines {
        push_byte(out, begins, number, *byte)?;
        begins = *byte == b'\n';
    }
    Ok(())
}
