//! The lines of keys and values.

ghost use Rattle.std.specs.Prelude.{◌≡◌, ◌++◌, OnOk};
ghost use Rattle.left_data.specs.Texts.{pair_line, pairs_text};

use protocol::{Bytes, ProcessId};
use run_notes::push_bytes;
use std::alloc::{AllocError, Global};
use trace_lines::{push, push_number};

/// The line of a key and its value at a process.
fn push_pair(
    alloc: Global,
    out: &mut Vec<u8>,
    process: ProcessId,
    key: &[u8],
    value: &[u8],
) -> Result<(), AllocError>
    ensures { OnOk result (out.new.items ≡ out.old.items ++ pair_line process (key.now, value.now)) }
{
    push(out, "data ")?;
    push_number(out, u64::from(process.0))?;
    push(out, " ")?;
    push_bytes(alloc, out, key)?;
    push(out, " ")?;
    push_bytes(alloc, out, value)?;
    push(out, "\n")
}

/// The lines of the keys and values of a process.
pub(crate) fn push_pairs(
    alloc: Global,
    out: &mut Vec<u8>,
    process: ProcessId,
    pairs: &[(Bytes, Bytes)],
) -> Result<(), AllocError>
    ensures { OnOk result (out.new.items ≡ out.old.items ++ pairs_text process pairs.now) }
{
    for (key, value) in pairs {
        push_pair(alloc, out, process, key.as_slice(), value.as_slice())?;
    }
    Ok(())
}
