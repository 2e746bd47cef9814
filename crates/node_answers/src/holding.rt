//! What a log holds, and the data of a manager.

ghost use Rattle.std.specs.Prelude.{◌≡◌, ◌++◌, ℕ, List, IfOk, OnOk};
ghost use Rattle.node_answers.specs.Texts.{data_text, log_text, pair_line, pairs_text};

use log_lines::{push_bytes_word, push_lines};
use log_text::LogForm;
use protocol::Bytes;
use std::alloc::{AllocError, Global};
use trace_lines::push;

/// A line `log P` and a line for each record of these bytes of a log, as `rstar log` writes them, and `ok`.
pub fn log_text(alloc: Global, form: LogForm, bytes: &[u8]) -> Result<Vec<u8>, AllocError>
    ensures { IfOk result (λ text. text.items ≡ log_text form bytes.now) }
{
    let mut out = Vec::new(alloc);
    push_lines(alloc, &mut out, form, bytes)?;
    push(&mut out, "ok\n")?;
    Ok(out)
}

fn push_pair(alloc: Global, out: &mut Vec<u8>, key: &[u8], value: &[u8]) -> Result<(), AllocError>
    ensures { OnOk result (out.new.items ≡ out.old.items ++ pair_line (key.now, value.now)) }
{
    push(out, "data")?;
    push_bytes_word(alloc, out, key)?;
    push_bytes_word(alloc, out, value)?;
    push(out, "\n")
}

fn push_pairs(alloc: Global, out: &mut Vec<u8>, pairs: &[(Bytes, Bytes)]) -> Result<(), AllocError>
    ensures { OnOk result (out.new.items ≡ out.old.items ++ pairs_text pairs.now) }
{
    for (key, value) in pairs {
        push_pair(alloc, out, key.as_slice(), value.as_slice())?;
    }
    Ok(())
}

/// A line for each of these pairs of a key and its value, and `ok`.
pub fn data_text(alloc: Global, pairs: &[(Bytes, Bytes)]) -> Result<Vec<u8>, AllocError>
    ensures { IfOk result (λ text. text.items ≡ data_text pairs.now) }
{
    let mut out = Vec::new(alloc);
    push_pairs(alloc, &mut out, pairs)?;
    push(&mut out, "ok\n")?;
    Ok(out)
}
