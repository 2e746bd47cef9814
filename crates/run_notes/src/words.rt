//! The words of a note.

ghost use Rattle.std.specs.Prelude.{◌≡◌, ◌++◌, [], IfOk, OnOk, option_map};
ghost use Rattle.run_notes.specs.Words.{byte_text, bytes_text, count_text, held_text, is_plain, no_text, read_text, spoiled_text, unknown_text, value_text};

use crate::branch::Spoiled;
use protocol::{BranchName as Name, Case};
use spellings::hexadecimal::Hexadecimal;
use std::alloc::{AllocError, Global};
use trace_lines::{push, push_case, push_number};

/// Whether a byte of a key or a value stands as it is: a visible character of ASCII, and no backslash.
fn is_plain(byte: u8) -> bool
    ensures { result ≡ is_plain byte }
{
    33 <= byte && byte <= 126 && byte != 92
}

/// A byte as it is, or as `\\x0a`.
fn push_byte(alloc: Global, out: &mut Vec<u8>, byte: u8) -> Result<(), AllocError>
    ensures { OnOk result (out.new.items ≡ out.old.items ++ byte_text byte) }
{
    if is_plain(byte) {
        out.push(byte)?;
        return Ok(());
    }
    let bytes = [byte];
    let digits = Hexadecimal(&bytes);
    let digits = format!(in alloc; "{digits}")?;
    push(out, "\\x")?;
    push(out, &digits)
}

/// Adds the bytes of a key or a value: a visible character of ASCII other than a backslash as it is, and each
/// other byte as a backslash, an `x` and its two digits.
pub fn push_bytes(alloc: Global, out: &mut Vec<u8>, bytes: &[u8]) -> Result<(), AllocError>
    ensures { OnOk result (out.new.items ≡ out.old.items ++ bytes_text bytes.now) }
{
    for byte in bytes {
        push_byte(alloc, out, *byte)?;
    }
    Ok(())
}

/// A value that was read, or that none is there.
fn push_value(alloc: Global, out: &mut Vec<u8>, value: Option<&[u8]>) -> Result<(), AllocError>
    ensures { OnOk result (out.new.items ≡ out.old.items
        ++ value_text (option_map (λ v. v.now) value.entry)) }
{
    match value {
        None => push(out, "nothing is there"),
        Some(value) => push_bytes(alloc, out, value),
    }
}

/// What a case read at a key.
pub(crate) fn read_words(
    alloc: Global,
    case: &Case,
    key: &[u8],
    value: Option<&[u8]>,
) -> Result<Vec<u8>, AllocError>
    ensures { IfOk result (λ words. words.items ≡ read_text case.now key.now
        (option_map (λ v. v.now) value.entry)) }
{
    let mut out = Vec::new(alloc);
    push_case(&mut out, case)?;
    push(&mut out, " reads ")?;
    push_bytes(alloc, &mut out, key)?;
    push(&mut out, ": ")?;
    push_value(alloc, &mut out, value)?;
    Ok(out)
}

/// Why a case votes NO, in words that have no end yet.
fn no_words(alloc: Global, case: &Case) -> Result<Vec<u8>, AllocError>
    ensures { IfOk result (λ words. words.items ≡ no_text case.now []) }
{
    let mut out = Vec::new(alloc);
    push_case(&mut out, case)?;
    push(&mut out, " votes NO: ")?;
    Ok(out)
}

/// Why a case votes NO of which no branch is known.
pub(crate) fn unknown_words(alloc: Global, case: &Case) -> Result<Vec<u8>, AllocError>
    ensures { IfOk result (λ words. words.items ≡ unknown_text case.now) }
{
    let mut out = no_words(alloc, case)?;
    push(
        &mut out,
        "it does not know the branch, which was lost in a crash or has ended",
    )?;
    Ok(out)
}

/// Why a case votes NO that did M of N works.
pub(crate) fn count_words(
    alloc: Global,
    case: &Case,
    works: u64,
    done: u64,
) -> Result<Vec<u8>, AllocError>
    ensures { IfOk result (λ words. words.items ≡ count_text case.now works done) }
{
    let mut out = no_words(alloc, case)?;
    push(&mut out, "of ")?;
    push_number(&mut out, works)?;
    push(&mut out, " works ")?;
    push_number(&mut out, done)?;
    push(&mut out, " came in order")?;
    Ok(out)
}

/// Adds which key a branch holds.
fn push_held(alloc: Global, out: &mut Vec<u8>, key: &[u8], holder: &Name) -> Result<(), AllocError>
    ensures { OnOk result (out.new.items ≡ out.old.items ++ held_text key.now holder.now) }
{
    push(out, "key ")?;
    push_bytes(alloc, out, key)?;
    match holder {
        Name::Case(case) => {
            push(out, " is held by ")?;
            push_case(out, case)
        }
        Name::Foreign(_) => push(out, " is held by a branch that is no case"),
    }
}

/// Adds why a work was refused.
fn push_spoiled(alloc: Global, out: &mut Vec<u8>, spoiled: &Spoiled) -> Result<(), AllocError>
    ensures { OnOk result (out.new.items ≡ out.old.items ++ spoiled_text spoiled.now) }
{
    match spoiled {
        Spoiled::Held(key, holder) => push_held(alloc, out, key.as_slice(), holder),
        Spoiled::TooLong => push(out, "a key or a value has too many bytes, or a key none"),
        Spoiled::TooMany => push(out, "it would have written more than 64 keys"),
    }
}

/// Why a case votes NO that was refused a work.
pub(crate) fn spoiled_words(
    alloc: Global,
    case: &Case,
    spoiled: &Spoiled,
) -> Result<Vec<u8>, AllocError>
    ensures { IfOk result (λ words. words.items ≡ no_text case.now (spoiled_text spoiled.now)) }
{
    let mut out = no_words(alloc, case)?;
    push_spoiled(alloc, &mut out, spoiled)?;
    Ok(out)
}
