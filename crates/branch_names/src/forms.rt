//! The forms in which an XID is printed.

ghost use Rattle.std.specs.Prelude.{◌≡◌, IfOk, option_map};
ghost use Rattle.branch_names.specs.Forms.{IsXidOf, base64_at, driver_at, driver_parts_at, format_at, hex_at, named_parts, or_else, quoted_at, sql_at, sql_parts_at};

use base64::engine::general_purpose::STANDARD;
use spellings::numeral::number_of;
use spellings::word::cut;
use std::alloc::{AllocError, Global};
use tree_script::after;
use xa_xid::Xid;

/// The bytes of a text in hexadecimal, in upper or lower case.
fn hex_bytes(alloc: Global, digits: &str) -> Result<Option<Vec<u8>>, AllocError>
    ensures { IfOk result (λ bytes. option_map (λ v. v.items) bytes ≡ hex_at digits.now) }
{
    match hex::decode(alloc, digits.as_bytes()) {
        Ok(bytes) => Ok(Some(bytes)),
        Err(hex::FromHexError::OutOfMemory) => Err(AllocError),
        Err(_) => Ok(None),
    }
}

/// The bytes of a text in Base64.
fn base64_bytes(alloc: Global, text: &str) -> Result<Option<Vec<u8>>, AllocError>
    ensures { IfOk result (λ bytes. option_map (λ v. v.items) bytes ≡ base64_at text.now) }
{
    match STANDARD.decode(alloc, text.as_bytes()) {
        Ok(bytes) => Ok(Some(bytes)),
        Err(base64::DecodeAllocError::OutOfMemory) => Err(AllocError),
        Err(_) => Ok(None),
    }
}

/// The XID of these parts, if they name a branch.
fn xid_of(format: i32, gtrid: &[u8], bqual: &[u8]) -> Option<Xid>
    ensures { result ≡ named_parts format gtrid.now bqual.now }
{
    Xid::new(format, gtrid, bqual).ok()
}

/// The number of a format.
fn format_of(word: &str) -> Option<i32>
    ensures { result ≡ format_at word.now }
{
    let number = number_of(word)?;
    if number < 1 << 31 {
        Some(number as i32)
    } else {
        None
    }
}

/// What is between `X'` and `'`, and the rest after it.
fn quoted(text: &str) -> Option<(&str, &str)>
    ensures { option_map (λ p. (p.0.now, p.1.now)) result ≡ quoted_at text.now }
{
    let rest = after(text, 'X')?;
    let rest = after(rest, '\'')?;
    cut(rest, '\'')
}

/// The texts of a line `X'GTRID',X'BQUAL',FORMAT`, and its format.
fn sql_parts(line: &str) -> Option<(&str, &str, i32)>
    ensures { option_map (λ p. (p.0.now, (p.1.now, p.2))) result ≡ sql_parts_at line.now }
{
    let (gtrid, rest) = quoted(line)?;
    let rest = after(rest, ',')?;
    let (bqual, rest) = quoted(rest)?;
    let rest = after(rest, ',')?;
    let format = format_of(rest)?;
    Some((gtrid, bqual, format))
}

/// The format of a line `FORMAT_GTRID_BQUAL`, and its texts.
fn driver_parts(line: &str) -> Option<(i32, &str, &str)>
    ensures { option_map (λ p. (p.0, (p.1.now, p.2.now))) result ≡ driver_parts_at line.now }
{
    let (format, rest) = cut(line, '_')?;
    let (gtrid, bqual) = cut(rest, '_')?;
    let format = format_of(format)?;
    Some((format, gtrid, bqual))
}

/// The XID of a line as MariaDB prints it.
#[tactic(auto, unfolding(crate::specs::Forms::sql_at))]
fn sql_xid(alloc: Global, line: &str) -> Result<Option<Xid>, AllocError>
    ensures { IfOk result (λ xid. xid ≡ sql_at line.now) }
{
    let Some((gtrid, bqual, format)) = sql_parts(line) else {
        return Ok(None);
    };
    let Some(gtrid) = hex_bytes(alloc, gtrid)? else {
        return Ok(None);
    };
    let Some(bqual) = hex_bytes(alloc, bqual)? else {
        return Ok(None);
    };
    Ok(xid_of(format, &gtrid, &bqual))
}

/// The XID of a line as PostgreSQL's JDBC driver names it.
#[tactic(auto, unfolding(crate::specs::Forms::driver_at))]
fn driver_xid(alloc: Global, line: &str) -> Result<Option<Xid>, AllocError>
    ensures { IfOk result (λ xid. xid ≡ driver_at line.now) }
{
    let Some((format, gtrid, bqual)) = driver_parts(line) else {
        return Ok(None);
    };
    let Some(gtrid) = base64_bytes(alloc, gtrid)? else {
        return Ok(None);
    };
    let Some(bqual) = base64_bytes(alloc, bqual)? else {
        return Ok(None);
    };
    Ok(xid_of(format, &gtrid, &bqual))
}

/// The XID that a line is printed as by a database.
fn printed_xid(alloc: Global, line: &str) -> Result<Option<Xid>, AllocError>
    ensures { IfOk result (λ xid. xid ≡ or_else (sql_at line.now) (driver_at line.now)) }
{
    match sql_xid(alloc, line)? {
        Some(xid) => Ok(Some(xid)),
        None => driver_xid(alloc, line),
    }
}

/// The XID that a line is: in text, as MariaDB prints it, or as PostgreSQL's JDBC driver names it. The form
/// tells which: a text has two colons, MariaDB's has quotes, and a driver's name two underscores.
pub fn xid_in(alloc: Global, line: &str) -> Result<Option<Xid>, AllocError>
    ensures { IfOk result (λ xid. IsXidOf line.now xid) }
{
    match Xid::parse(line) {
        Ok(xid) => Ok(Some(xid)),
        Err(_) => printed_xid(alloc, line),
    }
}
