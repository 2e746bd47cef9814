//! A whole script.

ghost use Rattle.std.specs.Prelude.{IfOk, MatchResult, map};
ghost use Rattle.xa_engine.specs.script.Scripts.{HasLines, IsFirstBadLine, IsXaScript, IsScriptFault, SpellEach, call_lines};

use crate::script::request::{Request, request_of};
use script_words::{count_asked, lines_of, says_nothing};
use std::alloc::{AllocError, Global};
use std::str;
use thiserror::Error;

/// The most lines that are not skipped.
const LINES: usize = 100_000;

/// Why a script is refused.
#[derive(Clone, Copy, Debug, PartialEq, Eq, Error)]
pub enum XaScriptError {
    /// A line that spells no request, by its number from 1. The first of them is named.
    #[error("line {0} is not a request")]
    Line(usize),
    /// The input is no UTF-8.
    #[error("the script is not UTF-8")]
    Utf8,
    /// More than 100,000 lines that are not skipped.
    #[error("the script has more than 100000 request lines")]
    TooLong,
}

/// The requests of a script, or why it is refused: Utf8, TooLong, Line, the first that applies.
pub fn requests_of(
    alloc: Global,
    input: &[u8],
) -> Result<Result<Vec<Request>, XaScriptError>, AllocError>
    ensures { IfOk result (λ read. MatchResult read
        (λ v. IsXaScript input.now v.items) (λ error. IsScriptFault input.now error)) }
{
    let lines = match asking_lines(alloc, input)? {
        Ok(lines) => lines,
        Err(error) => return Ok(Err(error)),
    };
    match requests_in(alloc, &lines)? {
        Ok(requests) => Ok(Ok(requests)),
        Err(number) => Ok(Err(XaScriptError::Line(number))),
    }
}

/// The lines of a script, none of them read yet; or why it is refused before any is read: Utf8, TooLong, the
/// first that applies.
pub fn asking_lines<'a>(
    alloc: Global,
    input: &'a [u8],
) -> Result<Result<Vec<&'a str>, XaScriptError>, AllocError>
    ensures { IfOk result (λ read. MatchResult read
        (λ v. HasLines input.now (map (λ s. s.now) v.items)) (λ error. IsScriptFault input.now error)) }
{
    let Ok(text) = str::from_utf8(input) else {
        return Ok(Err(XaScriptError::Utf8));
    };
    let lines = lines_of(alloc, text)?;
    if count_asked(&lines) > LINES {
        return Ok(Err(XaScriptError::TooLong));
    }
    Ok(Ok(lines))
}

/// The requests of these lines, or the number of the first that spells none, counted from 1.
fn requests_in(alloc: Global, lines: &[&str]) -> Result<Result<Vec<Request>, usize>, AllocError>
    ensures { IfOk result (λ read. MatchResult read
        (λ v. SpellEach (call_lines (map (λ s. s.now) lines.now)) v.items)
        (λ number. IsFirstBadLine (map (λ s. s.now) lines.now) number)) }
{
    let mut requests = Vec::new(alloc);
    for (i, line) in lines.iter().enumerate() {
        if says_nothing(line) {
            continue;
        }
        match request_of(alloc, line)? {
            Some(request) => requests.push(request)?,
            None => return Ok(Err(i + 1)),
        }
    }
    Ok(Ok(requests))
}
