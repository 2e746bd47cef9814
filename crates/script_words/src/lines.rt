//! The lines of a script.

ghost use Rattle.std.specs.Prelude.{◌≡◌, IfOk, map};
ghost use Rattle.std.specs.Str.Lines.{lines as lines_in};
ghost use Rattle.script_words.specs.Lines.{is_skipped, asked_in};

use std::alloc::{AllocError, Global};

/// The lines of a text. LF and CRLF end a line.
pub fn lines_of(alloc: Global, text: &str) -> Result<Vec<&str>, AllocError>
    ensures { IfOk result (λ v. map (λ s. s.now) v.items ≡ lines_in text.now) }
{
    text.lines().collect(alloc)
}

/// Whether a line is skipped: it is empty, or begins with `#`.
pub fn says_nothing(line: &str) -> bool
    ensures { result ≡ is_skipped line.now }
{
    line.is_empty() || line.as_bytes()[0] == b'#'
}

/// How many of these lines are not skipped.
#[tactic(auto, unfolding(crate::specs::Lines::asked_in))]
pub fn count_asked(lines: &[&str]) -> usize
    ensures { result ≡ asked_in (map (λ s. s.now) lines.now) }
{
    lines.iter().filter(|line| !says_nothing(line)).count()
}
