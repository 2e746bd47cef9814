//! The words of a line.

ghost use Rattle.std.specs.Prelude.{◌≡◌, ℕ, IfNone, IfOk, IfSome, map};
ghost use Rattle.judge_script.specs.Words.{IsNumber, is_blank, words_in};

use script_words::says_nothing;
use spellings::numeral;
use std::alloc::{AllocError, Global};

/// Whether a line is passed over: it is empty, a remark, or the last line of a report.
pub(crate) fn is_blank(line: &str) -> bool
    ensures { result ≡ is_blank line.now }
{
    says_nothing(line) || line == "end"
}

/// The words of a line, with one space between.
pub(crate) fn words_of(alloc: Global, line: &str) -> Result<Vec<&str>, AllocError>
    ensures { IfOk result (λ v. map (λ s. s.now) v.items ≡ words_in line.now) }
{
    line.split(' ').collect(alloc)
}

/// The number below 2^32 that a word spells in decimal, without leading zeros.
pub(crate) fn number_of(word: &str) -> Option<u32>
    ensures found { IfSome result (λ n. IsNumber word.now n) }
    ensures none { IfNone result ((n : ℕ) → IsNumber word.now n → ⊥) }
{
    let number = numeral::number_of(word)?;
    if number < 1 << 32 {
        Some(number as u32)
    } else {
        None
    }
}
