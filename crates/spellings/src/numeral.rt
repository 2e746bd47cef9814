//! Numbers in decimal, with one spelling each: no leading zeros and no plus sign.

ghost use Rattle.std.specs.Prelude.{◌≡◌, ◌<◌, ◌^◌, ℕ, ℤ, IfSome, IfNone};
ghost use Rattle.std.specs.Fmt.{decimal, signed_decimal};
ghost use Rattle.std.specs.Int.{w32};
ghost use Rattle.std.specs.Int.RustNames.{FitsSigned};
ghost use Rattle.std.specs.List.{list_all};
ghost use Rattle.std.specs.Char.{is_ascii_digit};
ghost use Rattle.spellings.specs.Numerals.{is_numeral, number_at};

/// The number below 2^64 that a word spells in decimal: None if the word is no such number's spelling,
/// as `07`, `+7`, an empty word or 18446744073709551616.
#[tactic(auto, unfolding(crate::specs::Numerals::number_at))]
pub fn number_of(word: &str) -> Option<u64>
    ensures value { result ≡ number_at word.now }
    ensures found { IfSome result (λ number. word.now ≡ decimal number) }
    ensures none { IfNone result ((number : ℕ) → number < 2 ^ 64 → word.now ≡ decimal number → ⊥) }
{
    if is_spelled(word.as_bytes()) {
        word.parse::<u64>().ok()
    } else {
        None
    }
}

/// The 32-bit number that a word spells in decimal, with a `-` before a negative one: None if the word is
/// no such number's spelling, as `-0` or 2147483648.
pub fn integer_of(word: &str) -> Option<i32>
    ensures found { IfSome result (λ number. word.now ≡ signed_decimal number) }
    ensures none { IfNone result ((number : ℤ) → FitsSigned w32 number
        → word.now ≡ signed_decimal number → ⊥) }
{
    match word.strip_prefix('-') {
        None => {
            let number = number_of(word)?;
            if number < 1 << 31 {
                Some(number as i32)
            } else {
                None
            }
        }
        Some(digits) => {
            let number = number_of(digits)?;
            if number == 0 || number > 1 << 31 {
                None
            } else {
                Some(-1 - (number - 1) as i32)
            }
        }
    }
}

/// Whether a word is one or more digits without a leading zero.
fn is_spelled(word: &[u8]) -> bool
    ensures { result ≡ is_numeral word.now }
{
    match word {
        [] => false,
        [b'0', rest @ ..] => rest.is_empty(),
        _ => are_digits(word),
    }
}

fn are_digits(word: &[u8]) -> bool
    ensures { result ≡ list_all is_ascii_digit word.now }
{
    word.iter().all(|b| b.is_ascii_digit())
}
