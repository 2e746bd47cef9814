//! Bytes in hexadecimal, with one spelling each: two digits a byte, in lower case.

ghost use Rattle.std.specs.Prelude.{◌≡◌, ◌*◌, ◌↔◌, IsTrue, length};
ghost use Rattle.std.specs.List.{list_all};
ghost use Rattle.spellings.specs.HexText.{is_lower_digit, IsHexadecimal, Spells};

use std::fmt;

/// Whether a text is the spelling of some bytes.
pub fn is_hexadecimal(text: &str) -> bool
    ensures { IsTrue result ↔ IsHexadecimal text.now }
{
    text.len() % 2 == 0 && are_lower_digits(text.as_bytes())
}

fn are_lower_digits(text: &[u8]) -> bool
    ensures { result ≡ list_all is_lower_digit text.now }
{
    text.iter()
        .all(|digit| matches!(digit, b'0'..=b'9' | b'a'..=b'f'))
}

/// Writes the bytes that a text spells, which are as many as there is room for.
pub fn decode(text: &str, bytes: &mut [u8])
    requires spelled { IsHexadecimal text.now }
    requires room { length text.now ≡ 2 * length bytes.old }
    ensures { Spells text.now bytes.new }
{
    hex::decode_to_slice(text, bytes).unwrap()
}

/// Bytes, to be shown in hexadecimal.
#[derive(Clone, Copy)]
pub struct Hexadecimal<'a>(pub &'a [u8]);

impl fmt::Display for Hexadecimal<'_> {
    ghost use Rattle.std.specs.Prelude.{Some};
    ghost use Rattle.hex.specs.Hex.{encode_lower};

    ghost output = { λ h. Some (encode_lower h.0.now) };

    fn fmt<W: fmt::Write>(&self, f: &mut fmt::Formatter<W>) -> fmt::Result {
        let bytes = self.0;
        for &byte in bytes {
            write!(f, "{byte:02x}")?;
        }
        Ok(())
    }
}
