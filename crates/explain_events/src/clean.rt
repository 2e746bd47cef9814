//! A text that a terminal can show.

use std::alloc::{AllocError, Global};

/// A character, or a question mark in place of one that a terminal obeys.
fn shown(character: char) -> char {
    if character.is_control() && character != '\n' {
        '?'
    } else {
        character
    }
}

/// The text, with a question mark in place of each control character but the ends of its lines.
pub(crate) fn cleaned(alloc: Global, text: &str) -> Result<String, AllocError> {
    text.chars().map(shown).collect(alloc)
}
