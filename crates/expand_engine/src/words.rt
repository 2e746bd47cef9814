//! The words of a line, its comment and blanks taken off.

use std::alloc::{AllocError, Global};

/// A line without the blanks at its ends, and without a comment: what begins with ` #`.
pub(crate) fn said(line: &str) -> &str {
    let line = match line.split_once(" #") {
        Some((said, _)) => said,
        None => line,
    };
    line.trim()
}

/// The words of a line, however many blanks are between them.
pub(crate) fn words_of<'a>(alloc: Global, line: &'a str) -> Result<Vec<&'a str>, AllocError> {
    line.split(' ')
        .filter(|word: &&str| !word.is_empty())
        .collect(alloc)
}

/// These words, with one blank between two.
pub(crate) fn joined(alloc: Global, words: &[&str]) -> Result<String, AllocError> {
    let mut line = String::new(alloc);
    for word in words {
        if !line.is_empty() {
            line.push(' ')?;
        }
        line.push_str(word)?;
    }
    Ok(line)
}
