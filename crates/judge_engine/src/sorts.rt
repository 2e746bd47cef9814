//! Faults by sort.

use crate::judging::JudgeFault;
use std::alloc::{AllocError, Global};

/// Faults of one sort: the same call with the same flags, answered alike where thread and branch stand alike.
#[derive(Drop)]
pub(crate) struct Sort {
    pub(crate) name: Vec<u8>,
    pub(crate) count: u64,
}

/// Adds a word and a space.
fn push_word(out: &mut Vec<u8>, word: &str) -> Result<(), AllocError> {
    out.extend_from_slice(word.as_bytes())?;
    out.extend_from_slice(b" ")
}

/// Whether a word is one of flags.
fn is_flags(word: &str) -> bool {
    word.starts_with("TM")
}

/// Whether an answer is a list.
fn is_number(word: &str) -> bool {
    !word.is_empty() && word.as_bytes()[0].is_ascii_digit()
}

/// The sort of a fault: the first word of the call and its flags, the first word of the answer, and the
/// standing.
pub(crate) fn sort_of(
    alloc: Global,
    line: &str,
    fault: &JudgeFault,
) -> Result<Vec<u8>, AllocError> {
    let mut name = Vec::new(alloc);
    let mut first = true;
    let mut answers = false;
    for word in line.split(' ') {
        if first || is_flags(word) {
            push_word(&mut name, word)?;
        }
        first = false;
        if answers {
            let told = if is_number(word) { "list" } else { word };
            push_word(&mut name, told)?;
            break;
        }
        if word == "->" {
            push_word(&mut name, word)?;
            answers = true;
        }
    }
    name.extend_from_slice(b"[")?;
    name.extend_from_slice(&fault.standing)?;
    name.extend_from_slice(b"]")?;
    Ok(name)
}

/// Counts one more fault of a sort.
pub(crate) fn count(sorts: &mut Vec<Sort>, name: Vec<u8>) -> Result<(), AllocError> {
    for sort in &mut *sorts {
        if sort.name.as_slice() == name.as_slice() {
            sort.count = sort.count.saturating_add(1);
            return Ok(());
        }
    }
    sorts.push(Sort { name, count: 1 })?;
    Ok(())
}
