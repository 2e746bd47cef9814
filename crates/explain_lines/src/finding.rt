//! The first thing that is wrong with a line.

use crate::fault::{LineFault, Near};
use crate::form::{LineForm, Script, script_by};
use crate::friend::{friend_of, meant_by};
use crate::part::LinePart;
use std::alloc::{AllocError, Global};
use xa_xid::Xid;

/// What is wrong with a line, and what is wanted there.
#[derive(Clone, Copy, Drop)]
pub struct LineFinding<'a> {
    pub fault: LineFault<'a>,
    /// The form of the line that is wanted; or the words with which a line may begin.
    pub wanted: &'static str,
    /// The part at fault.
    pub part: Option<LinePart>,
}

/// What is wrong with a word that is no such part.
fn wrong<'a>(part: LinePart, word: &'a str) -> LineFault<'a> {
    if word.is_empty() {
        return LineFault::Blank;
    }
    if part == LinePart::Xid {
        if let Err(cause) = Xid::parse(word) {
            return LineFault::WrongXid { word, cause };
        }
    }
    LineFault::Wrong {
        word,
        part: part.name(),
        near: Near(meant_by(word, part.words())),
    }
}

/// What is wrong with the words of a line after its first, by its form; and which part it is.
fn fault_by<'a>(form: LineForm, words: &[&'a str]) -> Option<(LineFault<'a>, Option<LinePart>)> {
    for (i, part) in form.parts.iter().enumerate() {
        let Some(word) = words.get(i) else {
            if i >= form.parts.len().saturating_sub(form.optional) {
                return None;
            }
            let part_name = part.name();
            return Some((LineFault::Missing { part: part_name }, Some(*part)));
        };
        if !part.fits(word) {
            return Some((wrong(*part, word), Some(*part)));
        }
    }
    match words.get(form.parts.len()) {
        None => None,
        Some(&"") => Some((LineFault::Blank, None)),
        Some(word) => Some((LineFault::More { word }, None)),
    }
}

/// The word of such a script that was meant by one that begins none of its lines; these words are after it. A
/// line with as many words as one of another script has is of that one.
fn word_meant(script: Script, word: &str, rest: &[&str]) -> Option<&'static str> {
    if let Some(other) = script_by(word) {
        return if other != script && rest.len() == 1 {
            friend_of(word, script.words())
        } else {
            None
        };
    }
    meant_by(word, script.words())
}

/// What is wrong with a line that begins with a word that begins none, by the word that was meant.
fn unknown<'a>(script: Script, word: &'a str, near: Option<&'static str>) -> LineFinding<'a> {
    let fault = match script_by(word) {
        _ if word.is_empty() => LineFault::Blank,
        Some(other) if other != script && near.is_none() => LineFault::OtherScript {
            script: other.what(),
        },
        _ => LineFault::Unknown {
            word,
            line: script.line(),
            near: Near(near),
        },
    };
    LineFinding {
        fault,
        wanted: script.word_list(),
        part: None,
    }
}

/// The first thing that is wrong with a line of such a script by its form alone; None, if its form is
/// right.
pub fn finding_of<'a>(
    alloc: Global,
    script: Script,
    line: &'a str,
) -> Result<Option<LineFinding<'a>>, AllocError> {
    let words: Vec<&'a str> = line.split(' ').collect(alloc)?;
    let Some((first, rest)) = words.as_slice().split_first() else {
        return Ok(None);
    };
    let verb = match rest.get(2) {
        Some(verb) => verb,
        None => "",
    };
    let Some(form) = script.form(first, verb) else {
        let near = word_meant(script, first, rest);
        let mut finding = unknown(script, first, near);
        if let Some(near) = near {
            if let Some(form) = script.form(near, verb) {
                finding.wanted = form.shown;
            }
        }
        return Ok(Some(finding));
    };
    match fault_by(form, rest) {
        None => Ok(None),
        Some((fault, part)) => Ok(Some(LineFinding {
            fault,
            wanted: form.shown,
            part,
        })),
    }
}
