//! What stands where a tree text and a line of three dashes are wanted.

use explain_lines::{Script, script_by};
use script_words::says_nothing;
use thiserror::Error;

/// Why an input does not begin with a tree text and a line of three dashes.
#[derive(Clone, Copy, Debug, PartialEq, Eq, Error)]
pub(crate) enum OpeningFault {
    #[error("the input is empty")]
    Empty,
    #[error("this is {script}")]
    OtherScript { script: &'static str },
    #[error("line {line} is not just three dashes")]
    NearRule { line: u64 },
    #[error("no line is just three dashes")]
    NoRule,
}

/// The first word of a line.
fn first_word(line: &str) -> &str {
    match line.split_once(' ') {
        Some((word, _)) => word,
        None => line,
    }
}

/// Whether a line may be meant as one of three dashes.
fn is_near_rule(line: &str) -> bool {
    line.starts_with("--")
        && line
            .bytes()
            .all(|b| b == b'-' || b == b' ' || b == b'\t' || b == b'\r')
}

/// The script that the first of these lines belongs to that says something.
fn script_of(lines: &[&str]) -> Option<Script> {
    let line = lines.iter().find(|line| !says_nothing(line))?;
    script_by(first_word(line))
}

/// What is wrong with the lines of an input that has none of three dashes.
pub(crate) fn opening_fault(lines: &[&str]) -> OpeningFault {
    if lines.iter().all(|line| says_nothing(line)) {
        return OpeningFault::Empty;
    }
    if script_of(lines) == Some(Script::Xa) {
        return OpeningFault::OtherScript {
            script: Script::Xa.what(),
        };
    }
    match lines.iter().position(|line| is_near_rule(line)) {
        Some(place) => OpeningFault::NearRule {
            line: (place as u64).saturating_add(1),
        },
        None => OpeningFault::NoRule,
    }
}
