//! What a node says of a line that it refuses, or does not know.

ghost use Rattle.std.specs.Prelude.{◌≡◌, IfOk};
ghost use Rattle.node_answers.specs.Texts.{error_text, nothing_word, refusal_word, refused_text, step_error_word};

use protocol::StepError;
use std::alloc::{AllocError, Global};
use trace_lines::{push, push_number};

/// How much a node says of a line that it refuses, or does not know.
#[derive(Clone, Copy, Debug, PartialEq, Eq)]
pub enum Manner {
    /// The number of the refusal.
    Numbers,
    /// That, and a word: `refused 5 closed`, `error no-line`.
    Words,
}

/// Why a line asks for nothing.
#[derive(Clone, Copy, Debug, PartialEq, Eq)]
pub enum Nothing {
    /// It is no UTF-8.
    NoText,
    /// A node knows no such line.
    NoLine,
}

/// Why a line asks for nothing, after a space, if it is to be said.
fn word_of_nothing(manner: Manner, nothing: Nothing) -> &'static str
    ensures { result.now ≡ nothing_word manner nothing }
{
    match (manner, nothing) {
        (Manner::Numbers, _) => "",
        (Manner::Words, Nothing::NoText) => " no-text",
        (Manner::Words, Nothing::NoLine) => " no-line",
    }
}

/// The answer to the line of nothing.
pub fn error_text(alloc: Global, manner: Manner, nothing: Nothing) -> Result<Vec<u8>, AllocError>
    ensures { IfOk result (λ text. text.items ≡ error_text manner nothing) }
{
    let mut out = Vec::new(alloc);
    push(&mut out, "error")?;
    push(&mut out, word_of_nothing(manner, nothing))?;
    push(&mut out, "\n")?;
    Ok(out)
}

/// The word of a refusal, after a space.
fn word_of(error: StepError) -> &'static str
    ensures { result.now ≡ step_error_word error }
{
    match error {
        StepError::Memory => " memory",
        StepError::Device => " device",
        StepError::UnknownTxn => " no-case",
        StepError::NotAChild => " no-child",
        StepError::Closed => " closed",
        StepError::Failed => " failed",
        StepError::NotInDoubt => " not-in-doubt",
        StepError::NothingToForget => " nothing-to-forget",
        StepError::NoSuch => " not-here",
        StepError::Exhausted => " used-up",
    }
}

/// That word, if it is to be said.
fn word_by(manner: Manner, error: StepError) -> &'static str
    ensures { result.now ≡ refusal_word manner error }
{
    match manner {
        Manner::Numbers => "",
        Manner::Words => word_of(error),
    }
}

/// The answer to a line that is refused: the number, and a word, if it is to be said.
pub fn refused_text(alloc: Global, manner: Manner, error: StepError) -> Result<Vec<u8>, AllocError>
    ensures { IfOk result (λ text. text.items ≡ refused_text manner error) }
{
    let mut out = Vec::new(alloc);
    push(&mut out, "refused ")?;
    push_number(&mut out, u64::from(error.number()))?;
    push(&mut out, word_by(manner, error))?;
    push(&mut out, "\n")?;
    Ok(out)
}
