//! The text of an answer, and why it is so.

ghost use Rattle.std.specs.Prelude.{◌≡◌, ◌++◌, OnOk};
ghost use Rattle.std.specs.Fmt.{decimal};
ghost use Rattle.resolve_engine.specs.Texts.{answer_text, explained_text, kept_text, line_text, more_text, presumed_text, reason_text, stands_text, wanted_text, why_text, word_text};

use crate::answer::{AnswerReason, AnswerWord, BranchAnswer};
use audit_engine::Stands;
use coord_records::presumed;
use protocol::{Case, Presumption, ProcessId};
use std::alloc::AllocError;
use trace_lines::{outcome_word, push, push_case, push_number};

/// The word of an answer.
fn word_of(word: AnswerWord) -> &'static str
    ensures { result.now ≡ word_text word }
{
    match word {
        AnswerWord::Commit => "commit",
        AnswerWord::Rollback => "rollback",
        AnswerWord::HeuristicCommit => "heuristic-commit",
        AnswerWord::HeuristicRollback => "heuristic-rollback",
        AnswerWord::Wait => "wait",
        AnswerWord::Unknown(_) => "unknown",
        AnswerWord::Foreign => "foreign",
    }
}

/// The process of which something is wanted, if it is.
fn push_wanted(out: &mut Vec<u8>, word: AnswerWord) -> Result<(), AllocError>
    ensures { OnOk result (out.new.items ≡ out.old.items ++ wanted_text word) }
{
    match word {
        AnswerWord::Unknown(process) => {
            push(out, " ")?;
            push_number(out, u64::from(process.0))
        }
        _ => Ok(()),
    }
}

/// A name with the word of its answer, without the line's end.
pub fn push_answer(out: &mut Vec<u8>, name: &str, word: AnswerWord) -> Result<(), AllocError>
    ensures { OnOk result (out.new.items ≡ out.old.items ++ answer_text name.now word) }
{
    push(out, name)?;
    push(out, " ")?;
    push(out, word_of(word))?;
    push_wanted(out, word)
}

/// A process, as a sentence names it.
fn push_process(out: &mut Vec<u8>, words: &str, process: ProcessId) -> Result<(), AllocError>
    ensures { OnOk result (out.new.items ≡ out.old.items ++ words.now ++ decimal process.0) }
{
    push(out, words)?;
    push_number(out, u64::from(process.0))
}

/// A process in the midst of a sentence.
fn push_about(
    out: &mut Vec<u8>,
    before: &str,
    process: ProcessId,
    after: &str,
) -> Result<(), AllocError>
    ensures { OnOk result (out.new.items ≡ out.old.items ++ (before.now ++ decimal process.0 ++ after.now)) }
{
    push_process(out, before, process)?;
    push(out, after)
}

/// What stands of a case, as the rest of a sentence says it.
fn stands_words(stands: Stands) -> &'static str
    ensures { result.now ≡ stands_text stands }
{
    match stands {
        Stands::Commit => " committed",
        Stands::Abort => " aborted",
        Stands::Prepare => " is in doubt itself",
        Stands::Ended => " ended without a decision",
        Stands::Collecting => " is not decided: a restart of its process aborts it",
    }
}

/// What the log of a process has of the case that names the ticket.
fn push_kept(
    out: &mut Vec<u8>,
    process: ProcessId,
    case: &Case,
    stands: Stands,
) -> Result<(), AllocError>
    ensures { OnOk result (out.new.items ≡ out.old.items ++ kept_text process case.now stands) }
{
    push_process(out, "the log of ", process)?;
    push(out, " says that ")?;
    push_case(out, case)?;
    push(out, stands_words(stands))
}

/// That nothing of it is kept, and what is presumed.
fn push_presumed(
    out: &mut Vec<u8>,
    process: ProcessId,
    presumption: Presumption,
) -> Result<(), AllocError>
    ensures { OnOk result (out.new.items ≡ out.old.items ++ presumed_text process presumption) }
{
    push_process(out, "the log of ", process)?;
    push(out, " has nothing of it, and so it is presumed ")?;
    push(out, outcome_word(presumed(presumption)))
}

/// What the caller may do about an answer that waits for what is not in a log.
fn push_more(out: &mut Vec<u8>, word: AnswerWord) -> Result<(), AllocError>
    ensures { OnOk result (out.new.items ≡ out.old.items ++ more_text word) }
{
    match word {
        AnswerWord::Wait => push(
            out,
            "; that counts only if these are the logs as they are, of processes that do not run (--complete)",
        ),
        _ => Ok(()),
    }
}

/// Why, as one sentence without its end, whatever the answer waits for.
fn push_because(out: &mut Vec<u8>, reason: &AnswerReason) -> Result<(), AllocError>
    ensures { OnOk result (out.new.items ≡ out.old.items ++ reason_text reason.now) }
{
    match reason {
        AnswerReason::Own => push(out, "the log of its own process says so"),
        AnswerReason::Operator => push(
            out,
            "an operator decided it so, in the log of its own process",
        ),
        AnswerReason::Kept(process, case, stands) => push_kept(out, *process, case, *stands),
        AnswerReason::Presumed(process, presumption) => push_presumed(out, *process, *presumption),
        AnswerReason::Root(process) => push_about(
            out,
            "it is the case of the root ",
            *process,
            ", which is not decided: a restart of the root aborts it",
        ),
        AnswerReason::Missing(process) => push_about(out, "the log of ", *process, " is not here"),
        AnswerReason::NoPromise(process) => {
            push_about(out, "the log of ", *process, " has no promise of it")
        }
        AnswerReason::OtherTree => push(out, "the name is of a tree of another name (--name)"),
        AnswerReason::NoName => push(out, "no case of this tree has such a name"),
    }
}

/// Why, as one sentence without its end.
pub fn push_reason(out: &mut Vec<u8>, answer: &BranchAnswer) -> Result<(), AllocError>
    ensures { OnOk result (out.new.items ≡ out.old.items ++ why_text answer.now) }
{
    push_because(out, &answer.reason)?;
    push_more(out, answer.word)
}

/// The line of an answer.
pub fn push_line(out: &mut Vec<u8>, name: &str, answer: &BranchAnswer) -> Result<(), AllocError>
    ensures { OnOk result (out.new.items ≡ out.old.items ++ line_text name.now answer.now) }
{
    push_answer(out, name, answer.word)?;
    push(out, "\n")
}

/// The line of an answer, and the line that says why.
pub fn push_explained(
    out: &mut Vec<u8>,
    name: &str,
    answer: &BranchAnswer,
) -> Result<(), AllocError>
    ensures { OnOk result (out.new.items ≡ out.old.items ++ explained_text name.now answer.now) }
{
    push_line(out, name, answer)?;
    push(out, "  ")?;
    push_reason(out, answer)?;
    push(out, "\n")
}
