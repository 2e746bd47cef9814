//! Lines of the desk's own: the cases in doubt are asked about, and the log is trimmed.

ghost use Rattle.std.specs.Prelude.{◌≡◌, ◌++◌, ℕ, List, IfErr, IfOk, OnOk, map};
ghost use Rattle.node_engine.specs.Answers.{AnswersLine, TakesLine, state_of};
ghost use Rattle.node_desk.specs.Words.{ask_line, messages_in, trim_line};
ghost use Rattle.desk_engine.specs.Turns.{AskedAbout, LeavesOwn, RoundBreaks, cases_at};

use crate::telling::tell;
use log_outcomes::{LoggedDecision, decisions_of, doubts_of};
use log_store::LogStore;
use node_desk::{TRIM, ask_line, messages_in};
use node_engine::{NodeFailure, Serving};
use protocol::Case;
use staged_store::Backing;
use std::alloc::{AllocError, Global};
use std::io::Write;

/// Adds the cases that an operator decided.
fn push_decided(cases: &mut Vec<Case>, decisions: &[LoggedDecision]) -> Result<(), AllocError>
    ensures { OnOk result (cases.new.items ≡ cases.old.items ++ map (λ d. d.case) decisions.now) }
{
    for decision in decisions {
        cases.push(decision.case)?;
    }
    Ok(())
}

/// The cases in doubt, and those that an operator decided and that wait to be told.
fn cases_of<L: LogStore>(alloc: Global, serving: &Serving<L>) -> Result<Vec<Case>, AllocError>
    ensures { IfOk result (λ cases. cases.items ≡ cases_at (state_of serving.now)) }
{
    let records = serving.node().records()?;
    let mut cases = doubts_of(alloc, &records)?;
    push_decided(&mut cases, &decisions_of(alloc, &records)?)?;
    Ok(cases)
}

/// Asks the node about a case: its answer.
fn ask<L: LogStore>(
    alloc: Global,
    serving: &mut Serving<L>,
    case: &Case,
) -> Result<Vec<u8>, NodeFailure>
    ensures ok { IfOk result (λ text.
        AnswersLine (ask_line case.now) (state_of serving.old) (state_of serving.new) text.items) }
    ensures err { IfErr result (LeavesOwn (ask_line case.now) (state_of serving.old) (state_of serving.new)) }
{
    let line = ask_line(alloc, case)?;
    serving.answer(&line)
}

/// Asks about these cases, one after another, and tells of the messages of the answers.
fn ask_all<W: Write, L: LogStore, B: Backing<L>>(
    alloc: Global,
    serving: &mut Serving<L>,
    backing: &mut B,
    writer: &mut W,
    cases: &[Case],
) -> Result<(), NodeFailure>
    requires { cases.now ≡ cases_at (state_of serving.old) }
    ensures ok { OnOk result (AskedAbout (state_of serving.old) cases.now (state_of serving.new)
        (W.contents writer.old) (W.contents writer.new)) }
    ensures err { IfErr result (RoundBreaks (state_of serving.old) (state_of serving.new)
        (W.contents writer.old) (W.contents writer.new)) }
{
    for case in cases {
        let answer = ask(alloc, serving, case)?;
        tell(serving, backing, writer, messages_in(&answer))?;
    }
    Ok(())
}

/// Asks about each case in doubt, and about each that an operator decided.
pub(crate) fn ask_again<W: Write, L: LogStore, B: Backing<L>>(
    alloc: Global,
    serving: &mut Serving<L>,
    backing: &mut B,
    writer: &mut W,
) -> Result<(), NodeFailure>
    ensures ok { OnOk result (AskedAbout (state_of serving.old) (cases_at (state_of serving.old))
        (state_of serving.new) (W.contents writer.old) (W.contents writer.new)) }
    ensures err { IfErr result (RoundBreaks (state_of serving.old) (state_of serving.new)
        (W.contents writer.old) (W.contents writer.new)) }
{
    let cases = cases_of(alloc, serving)?;
    ask_all(alloc, serving, backing, writer, &cases)
}

/// Trims the log. What is answered is not told.
pub(crate) fn trim<L: LogStore>(serving: &mut Serving<L>) -> Result<(), NodeFailure>
    ensures ok { OnOk result ((text : List ℕ)
        × AnswersLine trim_line (state_of serving.old) (state_of serving.new) text) }
    ensures err { IfErr result (TakesLine trim_line (state_of serving.old) (state_of serving.new)) }
{
    match serving.answer(TRIM.as_bytes()) {
        Ok(_) => Ok(()),
        Err(failure) => Err(failure),
    }
}
