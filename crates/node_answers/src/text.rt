//! The answers of a node.

ghost use Rattle.std.specs.Prelude.{◌≡◌, ◌++◌, ◌<◌, ◌+◌, ◌^◌, IfOk, OnOk, length};
ghost use Rattle.trace_lines.specs.Trace.{lines_text};
ghost use Rattle.protocol.specs.Texts.{reaction_lines};
ghost use Rattle.node_answers.specs.Texts.{decision_line, decisions_text, doubt_line, doubts_text, news_text, news_word, ok_text, shown_text, trimmed_text};

use log_outcomes::{LoggedDecision, News};
use protocol::{Case, ProcessId, Reaction, Txn};
use std::alloc::{AllocError, Global};
use trace_lines::{
    outcome_word, push, push_begun, push_case, push_conclusion, push_kept, push_messages,
    push_number, push_written,
};

/// Adds the lines of a reaction, before which N messages were sent.
fn push_reaction(
    out: &mut Vec<u8>,
    me: ProcessId,
    sent: u64,
    reaction: &Reaction,
) -> Result<(), AllocError>
    requires { sent + length reaction.now.messages < 2 ^ 64 }
    ensures { OnOk result (out.new.items
        ≡ out.old.items ++ lines_text (reaction_lines me.0 sent reaction.now)) }
{
    push_begun(out, &reaction.begun)?;
    push_written(out, me.0, reaction.written.as_slice())?;
    push_conclusion(out, &reaction.told)?;
    push_messages(out, sent, reaction.messages.as_slice())?;
    push_kept(out, me.0, &reaction.kept)
}

/// The lines of a reaction, before which N messages were sent, and `ok`.
#[tactic(auto, unfolding(crate::specs::Texts::shown_text))]
pub fn shown_text(
    alloc: Global,
    me: ProcessId,
    sent: u64,
    reaction: &Reaction,
) -> Result<Vec<u8>, AllocError>
    requires { sent + length reaction.now.messages < 2 ^ 64 }
    ensures { IfOk result (λ text. text.items ≡ shown_text me.0 sent reaction.now) }
{
    let mut out = Vec::new(alloc);
    push_reaction(&mut out, me, sent, reaction)?;
    push(&mut out, "ok\n")?;
    Ok(out)
}

/// The line of a trim after which N records remain, and `ok`.
#[tactic(auto, unfolding(crate::specs::Texts::trimmed_text))]
pub fn trimmed_text(alloc: Global, me: ProcessId, remain: u64) -> Result<Vec<u8>, AllocError>
    ensures { IfOk result (λ text. text.items ≡ trimmed_text me.0 remain) }
{
    let mut out = Vec::new(alloc);
    push_kept(&mut out, me.0, &Some(remain))?;
    push(&mut out, "ok\n")?;
    Ok(out)
}

/// The answer to a line that is obeyed, and of which there is nothing to tell.
pub fn obeyed_text(alloc: Global) -> Result<Vec<u8>, AllocError>
    ensures { IfOk result (λ text. text.items ≡ ok_text) }
{
    let mut out = Vec::new(alloc);
    push(&mut out, "ok\n")?;
    Ok(out)
}

fn push_doubt(out: &mut Vec<u8>, case: &Case) -> Result<(), AllocError>
    ensures { OnOk result (out.new.items ≡ out.old.items ++ doubt_line case.now) }
{
    push(out, "doubt ")?;
    push_case(out, case)?;
    push(out, "\n")
}

fn push_doubts(out: &mut Vec<u8>, cases: &[Case]) -> Result<(), AllocError>
    ensures { OnOk result (out.new.items ≡ out.old.items ++ doubts_text cases.now) }
{
    for case in cases {
        push_doubt(out, case)?;
    }
    Ok(())
}

fn push_decision(out: &mut Vec<u8>, decision: &LoggedDecision) -> Result<(), AllocError>
    ensures { OnOk result (out.new.items ≡ out.old.items ++ decision_line decision.now) }
{
    push(out, "decided ")?;
    push_case(out, &decision.case)?;
    push(out, " ")?;
    push(out, outcome_word(decision.outcome))?;
    push(out, "\n")
}

fn push_decisions(out: &mut Vec<u8>, decisions: &[LoggedDecision]) -> Result<(), AllocError>
    ensures { OnOk result (out.new.items ≡ out.old.items ++ decisions_text decisions.now) }
{
    for decision in decisions {
        push_decision(out, decision)?;
    }
    Ok(())
}

/// A line for each of these cases in doubt, then one for each that an operator decided, and `ok`.
pub fn doubt_text(
    alloc: Global,
    cases: &[Case],
    decisions: &[LoggedDecision],
) -> Result<Vec<u8>, AllocError>
    ensures { IfOk result (λ text. text.items
        ≡ doubts_text cases.now ++ decisions_text decisions.now ++ ok_text) }
{
    let mut out = Vec::new(alloc);
    push_doubts(&mut out, cases)?;
    push_decisions(&mut out, decisions)?;
    push(&mut out, "ok\n")?;
    Ok(out)
}

fn news_word(news: News) -> &'static str
    ensures { result.now ≡ news_word news }
{
    match news {
        News::Unknown => " unknown\n",
        News::Open => " open\n",
        News::Committed => " committed\n",
        News::Aborted => " aborted\n",
    }
}

/// The line of how a transaction ended, and `ok`.
pub fn outcome_text(alloc: Global, txn: Txn, news: News) -> Result<Vec<u8>, AllocError>
    ensures { IfOk result (λ text. text.items ≡ news_text txn news ++ ok_text) }
{
    let mut out = Vec::new(alloc);
    push(&mut out, "outcome ")?;
    push_case(&mut out, &Case { txn, ticket: None })?;
    push(&mut out, news_word(news))?;
    push(&mut out, "ok\n")?;
    Ok(out)
}
