//! What a line asks of a node.

ghost use Rattle.std.specs.Prelude.{◌≡◌, IfOk};
ghost use Rattle.script_words.specs.Steps.{same};
ghost use Rattle.node_lines.specs.Asked.{
  act_asked,
  again_asked,
  asked_at,
  end_word,
  longer_asked,
  named_asked,
  outcome_asked,
  resolve_asked,
  sent_asked,
};

use crate::line::line_of;
use protocol::{Act, Bytes, Case, Envelope, Event, ProcessId, Txn};
use script_words::says_nothing;
use spellings::word::cut;
use std::alloc::{AllocError, Global};
use tree_script::{case_of, event_of, txn_of};

/// What a line asks of a node.
#[derive(Drop)]
pub enum NodeLine {
    /// Nothing: it is empty, or a remark.
    Nothing,
    /// An act of an application or an operator.
    Act(Act),
    /// That a message is taken, which has this number at its sender.
    Message(u64, Envelope),
    /// That the log is trimmed.
    Trim,
    /// Which cases are in doubt.
    Doubt,
    /// How a transaction ended, as far as the log tells.
    Outcome(Txn),
    /// That whoever owes an acknowledgement of the case's decision is told it once more.
    Again(Case),
    /// What is to be done with a prepared branch of this name, which is a text.
    Resolve(Bytes),
    /// How its log stands.
    Status,
    /// What its log holds.
    Log,
    /// Which data its manager has.
    Data,
    /// Which lines a node knows.
    Help,
    /// That it ends.
    End,
    /// It asks for nothing.
    Unknown,
    /// It is no text: not UTF-8.
    NoText,
}

/// What a line asks, over a tree with this root.
#[tactic(auto, unfolding(crate::specs::Asked::asked_at))]
pub fn asked_of(alloc: Global, root: ProcessId, line: &str) -> Result<NodeLine, AllocError>
    ensures { IfOk result (λ asked. asked ≡ asked_at root line.now) }
{
    if says_nothing(line) {
        return Ok(NodeLine::Nothing);
    }
    match line {
        "trim" => Ok(NodeLine::Trim),
        "doubt" => Ok(NodeLine::Doubt),
        "status" => Ok(NodeLine::Status),
        "log" => Ok(NodeLine::Log),
        "data" => Ok(NodeLine::Data),
        "help" => Ok(NodeLine::Help),
        "end" => Ok(NodeLine::End),
        _ => longer_of(alloc, root, line),
    }
}

/// What a line asks that is no word alone.
fn longer_of(alloc: Global, root: ProcessId, line: &str) -> Result<NodeLine, AllocError>
    ensures { IfOk result (λ asked. asked ≡ longer_asked root line.now) }
{
    match named_of(alloc, root, line)? {
        Some(asked) => Ok(asked),
        None => sent_of(alloc, root, line),
    }
}

/// What a line asks that is a word and a name: `outcome TXN`, `again CASE` or `resolve NAME`.
#[tactic(auto, unfolding(crate::specs::Asked::named_asked))]
fn named_of(alloc: Global, root: ProcessId, line: &str) -> Result<Option<NodeLine>, AllocError>
    ensures { IfOk result (λ asked. asked ≡ named_asked root line.now) }
{
    match cut(line, ' ') {
        None => Ok(None),
        Some(("outcome", name)) => Ok(outcome_of(root, name)),
        Some(("again", name)) => Ok(again_of(root, name)),
        Some(("resolve", name)) => resolve_of(alloc, name),
        Some(_) => Ok(None),
    }
}

/// The outcome of the transaction of this name.
fn outcome_of(root: ProcessId, name: &str) -> Option<NodeLine>
    ensures { result ≡ outcome_asked root name.now }
{
    Some(NodeLine::Outcome(txn_of(root, name)?))
}

/// The decision of the case of this name, once more.
fn again_of(root: ProcessId, name: &str) -> Option<NodeLine>
    ensures { result ≡ again_asked root name.now }
{
    Some(NodeLine::Again(case_of(root, name)?))
}

/// What is to be done with a branch of this name, if there is one.
fn resolve_of(alloc: Global, name: &str) -> Result<Option<NodeLine>, AllocError>
    ensures { IfOk result (λ asked. asked ≡ resolve_asked name.now) }
{
    if name.is_empty() {
        return Ok(None);
    }
    let name = Bytes::from_slice(alloc, name.as_bytes())?;
    Ok(Some(NodeLine::Resolve(name)))
}

/// A message or an act.
fn sent_of(alloc: Global, root: ProcessId, line: &str) -> Result<NodeLine, AllocError>
    ensures { IfOk result (λ asked. asked ≡ sent_asked root line.now) }
{
    match line_of(alloc, root, line)? {
        Some((number, envelope)) => Ok(NodeLine::Message(number, envelope)),
        None => act_of(alloc, root, line),
    }
}

/// An act; no other event of a script is asked of a node.
fn act_of(alloc: Global, root: ProcessId, line: &str) -> Result<NodeLine, AllocError>
    ensures { IfOk result (λ asked. asked ≡ act_asked root line.now) }
{
    match event_of(alloc, root, line)? {
        Some(Event::Act(act)) => Ok(NodeLine::Act(act)),
        _ => Ok(NodeLine::Unknown),
    }
}

/// Whether a line asks the node to end.
pub fn asks_end(line: &[u8]) -> bool
    ensures { result ≡ same line.now end_word }
{
    line == "end".as_bytes()
}
