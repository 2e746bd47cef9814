//! The text of a message.

ghost use Rattle.std.specs.Prelude.{◌≡◌, IfOk, option_map};
ghost use Rattle.node_lines.specs.Messages.{
  ack_at,
  ack_view,
  ack_words_at,
  ending_at,
  first_word,
  joined_at,
  message_at,
  plain_at,
  prepare_at,
  work_at,
  work_view,
};

use crate::findings::found_in;
use protocol::{Case, Message, Outcome, ProcessId};
use script_words::{Task, task_of};
use spellings::numeral::number_of;
use spellings::word::cut;
use std::alloc::{AllocError, Global};
use tree_script::{case_of, ticket_of};

/// The message of a transaction of this root that a text is; None if it is the text of no message.
#[tactic(auto, unfolding(crate::specs::Messages::message_at))]
pub fn message_of(alloc: Global, root: ProcessId, text: &str) -> Result<Option<Message>, AllocError>
    ensures { IfOk result (λ message. message ≡ message_at root text.now) }
{
    match cut(text, ' ') {
        None => Ok(None),
        Some(("WORK", rest)) => work_of(alloc, root, rest),
        Some(("ACK", rest)) => ack_of(alloc, root, rest),
        Some((word, rest)) => Ok(plain_of(root, word, rest)),
    }
}

/// The message of a text but a work's and an acknowledgement's, by its first word and the rest.
#[tactic(auto, unfolding(crate::specs::Messages::plain_at))]
fn plain_of(root: ProcessId, word: &str, rest: &str) -> Option<Message>
    ensures { result ≡ plain_at root word.now rest.now }
{
    match word {
        "JOIN" => Some(Message::Join(case_of(root, rest)?)),
        "JOINED" => joined_of(root, rest),
        "PREPARE" => prepare_of(root, rest),
        "YES" => Some(Message::Yes(case_of(root, rest)?)),
        "NO" => Some(Message::No(case_of(root, rest)?)),
        "READ" => Some(Message::Read(case_of(root, rest)?)),
        "COMMIT" => Some(Message::Commit(case_of(root, rest)?)),
        "ABORT" => Some(Message::Abort(case_of(root, rest)?)),
        "INQUIRE" => Some(Message::Inquire(case_of(root, rest)?)),
        _ => None,
    }
}

#[tactic(auto, unfolding(crate::specs::Messages::joined_at))]
fn joined_of(root: ProcessId, rest: &str) -> Option<Message>
    ensures { result ≡ joined_at root rest.now }
{
    let (case, ticket) = cut(rest, ' ')?;
    let case = case_of(root, case)?;
    let ticket = ticket_of(ticket)?;
    Some(Message::Joined(case, ticket))
}

#[tactic(auto, unfolding(crate::specs::Messages::prepare_at))]
fn prepare_of(root: ProcessId, rest: &str) -> Option<Message>
    ensures { result ≡ prepare_at root rest.now }
{
    let (case, count) = cut(rest, ' ')?;
    let case = case_of(root, case)?;
    let count = number_of(count)?;
    Some(Message::Prepare(case, count))
}

/// An acknowledgement, with what was found.
fn ack_of(alloc: Global, root: ProcessId, rest: &str) -> Result<Option<Message>, AllocError>
    ensures { IfOk result (λ message. message ≡ ack_at root rest.now) }
{
    match ack_words(root, rest) {
        None => Ok(None),
        Some((case, outcome, text)) => match found_in(alloc, text)? {
            None => Ok(None),
            Some(findings) => Ok(Some(Message::Ack(case, outcome, findings))),
        },
    }
}

/// The case and the outcome that an acknowledgement names, and the text of what was found.
#[tactic(auto, unfolding(crate::specs::Messages::ack_words_at))]
fn ack_words(root: ProcessId, rest: &str) -> Option<(Case, Outcome, Option<&str>)>
    ensures { option_map ack_view result ≡ ack_words_at root rest.now }
{
    let (case, rest) = cut(rest, ' ')?;
    let case = case_of(root, case)?;
    let (outcome, text) = before_blank(rest);
    let outcome = ending_of(outcome)?;
    Some((case, outcome, text))
}

/// The first word of a text, and what is after it, if anything does.
fn before_blank(text: &str) -> (&str, Option<&str>)
    ensures { (result.0.now, option_map (λ t. t.now) result.1) ≡ first_word text.now }
{
    match cut(text, ' ') {
        None => (text, None),
        Some((word, rest)) => (word, Some(rest)),
    }
}

/// The outcome that a word of an acknowledgement names.
fn ending_of(word: &str) -> Option<Outcome>
    ensures { result ≡ ending_at word.now }
{
    match word {
        "commit" => Some(Outcome::Committed),
        "abort" => Some(Outcome::Aborted),
        _ => None,
    }
}

fn work_of(alloc: Global, root: ProcessId, rest: &str) -> Result<Option<Message>, AllocError>
    ensures { IfOk result (λ message. message ≡ work_at root rest.now) }
{
    match work_words(root, rest) {
        None => Ok(None),
        Some((case, number, task)) => {
            let op = task.copied(alloc)?;
            Ok(Some(Message::Work(case, number, op)))
        }
    }
}

#[tactic(auto, unfolding(crate::specs::Messages::work_at))]
fn work_words(root: ProcessId, rest: &str) -> Option<(Case, u64, Task<'_>)>
    ensures { option_map work_view result ≡ work_at root rest.now }
{
    let (case, rest) = cut(rest, ' ')?;
    let case = case_of(root, case)?;
    let (number, rest) = cut(rest, ' ')?;
    let number = number_of(number)?;
    let task = task_of(rest)?;
    Some((case, number, task))
}
