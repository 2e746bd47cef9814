//! The call of a line.

ghost use Rattle.std.specs.Prelude.{◌≡◌, IfNone, IfSome, map};
ghost use Rattle.xa_xid.specs.declared.xid.Xid.{Xid as AnyXid};
ghost use Rattle.judge_script.specs.declared.asking.TranscriptCall.{TranscriptCall as AnyAsked};
ghost use Rattle.judge_script.specs.Words.{IsName};
ghost use Rattle.judge_script.specs.Askings.{AsksCall, AsksBy, IsAlone, IsWithOne, IsWithThree, IsWithTwo, outcome_at, word_at};

use crate::words::number_of;
use judge_rules::BranchVerb;
use spellings::numeral;
use xa_codes::Flags;
use xa_xid::Xid;

/// What a line asks for, its keys and values in the line.
#[derive(Clone, Copy)]
pub enum TranscriptCall<'a> {
    Open(Flags),
    Close(Flags),
    Branch(BranchVerb, u32, Xid, Flags),
    Recover(u32, u32, Flags),
    Get(u32, &'a str),
    Put(u32, &'a str, &'a str),
    Decide(Xid, bool),
    Restart(bool),
    Disconnect(u32),
    Trim,
}

/// The value that a read of nothing tells.
pub(crate) const NONE: &str = "none";

/// What the first word of a line asks for.
#[derive(Clone, Copy)]
pub enum CallWord {
    Open,
    Close,
    Branch(BranchVerb),
    Recover,
    Get,
    Put,
    Delete,
    Decide,
    Restart,
    Disconnect,
    Trim,
}

/// What a word asks for.
fn word_of(word: &str) -> Option<CallWord>
    ensures { result ≡ word_at word.now }
{
    match word {
        "open" => Some(CallWord::Open),
        "close" => Some(CallWord::Close),
        "start" => Some(CallWord::Branch(BranchVerb::Start)),
        "end" => Some(CallWord::Branch(BranchVerb::End)),
        "prepare" => Some(CallWord::Branch(BranchVerb::Prepare)),
        "commit" => Some(CallWord::Branch(BranchVerb::Commit)),
        "rollback" => Some(CallWord::Branch(BranchVerb::Rollback)),
        "forget" => Some(CallWord::Branch(BranchVerb::Forget)),
        "recover" => Some(CallWord::Recover),
        "get" => Some(CallWord::Get),
        "put" => Some(CallWord::Put),
        "del" => Some(CallWord::Delete),
        "heur" => Some(CallWord::Decide),
        "restart" => Some(CallWord::Restart),
        "disconnect" => Some(CallWord::Disconnect),
        "trim" => Some(CallWord::Trim),
        _ => None,
    }
}

/// Whether an operator commits, by the word of the outcome: None, if it is none.
fn commits(word: &str) -> Option<bool>
    ensures { result ≡ outcome_at word.now }
{
    match word {
        "commit" => Some(true),
        "rollback" => Some(false),
        _ => None,
    }
}

/// The XID that a word spells.
pub(crate) fn xid_of(word: &str) -> Option<Xid>
    ensures found { IfSome result (λ xid. IsName word.now xid) }
    ensures none { IfNone result ((xid : AnyXid) → IsName word.now xid → ⊥) }
{
    match Xid::parse(word) {
        Ok(xid) => Some(xid),
        Err(_) => None,
    }
}

/// The call of a word alone.
fn alone<'a>(word: CallWord) -> Option<TranscriptCall<'a>>
    ensures found { IfSome result (λ asked. IsAlone word asked) }
    ensures none { IfNone result ((asked : AnyAsked) → IsAlone word asked → ⊥) }
{
    match word {
        CallWord::Restart => Some(TranscriptCall::Restart(false)),
        CallWord::Trim => Some(TranscriptCall::Trim),
        _ => None,
    }
}

/// The call of a word and another.
fn with_one<'a>(word: CallWord, first: &str) -> Option<TranscriptCall<'a>>
    ensures found { IfSome result (λ asked. IsWithOne word first.now asked) }
    ensures none { IfNone result ((asked : AnyAsked) → IsWithOne word first.now asked → ⊥) }
{
    match word {
        CallWord::Open => Some(TranscriptCall::Open(Flags::parse(first)?)),
        CallWord::Close => Some(TranscriptCall::Close(Flags::parse(first)?)),
        CallWord::Restart => {
            let _keep = numeral::number_of(first)?;
            Some(TranscriptCall::Restart(true))
        }
        CallWord::Disconnect => Some(TranscriptCall::Disconnect(number_of(first)?)),
        _ => None,
    }
}

/// The call of a word and two others. The information text of an open is passed over.
fn with_two<'a>(word: CallWord, first: &str, second: &'a str) -> Option<TranscriptCall<'a>>
    ensures found { IfSome result (λ asked. IsWithTwo word first.now second.now asked) }
    ensures none { IfNone result ((asked : AnyAsked) → IsWithTwo word first.now second.now asked → ⊥) }
{
    match word {
        CallWord::Open => Some(TranscriptCall::Open(Flags::parse(first)?)),
        CallWord::Get => Some(TranscriptCall::Get(number_of(first)?, second)),
        CallWord::Delete => Some(TranscriptCall::Put(number_of(first)?, second, NONE)),
        CallWord::Decide => {
            let xid = xid_of(first)?;
            Some(TranscriptCall::Decide(xid, commits(second)?))
        }
        _ => None,
    }
}

/// The call of a function on a branch.
fn on_branch<'a>(
    verb: BranchVerb,
    first: &str,
    second: &str,
    third: &str,
) -> Option<TranscriptCall<'a>>
    ensures found { IfSome result (λ asked. IsWithThree (CallWord.Branch verb) first.now second.now
        third.now asked) }
    ensures none { IfNone result ((asked : AnyAsked)
        → IsWithThree (CallWord.Branch verb) first.now second.now third.now asked → ⊥) }
{
    let thread = number_of(first)?;
    let xid = xid_of(second)?;
    Some(TranscriptCall::Branch(verb, thread, xid, Flags::parse(third)?))
}

/// The call of a word and three others.
fn with_three<'a>(
    word: CallWord,
    first: &str,
    second: &'a str,
    third: &'a str,
) -> Option<TranscriptCall<'a>>
    ensures found { IfSome result (λ asked. IsWithThree word first.now second.now third.now asked) }
    ensures none { IfNone result ((asked : AnyAsked)
        → IsWithThree word first.now second.now third.now asked → ⊥) }
{
    match word {
        CallWord::Put => Some(TranscriptCall::Put(number_of(first)?, second, third)),
        CallWord::Recover => {
            let thread = number_of(first)?;
            let count = number_of(second)?;
            Some(TranscriptCall::Recover(thread, count, Flags::parse(third)?))
        }
        CallWord::Branch(verb) => on_branch(verb, first, second, third),
        _ => None,
    }
}

/// The call of a word and those after it.
fn asked_by<'a>(word: CallWord, rest: &[&'a str]) -> Option<TranscriptCall<'a>>
    ensures found { IfSome result (λ asked. AsksBy word (map (λ s. s.now) rest.now) asked) }
    ensures none { IfNone result ((asked : AnyAsked) → AsksBy word (map (λ s. s.now) rest.now) asked → ⊥) }
{
    match rest {
        [] => alone(word),
        [first] => with_one(word, first),
        [first, second] => with_two(word, first, second),
        [first, second, third] => with_three(word, first, second, third),
        _ => None,
    }
}

/// The call that words spell: None, if they spell none.
pub(crate) fn asked_in<'a>(words: &[&'a str]) -> Option<TranscriptCall<'a>>
    ensures found { IfSome result (λ asked. AsksCall (map (λ s. s.now) words.now) asked) }
    ensures none { IfNone result ((asked : AnyAsked) → AsksCall (map (λ s. s.now) words.now) asked → ⊥) }
{
    match words {
        [] => None,
        [first, rest @ ..] => asked_by(word_of(first)?, rest),
    }
}
