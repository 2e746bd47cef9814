//! The line of a request.

ghost use Rattle.std.specs.Prelude.{◌≡◌, ◌↔◌, ℕ, Bool, IsTrue, IfOk, IfSome, IfNone, option_map};
ghost use Rattle.std.specs.Char.{IsAsciiAlphabetic};
ghost use Rattle.std.specs.List.{All};
ghost use Rattle.xa_codes.specs.FlagNames.{IsFlagText};
ghost use Rattle.xa_xid.specs.declared.xid.Xid.{Xid as AnyXid};
ghost use Rattle.protocol.specs.declared.messages.Op.{Op as AnyOp};
ghost use Rattle.protocol_words.specs.Types.{AnyOutcome};
ghost use Rattle.script_words.specs.Operations.{op_view};
ghost use Rattle.xa_engine.specs.declared.script.request.Request.{Request as AnyRequest};
ghost use Rattle.xa_engine.specs.script.Requests.{IsAlone, IsInfoText, IsNumber, SpellsRequest, SpellsBranch, SpellsCall, SpellsDecision, SpellsOpen, SpellsRecover, SpellsTask, SpellsWork, three_at, word_at};

use protocol::{Op, Outcome};
use script_words::{Task, outcome_of, task_by};
use spellings::numeral;
use spellings::word::cut;
use std::alloc::{AllocError, Global};
use xa_codes::Flags;
use xa_xid::Xid;

/// A function of the interface that is called on a branch.
#[derive(Clone, Copy, PartialEq, Eq)]
pub enum BranchCall {
    Start,
    End,
    Prepare,
    Commit,
    Rollback,
    Forget,
}

/// What a line of a script asks of the manager.
#[derive(Drop)]
pub enum Request {
    /// The manager is opened, and migrates associations or not.
    Open {
        flags: Flags,
        migrates: bool,
    },
    Close {
        flags: Flags,
    },
    Branch {
        call: BranchCall,
        thread: u32,
        xid: Xid,
        flags: Flags,
    },
    Recover {
        thread: u32,
        count: u32,
        flags: Flags,
    },
    /// An operation on data by a thread, in the branch that it is active in.
    Work {
        thread: u32,
        op: Op,
    },
    /// The manager stops and restarts. Of the bytes of its log that are not forced N are kept, the
    /// first ones; all of them, where it is None.
    Restart {
        keep: Option<u64>,
    },
    /// The log is trimmed.
    Trim,
    /// An operator decides a branch.
    Decide {
        xid: Xid,
        outcome: Outcome,
    },
}

/// What the first word of a line asks for.
#[derive(Clone, Copy, PartialEq, Eq)]
pub enum RequestWord {
    Call(RequestCall),
    /// An operation on data.
    Work,
}

/// A call of a function, a restart, a trim or an operator's decision.
#[derive(Clone, Copy, PartialEq, Eq)]
pub enum RequestCall {
    Open,
    Close,
    Recover,
    Restart,
    Trim,
    Decide,
    Branch(BranchCall),
}

/// What a word asks for.
fn word_of(word: &str) -> Option<RequestWord>
    ensures { result ≡ word_at word.now }
{
    match word {
        "open" => Some(RequestWord::Call(RequestCall::Open)),
        "close" => Some(RequestWord::Call(RequestCall::Close)),
        "recover" => Some(RequestWord::Call(RequestCall::Recover)),
        "restart" => Some(RequestWord::Call(RequestCall::Restart)),
        "trim" => Some(RequestWord::Call(RequestCall::Trim)),
        "heur" => Some(RequestWord::Call(RequestCall::Decide)),
        "start" => Some(RequestWord::Call(RequestCall::Branch(BranchCall::Start))),
        "end" => Some(RequestWord::Call(RequestCall::Branch(BranchCall::End))),
        "prepare" => Some(RequestWord::Call(RequestCall::Branch(BranchCall::Prepare))),
        "commit" => Some(RequestWord::Call(RequestCall::Branch(BranchCall::Commit))),
        "rollback" => Some(RequestWord::Call(RequestCall::Branch(BranchCall::Rollback))),
        "forget" => Some(RequestWord::Call(RequestCall::Branch(BranchCall::Forget))),
        "get" | "put" | "del" => Some(RequestWord::Work),
        _ => None,
    }
}

/// The request of a line. None: it spells none.
pub(crate) fn request_of(alloc: Global, line: &str) -> Result<Option<Request>, AllocError>
    ensures found { IfOk result (λ read. IfSome read (λ request. SpellsRequest line.now request)) }
    ensures none { IfOk result (λ read. IfNone read
        ((request : AnyRequest) → SpellsRequest line.now request → ⊥)) }
{
    match cut(line, ' ') {
        None => Ok(alone_of(line)),
        Some((word, rest)) => match word_of(word) {
            None => Ok(None),
            Some(RequestWord::Call(call)) => Ok(call_of(call, rest)),
            Some(RequestWord::Work) => work_of(alloc, word, rest),
        },
    }
}

/// The request of a line of one word.
fn alone_of(line: &str) -> Option<Request>
    ensures found { IfSome result (λ request. IsAlone line.now request) }
    ensures none { IfNone result ((request : AnyRequest) → IsAlone line.now request → ⊥) }
{
    match word_of(line) {
        Some(RequestWord::Call(RequestCall::Restart)) => Some(Request::Restart { keep: None }),
        Some(RequestWord::Call(RequestCall::Trim)) => Some(Request::Trim),
        _ => None,
    }
}

/// The request of a call, by what is after its name.
fn call_of(call: RequestCall, rest: &str) -> Option<Request>
    ensures found { IfSome result (λ request. SpellsCall call rest.now request) }
    ensures none { IfNone result ((request : AnyRequest) → SpellsCall call rest.now request → ⊥) }
{
    match call {
        RequestCall::Open => {
            let (flags, migrates) = open_of(rest)?;
            Some(Request::Open { flags, migrates })
        }
        RequestCall::Close => {
            let flags = Flags::parse(rest)?;
            Some(Request::Close { flags })
        }
        RequestCall::Recover => {
            let (thread, count, flags) = recover_of(rest)?;
            Some(Request::Recover {
                thread,
                count,
                flags,
            })
        }
        RequestCall::Restart => {
            let keep = numeral::number_of(rest)?;
            Some(Request::Restart { keep: Some(keep) })
        }
        RequestCall::Trim => None,
        RequestCall::Decide => {
            let (xid, outcome) = decision_of(rest)?;
            Some(Request::Decide { xid, outcome })
        }
        RequestCall::Branch(call) => {
            let (thread, xid, flags) = branch_of(rest)?;
            Some(Request::Branch {
                call,
                thread,
                xid,
                flags,
            })
        }
    }
}

/// The request of an operation on data, by its verb and what is after it.
fn work_of(alloc: Global, verb: &str, rest: &str) -> Result<Option<Request>, AllocError>
    ensures found { IfOk result (λ read. IfSome read (λ request. SpellsWork verb.now rest.now request)) }
    ensures none { IfOk result (λ read. IfNone read ((request : AnyRequest)
        → SpellsWork verb.now rest.now request → ⊥)) }
{
    match task_of(verb, rest) {
        None => Ok(None),
        Some((thread, task)) => {
            let op = task.copied(alloc)?;
            Ok(Some(Request::Work { thread, op }))
        }
    }
}

/// The thread of an operation on data, and the operation.
fn task_of<'a>(verb: &str, rest: &'a str) -> Option<(u32, Task<'a>)>
    ensures found { IfSome result (λ p. SpellsTask verb.now rest.now p.0 (op_view p.1)) }
    ensures none { IfNone result ((thread : ℕ) (op : AnyOp) → SpellsTask verb.now rest.now thread op → ⊥) }
{
    let (thread, rest) = cut(rest, ' ')?;
    let thread = number_of(thread)?;
    let task = task_by(verb, rest)?;
    Some((thread, task))
}

/// The flags of an `open`, and whether it migrates.
fn open_of(rest: &str) -> Option<(Flags, bool)>
    ensures found { IfSome result (λ o. SpellsOpen rest.now o.0.0 o.1) }
    ensures none { IfNone result ((flags : ℕ) (migrates : Bool) → SpellsOpen rest.now flags migrates → ⊥) }
{
    match cut(rest, ' ') {
        None => {
            let flags = Flags::parse(rest)?;
            Some((flags, true))
        }
        Some((flags, info)) => {
            let flags = Flags::parse(flags)?;
            if is_info(info) {
                Some((flags, info != "nomigrate"))
            } else {
                None
            }
        }
    }
}

/// The two words that a text begins with, and what is after them.
#[tactic(auto, unfolding(crate::specs::script::Requests::three_at))]
fn three_of(rest: &str) -> Option<(&str, &str, &str)>
    ensures { option_map (λ p. (p.0.now, p.1.now, p.2.now)) result ≡ three_at rest.now }
{
    let (first, rest) = cut(rest, ' ')?;
    let (second, third) = cut(rest, ' ')?;
    Some((first, second, third))
}

/// The thread, the count and the flags of a `recover`.
fn recover_of(rest: &str) -> Option<(u32, u32, Flags)>
    ensures found { IfSome result (λ p. SpellsRecover rest.now p.0 p.1 p.2.0) }
    ensures none { IfNone result ((thread count flags : ℕ) → SpellsRecover rest.now thread count flags → ⊥) }
{
    let (thread, count, flags) = three_of(rest)?;
    let thread = number_of(thread)?;
    let count = number_of(count)?;
    let flags = Flags::parse(flags)?;
    Some((thread, count, flags))
}

/// The thread, the branch and the flags of a call on a branch.
fn branch_of(rest: &str) -> Option<(u32, Xid, Flags)>
    ensures found { IfSome result (λ p. SpellsBranch rest.now p.0 p.1 p.2.0) }
    ensures none { IfNone result ((thread : ℕ) (xid : AnyXid) (flags : ℕ)
        → SpellsBranch rest.now thread xid flags → ⊥) }
{
    let (thread, xid, flags) = three_of(rest)?;
    let thread = number_of(thread)?;
    let Ok(xid) = Xid::parse(xid) else {
        return None;
    };
    let flags = Flags::parse(flags)?;
    Some((thread, xid, flags))
}

/// The branch of an operator's decision, and the outcome.
fn decision_of(rest: &str) -> Option<(Xid, Outcome)>
    ensures found { IfSome result (λ p. SpellsDecision rest.now p.0 p.1) }
    ensures none { IfNone result ((xid : AnyXid) (outcome : AnyOutcome)
        → SpellsDecision rest.now xid outcome → ⊥) }
{
    let (xid, word) = cut(rest, ' ')?;
    let Ok(xid) = Xid::parse(xid) else {
        return None;
    };
    let outcome = outcome_of(word)?;
    Some((xid, outcome))
}

/// Whether a word is an information text: 1 to 32 ASCII letters.
fn is_info(word: &str) -> bool
    ensures { IsTrue result ↔ IsInfoText word.now }
{
    !word.is_empty() && word.len() <= 32 && are_letters(word.as_bytes())
}

fn are_letters(word: &[u8]) -> bool
    ensures { IsTrue result ↔ All IsAsciiAlphabetic word.now }
{
    word.iter().all(|b| b.is_ascii_alphabetic())
}

/// The number below 2^32 that a word spells in decimal, without leading zeros.
fn number_of(word: &str) -> Option<u32>
    ensures found { IfSome result (λ n. IsNumber word.now n) }
    ensures none { IfNone result ((n : ℕ) → IsNumber word.now n → ⊥) }
{
    let number = numeral::number_of(word)?;
    if number < 1 << 32 {
        Some(number as u32)
    } else {
        None
    }
}
