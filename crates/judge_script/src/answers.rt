//! The answer of a line.

ghost use Rattle.std.specs.Prelude.{◌≡◌, IfNone, IfOk, IfSome, List, map, [], false};
ghost use Rattle.std.specs.Global.{Vec as AnyVec};
ghost use Rattle.xa_codes.specs.declared.code.Code.{Code as AnyCode};
ghost use Rattle.xa_codes.specs.Codes.{code_name};
ghost use Rattle.xa_xid.specs.declared.xid.Xid.{Xid as AnyXid};
ghost use Rattle.judge_script.specs.declared.answers.SaidAnswer.{SaidAnswer as AnySaid};
ghost use Rattle.judge_script.specs.Words.{Is};
ghost use Rattle.judge_script.specs.Answers.{AreNames, IsGiven, SaysAnswer, SaysBy, is_refusal, is_told};

use crate::asking::xid_of;
use spellings::numeral;
use std::alloc::{AllocError, Global};
use xa_codes::Code;
use xa_xid::Xid;

/// What a line answers, a value in the line.
#[derive(Drop)]
pub enum SaidAnswer<'a> {
    Code(Code),
    Given(Vec<Xid>),
    Found(&'a str),
    Done,
    Refused,
    Told,
    Hung,
}

/// The code that a word names.
fn code_of(word: &str) -> Option<Code>
    ensures found { IfSome result (λ code. Is word.now (code_name code)) }
    ensures none { IfNone result ((code : AnyCode) → Is word.now (code_name code) → ⊥) }
{
    match word {
        "XA_RBROLLBACK" => Some(Code::RbRollback),
        "XA_RBCOMMFAIL" => Some(Code::RbCommFail),
        "XA_RBDEADLOCK" => Some(Code::RbDeadlock),
        "XA_RBINTEGRITY" => Some(Code::RbIntegrity),
        "XA_RBOTHER" => Some(Code::RbOther),
        "XA_RBPROTO" => Some(Code::RbProto),
        "XA_RBTIMEOUT" => Some(Code::RbTimeout),
        "XA_RBTRANSIENT" => Some(Code::RbTransient),
        "XA_NOMIGRATE" => Some(Code::NoMigrate),
        "XA_HEURHAZ" => Some(Code::HeurHaz),
        "XA_HEURCOM" => Some(Code::HeurCom),
        "XA_HEURRB" => Some(Code::HeurRb),
        "XA_HEURMIX" => Some(Code::HeurMix),
        "XA_RETRY" => Some(Code::Retry),
        "XA_RDONLY" => Some(Code::RdOnly),
        "XA_OK" => Some(Code::Ok),
        "XAER_ASYNC" => Some(Code::Async),
        "XAER_RMERR" => Some(Code::RmErr),
        "XAER_NOTA" => Some(Code::NotA),
        "XAER_INVAL" => Some(Code::Inval),
        "XAER_PROTO" => Some(Code::Proto),
        "XAER_RMFAIL" => Some(Code::RmFail),
        "XAER_DUPID" => Some(Code::DupId),
        "XAER_OUTSIDE" => Some(Code::Outside),
        _ => None,
    }
}

/// The XIDs that words spell: None, if one of them spells none.
fn xids_of(alloc: Global, words: &[&str]) -> Result<Option<Vec<Xid>>, AllocError>
    ensures found { IfOk result (λ read. IfSome read
        (λ xids. AreNames (map (λ s. s.now) words.now) xids.items)) }
    ensures none { IfOk result (λ read. IfNone read ((xids : List AnyXid)
        → AreNames (map (λ s. s.now) words.now) xids → ⊥)) }
{
    let mut xids = Vec::new(alloc);
    for word in words {
        match xid_of(word) {
            Some(xid) => xids.push(xid)?,
            None => return Ok(None),
        }
    }
    Ok(Some(xids))
}

/// A number of branches, and as many names.
fn given_of<'a>(
    alloc: Global,
    first: &str,
    rest: &[&str],
) -> Result<Option<SaidAnswer<'a>>, AllocError>
    ensures found { IfOk result (λ read. IfSome read
        (λ said. SaysBy first.now (map (λ s. s.now) rest.now) said)) }
    ensures none { IfOk result (λ read. IfNone read ((xids : AnyVec AnyXid)
        → SaysBy first.now (map (λ s. s.now) rest.now) (SaidAnswer.Given xids) → ⊥)) }
{
    match numeral::number_of(first) {
        Some(number) if number == rest.len() as u64 => match xids_of(alloc, rest)? {
            Some(xids) => Ok(Some(SaidAnswer::Given(xids))),
            None => Ok(None),
        },
        _ => Ok(None),
    }
}

/// An answer of one word, but for a number.
fn said_alone<'a>(word: &str) -> Option<SaidAnswer<'a>>
    requires { is_refusal word.now ≡ false }
    ensures found { IfSome result (λ said. SaysBy word.now [] said) }
    ensures none { IfNone result ((said : AnySaid) → SaysBy word.now [] said → IsGiven said) }
{
    match word {
        "done" => Some(SaidAnswer::Done),
        "hung" => Some(SaidAnswer::Hung),
        _ => Some(SaidAnswer::Code(code_of(word)?)),
    }
}

/// Whether a word begins a refusal without a code of XA.
fn refuses(word: &str) -> bool
    ensures { result ≡ is_refusal word.now }
{
    matches!(word, "refused" | "threw" | "XA")
}

/// Whether a word begins the answer of a restart or a trim.
fn tells(word: &str) -> bool
    ensures { result ≡ is_told word.now }
{
    matches!(word, "boot" | "trim")
}

/// An answer of a word that is no number and the words after it.
fn said_by<'a>(first: &str, rest: &[&'a str]) -> Option<SaidAnswer<'a>>
    ensures found { IfSome result (λ said. SaysBy first.now (map (λ s. s.now) rest.now) said) }
    ensures none { IfNone result ((said : AnySaid) → SaysBy first.now (map (λ s. s.now) rest.now) said
        → IsGiven said) }
{
    if refuses(first) {
        return Some(SaidAnswer::Refused);
    }
    match rest {
        [] => said_alone(first),
        [second] => {
            if first == "=" {
                Some(SaidAnswer::Found(second))
            } else if tells(first) {
                Some(SaidAnswer::Told)
            } else {
                None
            }
        }
        _ => None,
    }
}

/// The answer that words spell: None, if they spell none.
pub(crate) fn said_in<'a>(
    alloc: Global,
    words: &[&'a str],
) -> Result<Option<SaidAnswer<'a>>, AllocError>
    ensures found { IfOk result (λ read. IfSome read (λ said. SaysAnswer (map (λ s. s.now) words.now) said)) }
    ensures none { IfOk result (λ read. IfNone read ((said : AnySaid)
        → SaysAnswer (map (λ s. s.now) words.now) said → ⊥)) }
{
    match words {
        [] => Ok(None),
        [first, rest @ ..] => match said_by(first, rest) {
            Some(said) => Ok(Some(said)),
            None => given_of(alloc, first, rest),
        },
    }
}
