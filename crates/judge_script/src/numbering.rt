//! Events, their names numbered.

ghost use Rattle.std.specs.Prelude.{IfOk, OnOk};
ghost use Rattle.judge_script.specs.Numbers.{Grows, IsLineAnswer, IsCall, table_of};

use crate::answers::SaidAnswer;
use crate::asking::TranscriptCall;
use crate::names::{Names, number_word, number_xid, number_xids, sort_of};
use judge_rules::{BranchVerb, Function, HistoryEvent, JudgedAnswer, JudgedCall, On, XidName};
use std::alloc::{AllocError, Global};
use xa_codes::Flags;
use xa_xid::Xid;

/// A call on a branch, its name numbered.
fn number_branch(
    names: &mut Names<'_>,
    verb: BranchVerb,
    thread: u32,
    xid: Xid,
    flags: Flags,
) -> Result<JudgedCall, AllocError>
    ensures call { IfOk result (λ call. IsCall (table_of names.new)
        (TranscriptCall.Branch verb thread xid flags) call) }
    ensures grows { OnOk result (Grows (table_of names.old) (table_of names.new)) }
{
    let number = number_xid(&mut names.xids, xid)?;
    let xid = XidName {
        number,
        sort: sort_of(&xid),
    };
    Ok(JudgedCall::Function(Function::Branch(verb, On { thread, xid, flags })))
}

/// A call, its names numbered.
pub(crate) fn number_call<'a>(
    names: &mut Names<'a>,
    asked: &TranscriptCall<'a>,
) -> Result<JudgedCall, AllocError>
    ensures call { IfOk result (λ call. IsCall (table_of names.new) asked.now call) }
    ensures grows { OnOk result (Grows (table_of names.old) (table_of names.new)) }
{
    match asked {
        TranscriptCall::Open(flags) => Ok(JudgedCall::Function(Function::Open(*flags))),
        TranscriptCall::Close(flags) => Ok(JudgedCall::Function(Function::Close(*flags))),
        TranscriptCall::Branch(verb, thread, xid, flags) => {
            number_branch(names, *verb, *thread, *xid, *flags)
        }
        TranscriptCall::Recover(thread, count, flags) => Ok(JudgedCall::Function(
            Function::Recover {
                thread: *thread,
                count: *count,
                flags: *flags,
            },
        )),
        TranscriptCall::Get(thread, key) => {
            let key = number_word(&mut names.words, key)?;
            Ok(JudgedCall::Get {
                thread: *thread,
                key,
            })
        }
        TranscriptCall::Put(thread, key, value) => {
            let key = number_word(&mut names.words, key)?;
            let value = number_word(&mut names.words, value)?;
            Ok(JudgedCall::Put {
                thread: *thread,
                key,
                value,
            })
        }
        TranscriptCall::Decide(xid, commits) => {
            let branch = number_xid(&mut names.xids, *xid)?;
            Ok(JudgedCall::Decide {
                branch,
                commits: *commits,
            })
        }
        TranscriptCall::Restart(cut) => Ok(JudgedCall::Restart { cut: *cut }),
        TranscriptCall::Disconnect(thread) => Ok(JudgedCall::Disconnect { thread: *thread }),
        TranscriptCall::Trim => Ok(JudgedCall::Trim),
    }
}

/// An answer, its names numbered.
pub(crate) fn number_answer<'a>(
    alloc: Global,
    names: &mut Names<'a>,
    said: &SaidAnswer<'a>,
) -> Result<JudgedAnswer, AllocError>
    ensures answer { IfOk result (λ answer. IsLineAnswer (table_of names.new) said.now answer) }
    ensures grows { OnOk result (Grows (table_of names.old) (table_of names.new)) }
{
    match said {
        SaidAnswer::Code(code) => Ok(JudgedAnswer::Code(*code)),
        SaidAnswer::Given(xids) => Ok(JudgedAnswer::Given(number_xids(
            alloc,
            &mut names.xids,
            xids,
        )?)),
        SaidAnswer::Found(value) => Ok(JudgedAnswer::Found(number_word(&mut names.words, value)?)),
        SaidAnswer::Done => Ok(JudgedAnswer::Done),
        SaidAnswer::Refused => Ok(JudgedAnswer::Refused),
        SaidAnswer::Told => Ok(JudgedAnswer::Told),
        SaidAnswer::Hung => Ok(JudgedAnswer::Hung),
    }
}

/// A call and its answer, their names numbered.
pub(crate) fn number_event<'a>(
    alloc: Global,
    names: &mut Names<'a>,
    asked: &TranscriptCall<'a>,
    said: &SaidAnswer<'a>,
) -> Result<HistoryEvent, AllocError>
    ensures call { IfOk result (λ event. IsCall (table_of names.new) asked.now event.call) }
    ensures answer { IfOk result (λ event. IsLineAnswer (table_of names.new) said.now event.answer) }
    ensures grows { OnOk result (Grows (table_of names.old) (table_of names.new)) }
{
    let call = number_call(names, asked)?;
    let answer = number_answer(alloc, names, said)?;
    Ok(HistoryEvent { call, answer })
}
