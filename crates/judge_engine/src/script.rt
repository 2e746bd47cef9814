//! The lines of a plan.

ghost use Rattle.std.specs.Prelude.{◌≡◌, ◌++◌, OnOk, codes};
ghost use Rattle.std.specs.Fmt.{decimal};
ghost use Rattle.judge_engine.specs.Plans.{branch_text, call_line, call_text, decision_text, flags_text, function_text, get_text, global_name, key_name, outcome_text, put_text, verb_word, xid_name};

use judge_rules::{BranchVerb, Function, JudgedCall, On, XidName, XidSort};
use spellings::hexadecimal::Hexadecimal;
use std::alloc::{AllocError, Global};
use trace_lines::{push, push_number};
use xa_codes::Flags;

/// The names of the flags of a call, joined by `+`: those of no plan are none.
fn flags_text(flags: Flags) -> &'static str
    ensures { result.now ≡ flags_text flags.0 }
{
    match flags.0 {
        0x8000_0000 => "TMASYNC",
        0x4000_0000 => "TMONEPHASE",
        0x2000_0000 => "TMFAIL",
        0x1000_0000 => "TMNOWAIT",
        0x0800_0000 => "TMRESUME",
        0x0400_0000 => "TMSUCCESS",
        0x0200_0000 => "TMSUSPEND",
        0x0100_0000 => "TMSTARTRSCAN",
        0x0080_0000 => "TMENDRSCAN",
        0x0020_0000 => "TMJOIN",
        0x0180_0000 => "TMSTARTRSCAN+TMENDRSCAN",
        0x0210_0000 => "TMSUSPEND+TMMIGRATE",
        0x0820_0000 => "TMRESUME+TMJOIN",
        0x2400_0000 => "TMFAIL+TMSUCCESS",
        0x8020_0000 => "TMASYNC+TMJOIN",
        0x8100_0000 => "TMASYNC+TMSTARTRSCAN",
        0x8400_0000 => "TMASYNC+TMSUCCESS",
        _ => "TMNOFLAGS",
    }
}

/// Adds the name of a branch's global transaction, in hexadecimal: two bytes of the plan and four of the
/// branch.
fn push_global(alloc: Global, out: &mut Vec<u8>, seed: u64, number: u32) -> Result<(), AllocError>
    ensures { OnOk result (out.new.items ≡ out.old.items ++ global_name seed number) }
{
    let plan = (seed % 65_536) as u16;
    let plan = plan.to_be_bytes();
    let branch = number.to_be_bytes();
    let plan = Hexadecimal(&plan);
    let branch = Hexadecimal(&branch);
    let text = format!(in alloc; "{plan}{branch}")?;
    push(out, &text)
}

/// Adds the name of a branch.
fn push_xid(alloc: Global, out: &mut Vec<u8>, seed: u64, xid: XidName) -> Result<(), AllocError>
    ensures { OnOk result (out.new.items ≡ out.old.items ++ xid_name seed xid) }
{
    if xid.sort == XidSort::Null {
        return push(out, "-1::");
    }
    push(out, "7:")?;
    push_global(alloc, out, seed, xid.number)?;
    push(out, ":01")
}

/// The name of a function on a branch.
fn verb_word(verb: BranchVerb) -> &'static str
    ensures { result.now ≡ verb_word verb }
{
    match verb {
        BranchVerb::Start => "start ",
        BranchVerb::End => "end ",
        BranchVerb::Prepare => "prepare ",
        BranchVerb::Commit => "commit ",
        BranchVerb::Rollback => "rollback ",
        BranchVerb::Forget => "forget ",
    }
}

/// Adds a word, a number and a space.
fn push_numbered(out: &mut Vec<u8>, word: &str, number: u32) -> Result<(), AllocError>
    ensures { OnOk result (out.new.items ≡ out.old.items ++ (word.now ++ decimal number ++ codes " ")) }
{
    push(out, word)?;
    push_number(out, u64::from(number))?;
    push(out, " ")
}

/// Adds a call on a branch.
fn push_branch(
    alloc: Global,
    out: &mut Vec<u8>,
    seed: u64,
    verb: BranchVerb,
    on: On,
) -> Result<(), AllocError>
    ensures { OnOk result (out.new.items ≡ out.old.items ++ branch_text seed verb on) }
{
    push_numbered(out, verb_word(verb), on.thread)?;
    push_xid(alloc, out, seed, on.xid)?;
    push(out, " ")?;
    push(out, flags_text(on.flags))
}

/// Adds a function of the interface.
fn push_function(
    alloc: Global,
    out: &mut Vec<u8>,
    seed: u64,
    function: Function,
) -> Result<(), AllocError>
    ensures { OnOk result (out.new.items ≡ out.old.items ++ function_text seed function) }
{
    match function {
        Function::Open(flags) => {
            push(out, "open ")?;
            push(out, flags_text(flags))
        }
        Function::Close(flags) => {
            push(out, "close ")?;
            push(out, flags_text(flags))
        }
        Function::Branch(verb, on) => push_branch(alloc, out, seed, verb, on),
        Function::Recover {
            thread,
            count,
            flags,
        } => {
            push_numbered(out, "recover ", thread)?;
            push_numbered(out, "", count)?;
            push(out, flags_text(flags))
        }
    }
}

/// Adds the key of a branch.
fn push_key(alloc: Global, out: &mut Vec<u8>, seed: u64, key: u32) -> Result<(), AllocError>
    ensures { OnOk result (out.new.items ≡ out.old.items ++ key_name seed key) }
{
    push(out, "k")?;
    push_global(alloc, out, seed, key)
}

/// Adds a write.
fn push_put(
    alloc: Global,
    out: &mut Vec<u8>,
    seed: u64,
    thread: u32,
    key: u32,
    value: u32,
) -> Result<(), AllocError>
    ensures { OnOk result (out.new.items ≡ out.old.items ++ put_text seed thread key value) }
{
    if value == 0 {
        push_numbered(out, "del ", thread)?;
        return push_key(alloc, out, seed, key);
    }
    push_numbered(out, "put ", thread)?;
    push_key(alloc, out, seed, key)?;
    push(out, " ")?;
    push_number(out, u64::from(value))
}

/// The end of the line of an operator's decision.
fn outcome_text(commits: bool) -> &'static str
    ensures { result.now ≡ outcome_text commits }
{
    if commits { " commit" } else { " rollback" }
}

/// Adds an operator's decision.
fn push_decision(
    alloc: Global,
    out: &mut Vec<u8>,
    seed: u64,
    branch: u32,
    commits: bool,
) -> Result<(), AllocError>
    ensures { OnOk result (out.new.items ≡ out.old.items ++ decision_text seed branch commits) }
{
    push(out, "heur ")?;
    let xid = XidName {
        number: branch,
        sort: XidSort::Full,
    };
    push_xid(alloc, out, seed, xid)?;
    push(out, outcome_text(commits))
}

/// Adds a lost connection.
fn push_disconnect(out: &mut Vec<u8>, thread: u32) -> Result<(), AllocError>
    ensures { OnOk result (out.new.items ≡ out.old.items ++ (codes "disconnect " ++ decimal thread)) }
{
    push(out, "disconnect ")?;
    push_number(out, u64::from(thread))
}

/// Adds a read.
fn push_get(
    alloc: Global,
    out: &mut Vec<u8>,
    seed: u64,
    thread: u32,
    key: u32,
) -> Result<(), AllocError>
    ensures { OnOk result (out.new.items ≡ out.old.items ++ get_text seed thread key) }
{
    push_numbered(out, "get ", thread)?;
    push_key(alloc, out, seed, key)
}

/// Adds a call without the end of its line.
fn push_words(
    alloc: Global,
    out: &mut Vec<u8>,
    seed: u64,
    call: JudgedCall,
) -> Result<(), AllocError>
    ensures { OnOk result (out.new.items ≡ out.old.items ++ call_text seed call) }
{
    match call {
        JudgedCall::Function(function) => push_function(alloc, out, seed, function),
        JudgedCall::Get { thread, key } => push_get(alloc, out, seed, thread, key),
        JudgedCall::Put { thread, key, value } => push_put(alloc, out, seed, thread, key, value),
        JudgedCall::Decide { branch, commits } => push_decision(alloc, out, seed, branch, commits),
        JudgedCall::Restart { .. } => push(out, "restart 0"),
        JudgedCall::Disconnect { thread } => push_disconnect(out, thread),
        JudgedCall::Trim => push(out, "trim"),
    }
}

/// Adds the line of a call.
pub(crate) fn push_call(
    alloc: Global,
    out: &mut Vec<u8>,
    seed: u64,
    call: JudgedCall,
) -> Result<(), AllocError>
    ensures { OnOk result (out.new.items ≡ out.old.items ++ call_line seed call) }
{
    push_words(alloc, out, seed, call)?;
    push(out, "\n")
}
