//! The states that may follow a state, by a call and its answer.

ghost use Rattle.std.specs.Prelude.{◌≡◌, IfErr, IfOk};
ghost use Rattle.judge_state.specs.Moves.{hung};
ghost use Rattle.judge_rules.specs.Passes.{one};
ghost use Rattle.judge_rules.specs.Sets.{AreAlike, AreTooManyStates, IsSetOf};
ghost use Rattle.judge_rules.specs.Steps.{branch_next, branch_rows, by_defects, decide_next, disconnect_next, function_next, get_next, is_answered, next, open_next, outcome, put_next, recover_next, recover_rows, restart_next, trim_next, waits};

use crate::branch::{both, one, same_if};
use crate::calls::{BranchVerb, Function, JudgedAnswer, JudgedCall, On};
use crate::data::{read_rows, write_row};
use crate::defects::{Refusals, is_among, is_defective};
use crate::errors::JudgeError;
use crate::falls::{after_cut, after_restart, effects, failed};
use crate::opening::open_rows;
use crate::passes::branch_passes;
use crate::replies::{Reply, reply_of};
use crate::rows::{
    branch_defects, branch_excuses, close_defects, open_defects, recover_defects, recover_excuses,
};
use crate::scan::given_rows;
use crate::sets::each_once;
use crate::words::Rules;
use judge_state::{JudgedDecision, State};
use std::alloc::{AllocError, Global};
use xa_codes::Flags;

/// A call on a branch, by whether it has a defect.
fn by_defects(
    alloc: Global,
    rules: Rules,
    verb: BranchVerb,
    state: &State,
    on: On,
    reply: Reply,
) -> Result<Vec<State>, AllocError>
    ensures { IfOk result (λ v. v.items ≡ by_defects rules verb state.now on reply) }
{
    let defects = branch_defects(rules, verb, state, on);
    if is_defective(defects) {
        return same_if(alloc, is_among(defects, reply), state);
    }
    let passes = branch_passes(alloc, rules, verb, state, on, reply)?;
    let effects = effects(alloc, rules, verb, state, on, reply)?;
    both(passes, effects)
}

/// A call on a branch.
fn branch_rows(
    alloc: Global,
    rules: Rules,
    verb: BranchVerb,
    state: &State,
    on: On,
    reply: Reply,
) -> Result<Vec<State>, AllocError>
    ensures { IfOk result (λ v. v.items ≡ branch_rows rules verb state.now on reply) }
{
    let excuses = branch_excuses(rules, verb, state, on);
    let excused = same_if(alloc, is_among(excuses, reply), state)?;
    let failed = failed(alloc, rules, state, reply)?;
    let rest = by_defects(alloc, rules, verb, state, on, reply)?;
    both(both(excused, failed)?, rest)
}

/// A recover that is answered by a code.
fn recover_rows(
    alloc: Global,
    rules: Rules,
    state: &State,
    thread: u32,
    flags: Flags,
    reply: Reply,
) -> Result<Vec<State>, AllocError>
    ensures { IfOk result (λ v. v.items ≡ recover_rows rules state.now thread flags.0 reply) }
{
    let excuses = recover_excuses(rules, state, thread, flags);
    let defects = recover_defects(rules, state, thread, flags);
    let excused = same_if(alloc, is_among(excuses, reply), state)?;
    let failed = failed(alloc, rules, state, reply)?;
    let refused = same_if(alloc, is_among(defects, reply), state)?;
    both(both(excused, failed)?, refused)
}

/// A call got no answer.
fn hangs(alloc: Global, state: &State) -> Result<Vec<State>, AllocError>
    ensures { IfOk result (λ v. v.items ≡ one (hung state.now)) }
{
    one(alloc, state.copied(alloc)?.hung())
}

/// A call without an answer waits, if it need not be refused.
fn waits(alloc: Global, defects: Refusals, state: &State) -> Result<Vec<State>, AllocError>
    ensures { IfOk result (λ v. v.items ≡ waits defects state.now) }
{
    if is_defective(defects) {
        Ok(Vec::new(alloc))
    } else {
        hangs(alloc, state)
    }
}

/// A call on a branch, by its answer.
fn branch_next(
    alloc: Global,
    rules: Rules,
    verb: BranchVerb,
    state: &State,
    on: On,
    answer: &JudgedAnswer,
) -> Result<Vec<State>, AllocError>
    ensures { IfOk result (λ v. v.items ≡ branch_next rules verb state.now on answer.now) }
{
    match answer {
        JudgedAnswer::Code(code) => branch_rows(alloc, rules, verb, state, on, reply_of(*code)),
        JudgedAnswer::Hung => waits(alloc, branch_defects(rules, verb, state, on), state),
        _ => Ok(Vec::new(alloc)),
    }
}

/// An open or a close, by its answer.
fn open_next(
    alloc: Global,
    rules: Rules,
    defects: Refusals,
    opens: bool,
    state: &State,
    answer: &JudgedAnswer,
) -> Result<Vec<State>, AllocError>
    ensures { IfOk result (λ v. v.items ≡ open_next rules defects opens state.now answer.now) }
{
    match answer {
        JudgedAnswer::Code(code) => open_rows(alloc, rules, defects, opens, state, reply_of(*code)),
        JudgedAnswer::Hung => waits(alloc, defects, state),
        _ => Ok(Vec::new(alloc)),
    }
}

/// A recover, by its answer.
fn recover_next(
    alloc: Global,
    rules: Rules,
    state: &State,
    thread: u32,
    count: u32,
    flags: Flags,
    answer: &JudgedAnswer,
) -> Result<Vec<State>, AllocError>
    ensures { IfOk result (λ v. v.items ≡ recover_next rules state.now thread count flags.0 answer.now) }
{
    let defects = recover_defects(rules, state, thread, flags);
    match answer {
        JudgedAnswer::Code(code) => {
            recover_rows(alloc, rules, state, thread, flags, reply_of(*code))
        }
        JudgedAnswer::Given(given) => {
            if is_defective(defects) {
                Ok(Vec::new(alloc))
            } else {
                given_rows(alloc, rules, state, thread, count, flags, given)
            }
        }
        JudgedAnswer::Hung => waits(alloc, defects, state),
        _ => Ok(Vec::new(alloc)),
    }
}

/// A read, by its answer.
fn get_next(
    alloc: Global,
    rules: Rules,
    state: &State,
    thread: u32,
    key: u32,
    answer: &JudgedAnswer,
) -> Result<Vec<State>, AllocError>
    ensures { IfOk result (λ v. v.items ≡ get_next rules state.now thread key answer.now) }
{
    match answer {
        JudgedAnswer::Found(value) => {
            read_rows(
                alloc,
                rules,
                state.active(thread),
                thread,
                key,
                *value,
                state,
            )
        }
        JudgedAnswer::Refused | JudgedAnswer::Code(_) => one(alloc, state.copied(alloc)?),
        JudgedAnswer::Hung => hangs(alloc, state),
        _ => Ok(Vec::new(alloc)),
    }
}

/// A write, by its answer.
fn put_next(
    alloc: Global,
    state: &State,
    thread: u32,
    key: u32,
    value: u32,
    answer: &JudgedAnswer,
) -> Result<Vec<State>, AllocError>
    ensures { IfOk result (λ v. v.items ≡ put_next state.now thread key value answer.now) }
{
    match answer {
        JudgedAnswer::Done => {
            let written = write_row(alloc, state.active(thread), thread, key, value, state)?;
            one(alloc, written)
        }
        JudgedAnswer::Refused | JudgedAnswer::Code(_) => one(alloc, state.copied(alloc)?),
        JudgedAnswer::Hung => hangs(alloc, state),
        _ => Ok(Vec::new(alloc)),
    }
}

/// What an operator decides.
fn outcome(commits: bool) -> JudgedDecision
    ensures { result ≡ outcome commits }
{
    if commits {
        JudgedDecision::Commit
    } else {
        JudgedDecision::Rollback
    }
}

/// An operator's decision, by its answer.
fn decide_next(
    alloc: Global,
    state: &State,
    x: u32,
    commits: bool,
    answer: &JudgedAnswer,
) -> Result<Vec<State>, AllocError>
    ensures { IfOk result (λ v. v.items ≡ decide_next state.now x commits answer.now) }
{
    match answer {
        JudgedAnswer::Done => {
            if state.is_prepared_at(x) {
                let decided = state.copied(alloc)?.decided(alloc, x, outcome(commits))?;
                one(alloc, decided)
            } else {
                Ok(Vec::new(alloc))
            }
        }
        JudgedAnswer::Refused | JudgedAnswer::Code(_) => one(alloc, state.copied(alloc)?),
        JudgedAnswer::Hung => hangs(alloc, state),
        _ => Ok(Vec::new(alloc)),
    }
}

/// Whether an answer came.
fn is_answered(answer: &JudgedAnswer) -> bool
    ensures { result ≡ is_answered answer.now }
{
    !matches!(answer, JudgedAnswer::Hung)
}

/// A restart, by whether an answer came.
fn restart_next(
    alloc: Global,
    rules: Rules,
    cut: bool,
    state: &State,
    answer: &JudgedAnswer,
) -> Result<Vec<State>, JudgeError>
    ensures states { IfOk result (λ v. IsSetOf (restart_next rules cut state.now answer.now) v.items) }
    ensures too_many { IfErr result (λ e. e ≡ JudgeError.TooMany
        → AreTooManyStates (restart_next rules cut state.now answer.now)) }
{
    if is_answered(answer) {
        after_restart(alloc, rules, cut, state)
    } else {
        Ok(hangs(alloc, state)?)
    }
}

/// A lost connection, by whether an answer came.
fn disconnect_next(
    alloc: Global,
    thread: u32,
    state: &State,
    answer: &JudgedAnswer,
) -> Result<Vec<State>, JudgeError>
    ensures states { IfOk result (λ v. IsSetOf (disconnect_next thread state.now answer.now) v.items) }
    ensures too_many { IfErr result (λ e. e ≡ JudgeError.TooMany
        → AreTooManyStates (disconnect_next thread state.now answer.now)) }
{
    if is_answered(answer) {
        after_cut(alloc, thread, state)
    } else {
        Ok(hangs(alloc, state)?)
    }
}

/// A trim, by whether an answer came.
fn trim_next(alloc: Global, state: &State, answer: &JudgedAnswer) -> Result<Vec<State>, AllocError>
    ensures { IfOk result (λ v. v.items ≡ trim_next state.now answer.now) }
{
    if is_answered(answer) {
        one(alloc, state.copied(alloc)?)
    } else {
        hangs(alloc, state)
    }
}

/// An open, a close or a call on a branch, by its answer.
fn function_next(
    alloc: Global,
    rules: Rules,
    state: &State,
    function: Function,
    answer: &JudgedAnswer,
) -> Result<Vec<State>, AllocError>
    ensures { IfOk result (λ v. v.items ≡ function_next rules state.now function answer.now) }
{
    match function {
        Function::Open(flags) => {
            open_next(alloc, rules, open_defects(flags), true, state, answer)
        }
        Function::Close(flags) => {
            let defects = close_defects(state, flags);
            open_next(alloc, rules, defects, false, state, answer)
        }
        Function::Branch(verb, on) => branch_next(alloc, rules, verb, state, on, answer),
        Function::Recover {
            thread,
            count,
            flags,
        } => recover_next(alloc, rules, state, thread, count, flags, answer),
    }
}

/// The states that may follow a state, by a call and its answer, each once: none, if the answer is not
/// admitted. It is refused if memory is, and if there are too many of them.
pub fn next(
    alloc: Global,
    rules: Rules,
    state: &State,
    call: JudgedCall,
    answer: &JudgedAnswer,
) -> Result<Vec<State>, JudgeError>
    ensures states { IfOk result (λ v. IsSetOf (next rules state.now call answer.now) v.items) }
    ensures too_many { IfErr result (λ e. e ≡ JudgeError.TooMany
        → AreTooManyStates (next rules state.now call answer.now)) }
{
    if state.is_hung() {
        return Ok(one(alloc, state.copied(alloc)?)?);
    }
    match call {
        JudgedCall::Function(function) => {
            let states = function_next(alloc, rules, state, function, answer)?;
            each_once(alloc, states)
        }
        JudgedCall::Get { thread, key } => {
            let states = get_next(alloc, rules, state, thread, key, answer)?;
            each_once(alloc, states)
        }
        JudgedCall::Put { thread, key, value } => {
            let states = put_next(alloc, state, thread, key, value, answer)?;
            each_once(alloc, states)
        }
        JudgedCall::Decide { branch, commits } => {
            let states = decide_next(alloc, state, branch, commits, answer)?;
            each_once(alloc, states)
        }
        JudgedCall::Restart { cut } => restart_next(alloc, rules, cut, state, answer),
        JudgedCall::Disconnect { thread } => disconnect_next(alloc, thread, state, answer),
        JudgedCall::Trim => each_once(alloc, trim_next(alloc, state, answer)?),
    }
}
