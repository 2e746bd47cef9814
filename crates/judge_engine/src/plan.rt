//! Plans: scripts of calls that walk the rows of XA's tables, legal and illegal calls mixed.
//!
//! The rules of the judge themselves steer the choice: a state is kept that the manager may be in, and of
//! most calls it is seen to that they may be answered XA_OK there.

ghost use Rattle.std.specs.Prelude.{◌≡◌, ◌⊎◌, ◌∷◌, [], ℕ, List, IfErr, IfOk, OnOk};
ghost use Rattle.std.specs.Io.KnownBytes.{Appends, Keeps};
ghost use Rattle.report_io.specs.Streams.{WritesFront};
ghost use Rattle.judge_engine.specs.Plans.{IsPlan, OpensFirst};

use crate::random::Random;
use crate::script::push_call;
use judge_rules::{
    BranchVerb, Function, JudgeError, JudgedAnswer, JudgedCall, Lacks, Never, On, Rules, XidName,
    XidSort, next,
};
use judge_state::State;
use report_io::{Failure, write_all};
use std::alloc::Global;
use std::io::Write;
use xa_codes::{Code, Flags};

/// A manager that does what it is asked.
const RULES: Rules = Rules {
    never: Never {
        heuristics: true,
        failures: true,
        rollback: true,
    },
    lacks: Lacks {
        join: false,
        suspend: false,
        migrate: false,
        threads: false,
        scan: false,
        count: false,
        opening: false,
        forced: false,
        isolation: false,
        empty_bqual: false,
    },
};

/// How many calls are looked at for one that is legal.
const TRIES: u32 = 48;

/// N of them are of one kind.
const OF_A_KIND: u32 = 12;

/// Flags of a start, those of legal calls oftener.
const STARTS: [Flags; 12] = [
    Flags::TMNOFLAGS,
    Flags::TMNOFLAGS,
    Flags::TMNOFLAGS,
    Flags::TMNOFLAGS,
    Flags::TMJOIN,
    Flags::TMJOIN,
    Flags::TMRESUME,
    Flags::TMRESUME,
    Flags::TMNOWAIT,
    Flags(0x0820_0000),
    Flags(0x8020_0000),
    Flags::TMSUCCESS,
];

/// Flags of an end.
const ENDS: [Flags; 12] = [
    Flags::TMSUCCESS,
    Flags::TMSUCCESS,
    Flags::TMSUCCESS,
    Flags::TMSUCCESS,
    Flags::TMSUCCESS,
    Flags::TMFAIL,
    Flags::TMSUSPEND,
    Flags::TMSUSPEND,
    Flags(0x0210_0000),
    Flags::TMNOFLAGS,
    Flags(0x8400_0000),
    Flags(0x2400_0000),
];

/// Flags of a commit.
const COMMITS: [Flags; 6] = [
    Flags::TMNOFLAGS,
    Flags::TMNOFLAGS,
    Flags::TMONEPHASE,
    Flags::TMONEPHASE,
    Flags::TMNOWAIT,
    Flags(0x8000_0000),
];

/// Flags of a prepare, a rollback and a forget.
const PLAIN: [Flags; 8] = [
    Flags::TMNOFLAGS,
    Flags::TMNOFLAGS,
    Flags::TMNOFLAGS,
    Flags::TMNOFLAGS,
    Flags::TMNOFLAGS,
    Flags::TMNOFLAGS,
    Flags(0x8000_0000),
    Flags::TMJOIN,
];

/// Flags of a recover.
const RECOVERS: [Flags; 6] = [
    Flags::TMSTARTRSCAN,
    Flags(0x0180_0000),
    Flags(0x0180_0000),
    Flags::TMNOFLAGS,
    Flags::TMENDRSCAN,
    Flags(0x8100_0000),
];

/// Flags of a recover that goes on with a scan.
const GOING_ON: [Flags; 3] = [Flags::TMNOFLAGS, Flags::TMNOFLAGS, Flags::TMENDRSCAN];

/// The functions on a branch, those that begin oftener.
const VERBS: [BranchVerb; 10] = [
    BranchVerb::Start,
    BranchVerb::Start,
    BranchVerb::Start,
    BranchVerb::End,
    BranchVerb::End,
    BranchVerb::End,
    BranchVerb::Prepare,
    BranchVerb::Commit,
    BranchVerb::Rollback,
    BranchVerb::Forget,
];

/// A plan that grows.
#[derive(Drop)]
struct Plan {
    alloc: Global,
    random: Random,
    /// A state that the manager may be in.
    state: State,
    /// How many branches were named.
    named: u32,
    /// Of ten calls this many are legal by the state.
    sure: u32,
}

/// One of some flags.
fn choice(random: &mut Random, flags: &[Flags]) -> Flags {
    let place = random.place(flags.len());
    match flags.get(place) {
        None => Flags::TMNOFLAGS,
        Some(flags) => *flags,
    }
}

/// The function on a branch of a kind of calls.
fn verb_of(kind: u32) -> BranchVerb {
    match VERBS.get((kind % 10) as usize) {
        None => BranchVerb::Start,
        Some(verb) => *verb,
    }
}

/// Flags of a function on a branch.
fn flags_of(random: &mut Random, verb: BranchVerb) -> Flags {
    match verb {
        BranchVerb::Start => choice(random, &STARTS),
        BranchVerb::End => choice(random, &ENDS),
        BranchVerb::Commit => choice(random, &COMMITS),
        BranchVerb::Prepare | BranchVerb::Rollback | BranchVerb::Forget => choice(random, &PLAIN),
    }
}

/// The name of a branch.
fn full_name(number: u32) -> XidName {
    XidName {
        number,
        sort: XidSort::Full,
    }
}

impl Plan {
    /// A thread.
    fn thread(&mut self) -> u32 {
        self.random.below(3) + 1
    }

    /// A branch: one of the last, a known one, seldom the null XID, or the next.
    fn xid(&mut self, fresh: bool) -> XidName {
        if self.random.below(60) == 0 {
            return XidName {
                number: 0,
                sort: XidSort::Null,
            };
        }
        if fresh || self.named == 0 {
            return full_name(self.named.saturating_add(1));
        }
        if self.random.below(3) > 0 {
            let place = self.random.place(self.state.branches().len());
            if let Some(branch) = self.state.branches().get(place) {
                return full_name(branch.name);
            }
        }
        let back = self.random.below(4);
        full_name(self.named.saturating_sub(back).max(1))
    }

    /// A call on a branch.
    fn branch_call(&mut self, verb: BranchVerb) -> JudgedCall {
        let flags = flags_of(&mut self.random, verb);
        let fresh = verb == BranchVerb::Start
            && flags == Flags::TMNOFLAGS
            && self.random.below(8) > 0;
        let thread = self.thread();
        let xid = self.xid(fresh);
        JudgedCall::Function(Function::Branch(verb, On { thread, xid, flags }))
    }

    /// A recover. A scan that is open mostly goes on.
    fn recover_call(&mut self) -> JudgedCall {
        let thread = self.thread();
        let flags = if self.state.is_scanning(thread) && self.random.below(3) > 0 {
            choice(&mut self.random, &GOING_ON)
        } else {
            choice(&mut self.random, &RECOVERS)
        };
        let count = self.random.below(4);
        let count = if count == 3 { 99 } else { count };
        JudgedCall::Function(Function::Recover {
            thread,
            count,
            flags,
        })
    }

    /// An operator's decision.
    fn decision(&mut self) -> JudgedCall {
        let branch = self.xid(false).number;
        JudgedCall::Decide {
            branch: branch.max(1),
            commits: self.random.below(2) == 0,
        }
    }

    /// A call of a kind, a number below 100, that may be legal or not.
    fn call_of(&mut self, kind: u32) -> JudgedCall {
        match kind {
            0..=69 => self.branch_call(verb_of(kind)),
            70..=77 => self.recover_call(),
            78..=91 => self.data_call(),
            92..=95 => self.decision(),
            96 => JudgedCall::Function(Function::Close(choice(&mut self.random, &PLAIN))),
            97 => JudgedCall::Function(Function::Open(choice(&mut self.random, &PLAIN))),
            98 => JudgedCall::Trim,
            _ => JudgedCall::Restart { cut: true },
        }
    }

    /// A read or a write, mostly by a thread that is active in a branch, of a key of that branch.
    fn data_call(&mut self) -> JudgedCall {
        let first = self.thread();
        let thread = if self.state.is_active(first) {
            first
        } else {
            self.thread()
        };
        let key = match self.state.active(thread) {
            Some(branch) => branch,
            None => self.xid(false).number,
        };
        if self.random.below(3) == 0 {
            return JudgedCall::Get { thread, key };
        }
        let value = self.random.below(100);
        match self.state.active(thread) {
            Some(_) => JudgedCall::Put { thread, key, value },
            None => JudgedCall::Get { thread, key },
        }
    }

    /// The states after a call that is answered so.
    fn after(&self, call: JudgedCall, answer: &JudgedAnswer) -> Result<Vec<State>, JudgeError> {
        next(self.alloc, RULES, &self.state, call, answer)
    }

    /// The list that a recover gives, of those that it may give the first ones.
    fn given(&self, thread: u32, count: u32, flags: Flags) -> Result<JudgedAnswer, JudgeError> {
        let copy = self.state.copied(self.alloc)?;
        let scan = if flags.has(Flags::TMSTARTRSCAN) {
            copy.scan_opened(self.alloc, thread)?
        } else {
            copy
        };
        let mut given = Vec::new(self.alloc);
        for branch in self.state.branches() {
            if given.len() < count as usize && scan.may_give(thread, branch.name) {
                given.push(branch.name)?;
            }
        }
        Ok(JudgedAnswer::Given(given))
    }

    /// A state after a call and the first of these answers that is admitted: None, if none is.
    fn after_first(
        &self,
        call: JudgedCall,
        answers: &[JudgedAnswer],
    ) -> Result<Option<State>, JudgeError> {
        for answer in answers {
            let mut states = self.after(call, answer)?;
            if let Some(state) = states.pop() {
                return Ok(Some(state));
            }
        }
        Ok(None)
    }

    /// A state after a call that need not be refused: None, if it must be.
    fn passed(&self, call: JudgedCall) -> Result<Option<State>, JudgeError> {
        match call {
            JudgedCall::Function(
                Function::Recover {
                    thread,
                    count,
                    flags,
                },
            ) => {
                let list = self.given(thread, count, flags)?;
                self.after_first(call, &[list])
            }
            JudgedCall::Function(_) => {
                let answers = [
                    JudgedAnswer::Code(Code::Ok),
                    JudgedAnswer::Code(Code::RbRollback),
                    JudgedAnswer::Code(Code::HeurCom),
                    JudgedAnswer::Code(Code::HeurRb),
                ];
                self.after_first(call, &answers)
            }
            JudgedCall::Get { .. } => self.after_first(call, &[JudgedAnswer::Refused]),
            _ => self.after_first(call, &[JudgedAnswer::Done]),
        }
    }

    /// The next call: mostly a legal one of its kind, or of the kinds on a branch that are tried after it.
    fn chosen(&mut self) -> Result<JudgedCall, JudgeError> {
        if !self.state.is_open() && self.random.below(3) > 0 {
            return Ok(JudgedCall::Function(Function::Open(Flags::TMNOFLAGS)));
        }
        let legal = self.random.below(10) < self.sure;
        let mut kind = self.random.below(100);
        for tried in 1..=TRIES {
            let call = self.call_of(kind);
            if !legal || self.passed(call)?.is_some() {
                return Ok(call);
            }
            if tried % OF_A_KIND == 0 {
                kind = self.random.below(70);
            }
        }
        Ok(self.call_of(kind))
    }

    /// The call at a place: the first opens the manager.
    fn call_at(&mut self, place: u32) -> Result<JudgedCall, JudgeError>
        ensures { IfOk result (λ call. place ≡ 0 → OpensFirst (call ∷ [])) }
    {
        if place == 0 {
            Ok(JudgedCall::Function(Function::Open(Flags::TMNOFLAGS)))
        } else {
            self.chosen()
        }
    }

    /// Goes on to a state that the call may lead to, if it need not be refused.
    fn follow(&mut self, call: JudgedCall) -> Result<(), JudgeError> {
        if let Some(state) = self.passed(call)? {
            self.state = state;
        }
        Ok(())
    }

    /// Notes that a branch was named.
    fn note(&mut self, call: JudgedCall) {
        if let JudgedCall::Function(Function::Branch(_, on)) = call {
            self.named = self.named.max(on.xid.number);
        }
    }
}

/// The calls of a plan, each a line.
fn script(alloc: Global, seed: u64, count: u32) -> Result<Vec<u8>, JudgeError>
    ensures { IfOk result (λ text. IsPlan seed count text.items) }
{
    let mut random = Random::new(seed);
    let sure = 5 + random.below(3) * 2;
    let mut plan = Plan {
        alloc,
        random,
        state: State::first(alloc),
        named: 0,
        sure,
    };
    let mut out = Vec::new(alloc);
    for i in 0..count {
        let call = plan.call_at(i)?;
        plan.note(call);
        push_call(alloc, &mut out, seed, call)?;
        plan.follow(call)?;
    }
    Ok(out)
}

/// Writes a script of this many calls, the same for the same seed. Where memory is refused, nothing was
/// written; after a failed write, a beginning of the script.
pub fn run_plan<W: Write>(
    alloc: Global,
    seed: u64,
    count: u32,
    writer: &mut W,
) -> Result<(), Failure>
    ensures written { OnOk result ((text : List ℕ) × IsPlan seed count text
        × Appends (W.contents writer.old) (W.contents writer.new) text) }
    ensures cut { IfErr result (λ e. e ≡ Failure.Write → (text : List ℕ) × IsPlan seed count text
        × WritesFront (W.contents writer.old) (W.contents writer.new) text) }
    ensures failure { IfErr result (λ e. (e ≡ Failure.Memory) ⊎ (e ≡ Failure.Write)) }
    ensures memory { IfErr result (λ e. e ≡ Failure.Memory
        → Keeps (W.contents writer.old) (W.contents writer.new)) }
{
    match script(alloc, seed, count) {
        Ok(text) => write_all(writer, &text),
        Err(_) => Err(Failure::Memory),
    }
}
