//! What a call that finishes a branch makes of it.

ghost use Rattle.std.specs.Prelude.{◌≡◌, true};
ghost use Rattle.kv_calls.specs.declared.entries.BranchRecord.TheVariants as entry;
ghost use Rattle.xa_tables.specs.declared.states.BranchState.TheVariants as state;
ghost use Rattle.kv_calls.specs.Turns.{commit_turn, decide_turn, direct_turn, prepare_turn, rollback_turn, silent, tell_turn, writes};
ghost use Rattle.protocol.specs.ManagerRows.{is_told_forced};

use crate::entries::{BranchRecord, presumption_of};
use protocol::{BranchName, Outcome};
use xa_branch::Decision;
use xa_codes::Code;
use xa_tables::BranchState;

/// What a call makes of a branch: its answer, the state after it, and the record that it writes.
#[derive(Clone, Copy, PartialEq, Eq)]
pub struct CallRow {
    pub code: Code,
    pub to: BranchState,
    pub entry: Option<BranchRecord>,
    pub is_forced: bool,
}

/// Whether the record of what a decided branch is told is forced: as its outcome would be; of a branch that
/// is no case's always.
fn is_told_forced(branch: BranchName, outcome: Outcome) -> bool
    ensures { result ≡ is_told_forced branch outcome }
{
    match branch {
        BranchName::Case(case) => outcome.is_acknowledged(case.txn.presumption),
        BranchName::Foreign(_) => true,
    }
}

impl CallRow {
    fn silent(code: Code, to: BranchState) -> Self
        ensures { result ≡ silent code to }
    {
        CallRow {
            code,
            to,
            entry: None,
            is_forced: false,
        }
    }

    fn writes(entry: BranchRecord, is_forced: bool, to: BranchState) -> Self
        ensures { result ≡ writes entry is_forced to }
    {
        CallRow {
            code: Code::Ok,
            to,
            entry: Some(entry),
            is_forced,
        }
    }

    /// A branch that wrote something promises, and one that wrote nothing is ended.
    pub fn prepare(wrote: bool) -> Self
        ensures { result ≡ prepare_turn wrote }
    {
        if wrote {
            CallRow::writes(BranchRecord::Prepared, true, BranchState::S3)
        } else {
            CallRow::silent(Code::RdOnly, BranchState::S0)
        }
    }

    /// An outcome of a branch that an operator decided: it answers by the decision, and notes the first one.
    fn tell(branch: BranchName, outcome: Outcome, decision: Decision) -> Self
        ensures { result ≡ tell_turn branch outcome decision decision.told }
    {
        match decision.told {
            None => CallRow {
                code: decision.code(),
                to: BranchState::S5,
                entry: Some(BranchRecord::Told(outcome)),
                is_forced: is_told_forced(branch, outcome),
            },
            Some(_) => CallRow::silent(decision.code(), BranchState::S5),
        }
    }

    /// A branch in this state commits, of which in S5 an operator decided so.
    pub fn commit(from: BranchState, branch: BranchName, decision: Decision) -> Self
        ensures { result ≡ commit_turn from branch decision }
    {
        if from == BranchState::S5 {
            return CallRow::tell(branch, Outcome::Committed, decision);
        }
        let is_forced = Outcome::Committed.is_acknowledged(presumption_of(branch));
        CallRow::writes(BranchRecord::Committed, is_forced, BranchState::S0)
    }

    /// A branch that wrote something or nothing commits in one phase.
    pub fn direct(wrote: bool) -> Self
        ensures { result ≡ direct_turn wrote }
    {
        if wrote {
            CallRow::writes(BranchRecord::Direct, true, BranchState::S0)
        } else {
            CallRow::silent(Code::Ok, BranchState::S0)
        }
    }

    /// A branch in this state rolls back, of which in S5 an operator decided so.
    pub fn rollback(from: BranchState, branch: BranchName, decision: Decision) -> Self
        ensures { result ≡ rollback_turn from branch decision }
    {
        match from {
            BranchState::S3 => {
                let is_forced = Outcome::Aborted.is_acknowledged(presumption_of(branch));
                CallRow::writes(BranchRecord::RolledBack, is_forced, BranchState::S0)
            }
            BranchState::S5 => CallRow::tell(branch, Outcome::Aborted, decision),
            _ => CallRow::silent(Code::Ok, BranchState::S0),
        }
    }

    /// An operator's decision is forgotten.
    pub fn forget() -> Self
        ensures { result ≡ writes entry.Forgot true state.S0 }
    {
        CallRow::writes(BranchRecord::Forgot, true, BranchState::S0)
    }

    /// What an operator's decision makes of a prepared branch.
    pub fn decide(outcome: Outcome) -> Self
        ensures { result ≡ decide_turn outcome }
    {
        CallRow {
            code: Decision::new(outcome).code(),
            to: BranchState::S5,
            entry: Some(BranchRecord::of_decision(outcome)),
            is_forced: true,
        }
    }
}
