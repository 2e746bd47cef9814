//! Whole pieces of work at a manager: no thread is at work before one, nor after it.

ghost use Rattle.std.specs.Prelude.{◌≡◌, ◌≢◌, false, true, IfErr, IfOk, OnErr, OnOk};
ghost use Rattle.xa_words.specs.call;
ghost use Rattle.xa_tables.specs.declared.states.BranchState.TheVariants as state;
ghost use Rattle.xa_xid.specs.Xids.{null_xid};
ghost use Rattle.xa_assoc.specs.Answers.{state_at};
ghost use Rattle.resource_manager.specs.Sights.{SameManager};
ghost use Rattle.sub_work.specs.Deeds.{DecidesWork, FinishesWork, HasBegun, Idles, IsIdle, WorkNotDecided, NotFinished, BranchWorks, can_roll_back, outcome_call, vote_of};
ghost use Rattle.xa_tables.specs.Tables.{is_in_doubt};

use protocol::{Op, Outcome, StepError, Vote};
use resource_manager::{DecideError, ResourceManager};
use std::alloc::AllocError;
use xa_codes::{Code, Flags};
use xa_xid::Xid;

/// The thread of a subordinate.
const THREAD: u32 = 0;

/// A new branch begins, and is left idle. False: the start was refused, and nothing changed.
pub fn begin<M: ResourceManager>(manager: &mut M, xid: &Xid) -> Result<bool, AllocError>
    requires idle { IsIdle (M.sight manager.old) }
    requires up { (M.sight manager.old).log.failed ≡ false }
    requires named { xid.now ≢ null_xid }
    ensures ok { IfOk result (HasBegun (M.sight manager.old) (M.sight manager.new) xid.now) }
    ensures err { OnErr result (SameManager (M.sight manager.old) (M.sight manager.new)) }
{
    manager.begin_idle(xid)
}

/// An idle branch does an operation. False: it was refused, and the branch can only be rolled back. Memory:
/// the branch is idle as before.
pub fn work<M: ResourceManager>(manager: &mut M, xid: &Xid, op: &Op) -> Result<bool, AllocError>
    requires idle { IsIdle (M.sight manager.old) }
    requires up { (M.sight manager.old).log.failed ≡ false }
    requires named { xid.now ≢ null_xid }
    requires state { state_at (M.sight manager.old).tables xid.now ≡ state.S2 }
    ensures ok { IfOk result (BranchWorks (M.sight manager.old) (M.sight manager.new) xid.now op.now) }
    ensures err { OnErr result (Idles (M.sight manager.old) (M.sight manager.new) xid.now) }
{
    manager.work_idle(xid, op)
}

/// An idle branch promises, with what it has written; one that wrote nothing is ended. Memory; Exhausted,
/// where a limit of the manager's own is met: nothing changed. Device: it fails now.
pub fn promise<M: ResourceManager>(manager: &mut M, xid: &Xid) -> Result<Vote, StepError>
    requires idle { IsIdle (M.sight manager.old) }
    requires up { (M.sight manager.old).log.failed ≡ false }
    requires named { xid.now ≢ null_xid }
    requires state { state_at (M.sight manager.old).tables xid.now ≡ state.S2 }
    ensures vote { IfOk result (λ vote. vote ≡ vote_of ((M.sight manager.old).writes xid.now)) }
    ensures ok { OnOk result (FinishesWork (M.sight manager.old) (M.sight manager.new) xid.now call.Prepare) }
    ensures err { IfErr result (NotFinished (M.sight manager.old)
        (M.sight manager.new) xid.now call.Prepare) }
{
    match manager.prepare(THREAD, xid, Flags::TMNOFLAGS)? {
        Code::RmFail => Err(StepError::Device),
        Code::RmErr => Err(StepError::Exhausted),
        Code::RdOnly => Ok(Vote::Read),
        _ => Ok(Vote::Yes),
    }
}

/// A prepared branch commits; one that an operator decided notes the outcome if it is the first, and stays.
/// The errors are those of `promise`.
pub fn commit<M: ResourceManager>(manager: &mut M, xid: &Xid) -> Result<(), StepError>
    requires idle { IsIdle (M.sight manager.old) }
    requires up { (M.sight manager.old).log.failed ≡ false }
    requires named { xid.now ≢ null_xid }
    requires state { is_in_doubt (state_at (M.sight manager.old).tables xid.now) ≡ true }
    ensures ok { OnOk result (FinishesWork (M.sight manager.old) (M.sight manager.new) xid.now call.Commit) }
    ensures err { IfErr result (NotFinished (M.sight manager.old) (M.sight manager.new) xid.now call.Commit) }
{
    match manager.commit(THREAD, xid, Flags::TMNOFLAGS)? {
        Code::RmFail => Err(StepError::Device),
        Code::RmErr => Err(StepError::Exhausted),
        _ => Ok(()),
    }
}

/// A branch that is idle, spoiled or prepared rolls back; one that an operator decided notes the outcome if
/// it is the first, and stays. The errors are those of `promise`.
pub fn rollback<M: ResourceManager>(manager: &mut M, xid: &Xid) -> Result<(), StepError>
    requires idle { IsIdle (M.sight manager.old) }
    requires up { (M.sight manager.old).log.failed ≡ false }
    requires named { xid.now ≢ null_xid }
    requires state { can_roll_back (state_at (M.sight manager.old).tables xid.now) ≡ true }
    ensures ok { OnOk result (FinishesWork (M.sight manager.old) (M.sight manager.new) xid.now
        call.Rollback) }
    ensures err { IfErr result (NotFinished (M.sight manager.old)
        (M.sight manager.new) xid.now call.Rollback) }
{
    match manager.rollback(THREAD, xid, Flags::TMNOFLAGS)? {
        Code::RmFail => Err(StepError::Device),
        Code::RmErr => Err(StepError::Exhausted),
        _ => Ok(()),
    }
}

/// A branch that an operator decided is told an outcome; the first one is noted, and the branch stays. The
/// errors are those of `promise`.
pub fn tell<M: ResourceManager>(
    manager: &mut M,
    xid: &Xid,
    outcome: Outcome,
) -> Result<(), StepError>
    requires idle { IsIdle (M.sight manager.old) }
    requires up { (M.sight manager.old).log.failed ≡ false }
    requires named { xid.now ≢ null_xid }
    requires state { state_at (M.sight manager.old).tables xid.now ≡ state.S5 }
    ensures ok { OnOk result (FinishesWork (M.sight manager.old) (M.sight manager.new)
        xid.now (outcome_call outcome)) }
    ensures err { IfErr result (NotFinished (M.sight manager.old) (M.sight manager.new)
        xid.now (outcome_call outcome)) }
{
    match outcome {
        Outcome::Committed => commit(manager, xid),
        Outcome::Aborted => rollback(manager, xid),
    }
}

/// An operator decides a prepared branch. The errors are those of `promise`.
pub fn decide<M: ResourceManager>(
    manager: &mut M,
    xid: &Xid,
    outcome: Outcome,
) -> Result<(), StepError>
    requires idle { IsIdle (M.sight manager.old) }
    requires up { (M.sight manager.old).log.failed ≡ false }
    requires state { state_at (M.sight manager.old).tables xid.now ≡ state.S3 }
    ensures ok { OnOk result (DecidesWork (M.sight manager.old) (M.sight manager.new) xid.now outcome) }
    ensures err { IfErr result (WorkNotDecided (M.sight manager.old) (M.sight manager.new) xid.now outcome) }
{
    match manager.decide(xid, outcome) {
        Ok(()) => Ok(()),
        Err(DecideError::Memory) => Err(StepError::Memory),
        Err(DecideError::Exhausted) => Err(StepError::Exhausted),
        Err(DecideError::Device) => Err(StepError::Device),
        Err(DecideError::Failed | DecideError::NotInDoubt) => unreachable!(),
    }
}

/// A branch that an operator decided is forgotten. The errors are those of `promise`.
pub fn forget<M: ResourceManager>(manager: &mut M, xid: &Xid) -> Result<(), StepError>
    requires idle { IsIdle (M.sight manager.old) }
    requires up { (M.sight manager.old).log.failed ≡ false }
    requires named { xid.now ≢ null_xid }
    requires state { state_at (M.sight manager.old).tables xid.now ≡ state.S5 }
    ensures ok { OnOk result (FinishesWork (M.sight manager.old) (M.sight manager.new) xid.now call.Forget) }
    ensures err { IfErr result (NotFinished (M.sight manager.old) (M.sight manager.new) xid.now call.Forget) }
{
    match manager.forget(THREAD, xid, Flags::TMNOFLAGS)? {
        Code::RmFail => Err(StepError::Device),
        Code::RmErr => Err(StepError::Exhausted),
        _ => Ok(()),
    }
}
