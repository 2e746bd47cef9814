//! The requests of a script, made of a manager.

ghost use Rattle.std.specs.Prelude.{◌≡◌, IfOk, Some, None};
ghost use Rattle.key_lists.specs.declared.holders.Mode.TheVariants as mode;
ghost use Rattle.kv_state.specs.Works.{ReadsKey, WritesKey, work_refusal};
ghost use Rattle.kv_manager.specs.Turns.{KvCalls, RefusesWork};
ghost use Rattle.xa_engine.specs.Makes.{Boots, CallsBranch, RequestDecides, IsRead, IsRefused, IsWritten, RequestMakes, RequestScans, RequestTrims, RequestWorks};

use crate::answer::RequestAnswer;
use crate::script::{BranchCall, Request};
use kv_manager::KvManager;
use log_store::MemoryStore;
use protocol::{Op, Outcome, Sequence};
use resource_manager::{DecideError, RestartError, TrimError};
use std::alloc::AllocError;
use xa_assoc::WorkError;
use xa_codes::{Code, Flags};
use xa_xid::Xid;

/// The manager of a script: its log is in memory.
pub type Manager = KvManager<MemoryStore>;

/// Makes a request. An error says that memory was refused.
pub fn make(manager: &mut Manager, request: &Request) -> Result<RequestAnswer, AllocError>
    ensures { IfOk result (λ answer. RequestMakes manager.old manager.new request.now answer) }
{
    match request {
        Request::Open { flags, migrates } => Ok(RequestAnswer::Code(manager.open(
            *flags, *migrates,
        ))),
        Request::Close { flags } => Ok(RequestAnswer::Code(manager.close(*flags))),
        Request::Branch {
            call,
            thread,
            xid,
            flags,
        } => Ok(RequestAnswer::Code(call_branch(manager, *call, *thread, xid, *flags)?)),
        Request::Recover {
            thread,
            count,
            flags,
        } => scan(manager, *thread, *count, *flags),
        Request::Work { thread, op } => work(manager, *thread, op),
        Request::Restart { keep } => restart(manager, *keep),
        Request::Trim => trim(manager),
        Request::Decide { xid, outcome } => decide(manager, xid, *outcome),
    }
}

/// A call on a branch.
fn call_branch(
    manager: &mut Manager,
    call: BranchCall,
    thread: u32,
    xid: &Xid,
    flags: Flags,
) -> Result<Code, AllocError>
    ensures { IfOk result (λ code. CallsBranch call manager.old manager.new thread xid.now flags.0 code) }
{
    match call {
        BranchCall::Start => manager.start(thread, xid, flags),
        BranchCall::End => manager.end(thread, xid, flags),
        BranchCall::Prepare => manager.prepare(thread, xid, flags),
        BranchCall::Commit => manager.commit(thread, xid, flags),
        BranchCall::Rollback => manager.rollback(thread, xid, flags),
        BranchCall::Forget => manager.forget(thread, xid, flags),
    }
}

/// A scan of the branches in doubt.
fn scan(
    manager: &mut Manager,
    thread: u32,
    count: u32,
    flags: Flags,
) -> Result<RequestAnswer, AllocError>
    ensures { IfOk result (λ answer. RequestScans manager.old manager.new thread count flags.0 answer) }
{
    match manager.recover(thread, count, flags)? {
        Ok(xids) => Ok(RequestAnswer::Given(Sequence::from_vec(xids))),
        Err(code) => Ok(RequestAnswer::Code(code)),
    }
}

/// An operation on data.
fn work(manager: &mut Manager, thread: u32, op: &Op) -> Result<RequestAnswer, AllocError>
    ensures { IfOk result (λ answer. RequestWorks manager.old manager.new thread op.now answer) }
{
    match op {
        Op::Get(key) => get(manager, thread, key.as_slice()),
        Op::Put(key, value) => put(manager, thread, key.as_slice(), value.as_slice()),
        Op::Delete(key) => delete(manager, thread, key.as_slice()),
    }
}

/// The answer of refused work.
fn refused(error: WorkError) -> Result<RequestAnswer, AllocError>
    ensures { IfOk result (λ answer. IsRefused error answer) }
{
    match error {
        WorkError::Memory => Err(AllocError),
        error => Ok(RequestAnswer::Refused(error)),
    }
}

fn get(manager: &mut Manager, thread: u32, key: &[u8]) -> Result<RequestAnswer, AllocError>
    ensures { IfOk result (λ answer. IsRead manager.old manager.new thread key.now answer) }
{
    match manager.get(thread, key) {
        Ok(value) => Ok(RequestAnswer::Found(value)),
        Err(error) => refused(error),
    }
}

fn put(
    manager: &mut Manager,
    thread: u32,
    key: &[u8],
    value: &[u8],
) -> Result<RequestAnswer, AllocError>
    ensures { IfOk result (λ answer. IsWritten manager.old manager.new thread
        key.now (Some value.now) answer) }
{
    match manager.put(thread, key, value) {
        Ok(()) => Ok(RequestAnswer::Done),
        Err(error) => refused(error),
    }
}

fn delete(manager: &mut Manager, thread: u32, key: &[u8]) -> Result<RequestAnswer, AllocError>
    ensures { IfOk result (λ answer. IsWritten manager.old manager.new thread key.now None answer) }
{
    match manager.delete(thread, key) {
        Ok(()) => Ok(RequestAnswer::Done),
        Err(error) => refused(error),
    }
}

/// A restart that keeps N of the unforced bytes of the log, or all of them.
fn restart(manager: &mut Manager, keep: Option<u64>) -> Result<RequestAnswer, AllocError>
    ensures { IfOk result (λ answer. Boots manager.old manager.new keep answer) }
{
    let keep = match keep {
        None => usize::MAX,
        Some(keep) => keep as usize,
    };
    match manager.restart(keep) {
        Ok(_) => Ok(RequestAnswer::Booted(manager.boot())),
        Err(RestartError::Memory) => Err(AllocError),
        Err(error) => Ok(RequestAnswer::NotBooted(error)),
    }
}

/// A trim of the log.
fn trim(manager: &mut Manager) -> Result<RequestAnswer, AllocError>
    ensures { IfOk result (λ answer. RequestTrims manager.old manager.new answer) }
{
    match manager.trim() {
        Ok(remain) => Ok(RequestAnswer::Trimmed(remain as u64)),
        Err(TrimError::Memory) => Err(AllocError),
        Err(error) => Ok(RequestAnswer::NotTrimmed(error)),
    }
}

/// An operator's decision.
fn decide(manager: &mut Manager, xid: &Xid, outcome: Outcome) -> Result<RequestAnswer, AllocError>
    ensures { IfOk result (λ answer. RequestDecides manager.old manager.new xid.now outcome answer) }
{
    match manager.decide(xid, outcome) {
        Ok(()) => Ok(RequestAnswer::Done),
        Err(DecideError::Memory) => Err(AllocError),
        Err(error) => Ok(RequestAnswer::NotDecided(error)),
    }
}
