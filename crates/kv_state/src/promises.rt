//! The writes and the locks of the branches that are open.

ghost use Rattle.std.specs.Prelude.{◌≡◌, true, IfOk, IfErr, OnOk};
ghost use Rattle.std.specs.Bool.{Decides};
ghost use Rattle.kv_store.specs.writes.Writes.{AreWrites, LeavesWrites};
ghost use Rattle.log_rules.specs.order.Orders.{keys_once, in_doubt_by};
ghost use Rattle.log_rules.specs.sound.Sound.{IsSoundWrite};
ghost use Rattle.kv_state.specs.declared.fault.ReplayError.TheVariants as error;
ghost use Rattle.kv_state.specs.Replays.{AreFree, HoldFails, IsOrderly, LocksKeys, RestoreFails, Restores};

use crate::fault::ReplayError;
use kv_locks::{LockError, Locks};
use kv_store::writes::BranchWrites;
use log_rules::order::Seen;
use protocol::Write;
use std::alloc::Global;
use xa_xid::Xid;

/// The most different keys that a branch writes.
const KEYS: usize = 64;

/// Whether a branch can have made this write: its key has 1 to 64 bytes, its value at most 256.
fn is_sound(write: &Write) -> bool
    ensures { Decides result (IsSoundWrite write.now) }
{
    let is_short = match &write.value {
        None => true,
        Some(value) => value.len() <= 256,
    };
    is_short && 1 <= write.key.len() && write.key.len() <= 64
}

/// Whether a branch can have written these, no key twice.
fn are_writes(writes: &[Write]) -> bool
    requires { keys_once writes.now ≡ true }
    ensures { Decides result (AreWrites writes.now) }
{
    writes.len() <= KEYS && writes.iter().all(|write| is_sound(write))
}

/// Locks the keys of a branch's writes, which no other branch holds.
fn lock(locks: &mut Locks, xid: &Xid, writes: &[Write]) -> Result<(), ReplayError>
    requires { AreFree locks.old xid.now writes.now }
    ensures ok { OnOk result (LocksKeys locks.old locks.new xid.now writes.now) }
    ensures err { IfErr result (λ e. e ≡ error.Memory) }
{
    let mut rest = writes;
    while let [write, behind @ ..] = rest {
        match locks.exclusive(xid, write.key.as_slice()) {
            Ok(()) => rest = behind,
            Err(LockError::Memory) => return Err(ReplayError::Memory),
            Err(LockError::Held(_)) => unreachable!(),
        }
    }
    Ok(())
}

/// Gives a branch back what it promised, and the locks.
fn give_back(
    writes: &mut BranchWrites,
    locks: &mut Locks,
    xid: &Xid,
    promised: &[Write],
) -> Result<(), ReplayError>
    requires once { keys_once promised.now ≡ true }
    requires free { AreFree locks.old xid.now promised.now }
    ensures writes { OnOk result (LeavesWrites writes.old writes.new xid.now promised.now) }
    ensures locks { OnOk result (LocksKeys locks.old locks.new xid.now promised.now) }
    ensures err { IfErr result (HoldFails promised.now) }
{
    if !are_writes(promised) {
        return Err(ReplayError::Malformed);
    }
    writes.restore(xid, promised)?;
    lock(locks, xid, promised)
}

/// What the open branches hold, of those that are left.
fn restore(
    alloc: Global,
    seen: &Seen,
    left: &[(Xid, bool)],
) -> Result<(BranchWrites, Locks), ReplayError>
    requires orderly { IsOrderly seen.now }
    requires left { left.now ≡ in_doubt_by seen.now }
    ensures ok { IfOk result (λ held. Restores seen.now held.0 held.1) }
    ensures err { IfErr result (RestoreFails seen.now) }
{
    let mut writes = BranchWrites::new(alloc);
    let mut locks = Locks::new(alloc);
    for (xid, _) in left {
        if seen.is_open(xid) {
            give_back(&mut writes, &mut locks, xid, seen.promised(xid))?;
        }
    }
    Ok((writes, locks))
}

/// The branches in doubt, and what the open ones hold.
#[derive(Drop)]
pub(crate) struct InDoubt {
    pub(crate) left: Vec<(Xid, bool)>,
    pub(crate) writes: BranchWrites,
    pub(crate) locks: Locks,
}

/// The branches that records left in doubt, and what the open ones hold.
pub(crate) fn in_doubt(alloc: Global, seen: &Seen) -> Result<InDoubt, ReplayError>
    requires { IsOrderly seen.now }
    ensures left { IfOk result (λ held. held.left.items ≡ in_doubt_by seen.now) }
    ensures held { IfOk result (λ held. Restores seen.now held.writes held.locks) }
    ensures err { IfErr result (RestoreFails seen.now) }
{
    let left = seen.left()?;
    let (writes, locks) = restore(alloc, seen, &left)?;
    Ok(InDoubt {
        left,
        writes,
        locks,
    })
}
