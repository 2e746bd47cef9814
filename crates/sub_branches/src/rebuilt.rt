//! The records of a log, read in one pass.

ghost use Rattle.std.specs.Prelude.{◌≡◌, ◌+◌, ◌++◌, ◌∷◌, [], IfErr, IfOk, List};
ghost use Rattle.std.specs.List.{flat_map};
ghost use Rattle.resource_manager.specs.Restarting.{boot_record};
ghost use Rattle.sub_branches.specs.Tables.{AreLiveOf, HavePromised, branch_in};
ghost use Rattle.sub_branches.specs.Rebuilt.{AreFit, IsRefusal, RecordsLeave, BranchesNotRebuilt, RebuildsBranches, asks, is_asked};
ghost use Rattle.sub_branches.specs.Remembered.{IsOfSome, RemembersBranches};
ghost use Rattle.protocol.specs.Nodes.{Place};
ghost use Rattle.protocol_words.specs.Types.{AnyCase, AnyProcess, AnyRecord};
ghost use Rattle.protocol.specs.Views.{leaf_place};

use crate::branch::LiveBranch;
use crate::cases::ReplayedCases;
use crate::names::RebuildError;
use crate::table::LiveBranches;
use protocol::{
    Case, Envelope, Envelopes, LAST_NUMBER, LogRecord, Message, ProcessId, Sequence, Tree,
};
use std::alloc::{AllocError, Global};

/// The last boot that another can follow.
const LAST_BOOT: u64 = LAST_NUMBER - 1;

/// What the records of a log leave of a subordinate: its live branches, in doubt or decided by an operator;
/// an inquiry for each of them that was not told its outcome, in order of the cases' first records; and the
/// last boot.
#[derive(Drop)]
pub struct RebuiltBranches {
    pub branches: LiveBranches,
    pub messages: Envelopes,
    pub boot: u64,
}

/// What the records of a log say to a subordinate, to be read on from.
#[derive(Drop)]
pub struct RememberedBranches {
    pub(crate) cases: ReplayedCases,
}

impl RememberedBranches {
    /// What no records say. It takes no memory.
    pub fn nothing(alloc: Global) -> RememberedBranches
        ensures { (place : Place) (p : AnyProcess) → RemembersBranches place p [] result }
    {
        RememberedBranches {
            cases: ReplayedCases::new(alloc),
        }
    }
}

/// The cases of these records and of those before them, of which these are the cases. Unfit: no subordinate
/// can have written them all.
fn read(
    me: ProcessId,
    parent: ProcessId,
    tree: &Tree,
    cases: ReplayedCases,
    records: &[LogRecord],
) -> Result<ReplayedCases, RebuildError>
    ensures ok { IfOk result (λ s. (ls : List AnyRecord)
        → RecordsLeave (leaf_place me parent tree.now) parent ls cases
        → RecordsLeave (leaf_place me parent tree.now) parent (ls ++ records.now) s) }
    ensures listed { IfOk result (λ s. AreLiveOf cases.branches cases.order.keys
        → AreLiveOf s.branches s.order.keys) }
    ensures err { IfErr result (λ e. (ls : List AnyRecord)
        → RecordsLeave (leaf_place me parent tree.now) parent ls cases
        → IsRefusal (AreFit (leaf_place me parent tree.now) (ls ++ records.now)) e) }
{
    let mut cases = cases;
    for next in records {
        cases.take(me, parent, tree, next)?;
    }
    Ok(cases)
}

/// What is kept of a case, if it is live.
fn kept_of(branches: &LiveBranches, case: &Case) -> Option<LiveBranch>
    ensures { result ≡ branch_in branches.now case.now }
{
    let key = branches.find(case)?;
    branches.get(key).copied()
}

/// The live branches, which are of these cases and promised, as a table made again.
fn copied(
    alloc: Global,
    branches: &LiveBranches,
    cases: &[Case],
) -> Result<LiveBranches, AllocError>
    requires promised { HavePromised branches.now }
    requires listed { AreLiveOf branches.now cases.now }
    ensures branches { IfOk result (λ copy. (c : AnyCase) → branch_in copy c ≡ branch_in branches.now c) }
    ensures tickets { IfOk result (λ copy. copy.tickets ≡ []) }
{
    let mut copy = LiveBranches::new(alloc);
    for case in cases {
        if kept_of(&copy, case).is_none() {
            if let Some(branch) = kept_of(branches, case) {
                copy.restore(*case, branch)?;
            }
        }
    }
    Ok(copy)
}

/// Whether a live case asks for its outcome: it is in doubt, or an operator decided it and it was not told.
fn asks(branches: &LiveBranches, case: &Case) -> bool
    ensures { result ≡ is_asked (branch_in branches.now case.now) }
{
    let Some(key) = branches.find(case) else {
        return false;
    };
    match branches.get(key) {
        None => false,
        Some(branch) => branch.stage.awaits(),
    }
}

/// An inquiry for each of these cases that asks for its outcome.
fn inquiries(
    alloc: Global,
    me: ProcessId,
    parent: ProcessId,
    branches: &LiveBranches,
    cases: &[Case],
) -> Result<Envelopes, AllocError>
    ensures { IfOk result (λ messages. messages ≡ flat_map (asks me parent branches.now) cases.now) }
{
    let mut messages = Sequence::new(alloc);
    for case in cases {
        if asks(branches, case) {
            messages.push(Envelope {
                from: me,
                to: parent,
                message: Message::Inquire(*case),
            })?;
        }
    }
    Ok(messages)
}

/// What these records leave and those before them, of which this is remembered; and what is to be remembered
/// of all of them, and of the record of the boot that comes after them. Unfit: no subordinate can have
/// written them, as with a ticket of a boot that they have not reached. Exhausted: no boot below 2^63 comes
/// after the last one. With an error what was remembered is gone.
pub fn rebuild(
    alloc: Global,
    me: ProcessId,
    parent: ProcessId,
    tree: &Tree,
    remembered: RememberedBranches,
    records: &[LogRecord],
) -> Result<(RebuiltBranches, RememberedBranches), RebuildError>
    requires { IsOfSome (leaf_place me parent tree.now) parent remembered }
    ensures ok { IfOk result (λ r. (ls : List AnyRecord)
        → RemembersBranches (leaf_place me parent tree.now) parent ls remembered
        → RebuildsBranches (leaf_place me parent tree.now) parent (ls ++ records.now) r.0) }
    ensures remembered { IfOk result (λ r. (ls : List AnyRecord)
        → RemembersBranches (leaf_place me parent tree.now) parent ls remembered
        → RemembersBranches (leaf_place me parent tree.now) parent
        ((ls ++ records.now) ++ boot_record (r.0.boot + 1) ∷ []) r.1) }
    ensures err { IfErr result (λ e. (ls : List AnyRecord)
        → RemembersBranches (leaf_place me parent tree.now) parent ls remembered
        → BranchesNotRebuilt (leaf_place me parent tree.now) (ls ++ records.now) e) }
{
    let RememberedBranches { cases } = remembered;
    let mut cases = read(me, parent, tree, cases, records)?;
    let boot = cases.boot;
    if boot > LAST_BOOT {
        return Err(RebuildError::Exhausted);
    }
    if cases.newest > boot {
        return Err(RebuildError::Unfit);
    }
    let messages = inquiries(alloc, me, parent, &cases.branches, cases.order.as_slice())?;
    let branches = copied(alloc, &cases.branches, cases.order.as_slice())?;
    cases.boot = boot + 1;
    Ok((
        RebuiltBranches {
            branches,
            messages,
            boot,
        },
        RememberedBranches { cases },
    ))
}
