//! Restart: what a crash left of the log stands, and the cases that were not told their outcomes ask. And
//! trim.

ghost use Rattle.log_text.specs.Forms.{log_form};
ghost use Rattle.protocol.specs.declared.names.Kind.TheVariants.{Manager};
ghost use Rattle.std.specs.Prelude.{◌≡◌, ◌≢◌, ◌∷◌, ◌++◌, ◌+◌, ℕ, [], true, IfErr, IfOk, OnOk};
ghost use Rattle.process_state.specs.Restarting.{LeftSo, ProcessNotRestarted, ProcessNotTrimmed, ProcessRestarts, ProcessTrims};
ghost use Rattle.process_state.specs.States.{CoreState};
ghost use Rattle.resource_manager.specs.Restarting.{
  IsRestarted,
  ManagerNotRestarted,
  RestartsManager,
  boot_record,
};
ghost use Rattle.resource_manager.specs.Sights.{ManagerSight};
ghost use Rattle.protocol.specs.Nodes.{AtLeaf};
ghost use Rattle.log_records.specs.Sights.{left_by};
ghost use Rattle.sub_work.specs.Deeds.{KeepsManager};
ghost use Rattle.sub_branches.specs.Rebuilt.{BranchesNotRebuilt, RebuildsBranches};
ghost use Rattle.protocol.specs.Views.{leaf_place};
ghost use Rattle.sub_branches.specs.Remembered.{RemembersBranches};
ghost use Rattle.sub_process.specs.Fronts.{IsFrontOf};
ghost use Rattle.sub_process.specs.Subordinates.{seen};
ghost use Rattle.sub_process.specs.Steps.{LeavesPromises, NotReady, NotReopenedOver, PromisesLeft, Reopens, left_before, state};
ghost use Rattle.protocol.specs.declared.records.RecordKind.TheVariants as kind;
ghost use Rattle.protocol.specs.declared.records.Subject.TheVariants as subject;

use crate::subordinate::{Front, Subordinate};
use protocol::{
    LogRecord, ProcessId, Reaction, RecordKind, Sequence, ShownRecord, StepError, Subject, Tree,
};
use resource_manager::{ResourceManager, RestartError, TrimError};
use std::alloc::{AllocError, Global};
use std::mem;
use sub_branches::{RebuildError, RebuiltBranches, RememberedBranches, rebuild};
use xa_codes::Flags;

/// The record of a boot, as a reaction shows it.
fn opened(alloc: Global, boot: u64) -> Result<Sequence<ShownRecord>, AllocError>
    ensures { IfOk result (λ written. written
        ≡ record { kind = kind.Opened; subject = subject.Boot boot; forced = true } ∷ []) }
{
    let mut written = Sequence::new(alloc);
    written.push(ShownRecord {
        kind: RecordKind::Opened,
        subject: Subject::Boot(boot),
        forced: true,
    })?;
    Ok(written)
}

/// The manager restarts after a crash that keeps N of the log's unforced bytes, and is opened.
fn reopen<M: ResourceManager>(manager: &mut M, keep: usize) -> Result<(), RestartError>
    ensures ok { OnOk result (Reopens (M.sight manager.old) (M.sight manager.new) keep) }
    ensures err { IfErr result (ManagerNotRestarted (M.sight manager.old) (M.sight manager.new) keep) }
{
    manager.restart(keep)?;
    let _ = manager.open(Flags::TMNOFLAGS, false);
    Ok(())
}

impl<M: ResourceManager> Subordinate<M> {
    /// What the records leave that a crash would leave, which it wrote itself, and what is to be remembered
    /// of them and of the record of the boot after them. It reads on from this front. Exhausted: no boot
    /// below 2^63 comes after the last one.
    fn rebuilt(
        &self,
        front: Front,
        keep: usize,
    ) -> Result<(RebuiltBranches, RememberedBranches), StepError>
        requires { IsFrontOf (leaf_place self.now.me self.now.parent self.now.tree)
            (M.sight self.now.manager).log
            front }
        ensures ok { IfOk result (λ r. RebuildsBranches
            (leaf_place self.now.me self.now.parent self.now.tree) self.now.parent
            (left_by (M.sight self.now.manager).log keep) r.0) }
        ensures remembered { IfOk result (λ r. RemembersBranches
            (leaf_place self.now.me self.now.parent self.now.tree)
            self.now.parent
            (left_by (M.sight self.now.manager).log keep ++ boot_record (r.0.boot + 1) ∷ []) r.1) }
        ensures err { IfErr result (NotReady (leaf_place self.now.me self.now.parent self.now.tree)
            (left_by (M.sight self.now.manager).log keep)) }
    {
        self.manager.records_are_sound();
        self.manager.records_are_in_order();
        let Front { size, remembered } = front;
        let records = self.manager.kept_after(size, keep)?;
        match rebuild(
            self.alloc,
            self.me,
            self.parent,
            &self.tree,
            remembered,
            &records,
        ) {
            Ok(rebuilt) => Ok(rebuilt),
            Err(RebuildError::Memory) => Err(StepError::Memory),
            Err(RebuildError::Exhausted) => Err(StepError::Exhausted),
            Err(RebuildError::Unfit) => unreachable!(),
        }
    }

    /// What the records leave that a crash would leave, and the record of the boot after it, as a reaction
    /// shows it; and what is to be remembered. The error is that of `rebuilt`.
    fn ready(
        &self,
        front: Front,
        keep: usize,
    ) -> Result<(RebuiltBranches, Sequence<ShownRecord>, RememberedBranches), StepError>
        requires { IsFrontOf (leaf_place self.now.me self.now.parent self.now.tree)
            (M.sight self.now.manager).log
            front }
        ensures ok { IfOk result (λ ready. RebuildsBranches
            (leaf_place self.now.me self.now.parent self.now.tree) self.now.parent
            (left_by (M.sight self.now.manager).log keep) ready.0) }
        ensures written { IfOk result (λ ready.
            ready.1 ≡ record { kind = kind.Opened; subject = subject.Boot (ready.0.boot + 1); forced = true } ∷ []) }
        ensures remembered { IfOk result (λ ready.
            RemembersBranches (leaf_place self.now.me self.now.parent self.now.tree) self.now.parent
            (left_by (M.sight self.now.manager).log keep ++ boot_record (ready.0.boot + 1) ∷ []) ready.2) }
        ensures err { IfErr result (NotReady (leaf_place self.now.me self.now.parent self.now.tree)
            (left_by (M.sight self.now.manager).log keep)) }
    {
        let (rebuilt, remembered) = self.rebuilt(front, keep)?;
        let written = opened(self.alloc, rebuilt.boot + 1)?;
        Ok((rebuilt, written, remembered))
    }

    /// Restarts after a crash that keeps N of the log's unforced bytes: each case in doubt asks for its
    /// outcome, and so does one that an operator decided and that was not told. All memory is taken before
    /// the crash. The records are gone through that came after its last restart, or all of them after a trim.
    /// Its own records are never refused. Memory: nothing changed. Exhausted: no boot below 2^63 comes after
    /// the last one; nothing changed. Device: it has failed until it is restarted.
    pub fn restart(&mut self, keep: usize) -> Result<Reaction, StepError>
        ensures ok { IfOk result (ProcessRestarts (state M.sight self.old) keep (state M.sight self.new)) }
        ensures writes { OnOk result (LeavesPromises (seen M.sight self.old) keep (seen M.sight self.new)) }
        ensures err { IfErr result (ProcessNotRestarted (state M.sight self.old) keep
            (state M.sight self.new)) }
        ensures kept { IfErr result (λ e. e ≢ StepError.Device
            → KeepsManager (M.sight self.old.manager) (M.sight self.new.manager)) }
    {
        let front = mem::replace(&mut self.front, Front::header(self.alloc));
        let (rebuilt, written, remembered) = self.ready(front, keep)?;
        match reopen(&mut self.manager, keep) {
            Ok(()) => {
                let RebuiltBranches {
                    branches,
                    messages,
                    ..
                } = rebuilt;
                self.branches = branches;
                self.given = 0;
                self.front = Front {
                    size: self.manager.log_size(),
                    remembered,
                };
                Ok(Reaction {
                    begun: None,
                    written,
                    told: None,
                    messages,
                    kept: None,
                })
            }
            Err(RestartError::Memory) => Err(StepError::Memory),
            Err(RestartError::Exhausted) => Err(StepError::Exhausted),
            Err(RestartError::Device) => Err(StepError::Device),
        }
    }

    /// Trims its log: the last Opened and the records of the cases that are not forgotten stay, and after
    /// them the manager's data, forced by one write. Gives how many records remain. Failed, Memory: nothing
    /// changed. Device: the log stands as it was or trimmed, and it has failed until it is restarted.
    pub fn trim(&mut self) -> Result<u64, StepError>
        ensures ok { IfOk result (ProcessTrims (state M.sight self.old) (state M.sight self.new)) }
        ensures data { OnOk result (KeepsManager (M.sight self.old.manager) (M.sight self.new.manager)) }
        ensures err { IfErr result (ProcessNotTrimmed (state M.sight self.old) (state M.sight self.new)) }
        ensures kept { IfErr result (λ e. e ≢ StepError.Device
            → KeepsManager (M.sight self.old.manager) (M.sight self.new.manager)) }
    {
        self.manager.records_are_sound();
        self.manager.records_are_in_order();
        self.front = Front::header(self.alloc);
        match self.manager.trim() {
            Ok(count) => Ok(count as u64),
            Err(TrimError::Memory) => Err(StepError::Memory),
            Err(TrimError::Device) => Err(StepError::Device),
            Err(TrimError::Failed) => Err(StepError::Failed),
        }
    }
}

/// The records of the log of a manager that restarted, but for that of its boot, which is the last.
fn left_before<M: ResourceManager>(manager: &M) -> Result<Vec<LogRecord>, AllocError>
    ensures { IfOk result (λ records. records.items ≡ left_before (M.sight manager.now)) }
{
    let mut records = manager.left(0)?;
    let _boot = records.pop();
    Ok(records)
}

/// What these records leave. The errors are those of `rebuild`.
fn rebuilt_before<M: ResourceManager>(
    alloc: Global,
    me: ProcessId,
    parent: ProcessId,
    tree: &Tree,
    manager: &M,
) -> Result<RebuiltBranches, RebuildError>
    ensures ok { IfOk result (RebuildsBranches (leaf_place me parent tree.now) parent
        (left_before (M.sight manager.now))) }
    ensures err { IfErr result (BranchesNotRebuilt (leaf_place me parent tree.now)
        (left_before (M.sight manager.now))) }
{
    let records = left_before(manager)?;
    match rebuild(
        alloc,
        me,
        parent,
        tree,
        RememberedBranches::nothing(alloc),
        &records,
    ) {
        Ok((rebuilt, remembered)) => {
            drop(remembered);
            Ok(rebuilt)
        }
        Err(error) => Err(error),
    }
}

/// What the records before the boot leave, and the record of that boot, as a reaction shows it. The errors
/// are those of `rebuild`.
fn ready_before<M: ResourceManager>(
    alloc: Global,
    me: ProcessId,
    parent: ProcessId,
    tree: &Tree,
    manager: &M,
) -> Result<(RebuiltBranches, Sequence<ShownRecord>), RebuildError>
    ensures ok { IfOk result (λ ready. RebuildsBranches (leaf_place me parent tree.now) parent
        (left_before (M.sight manager.now)) ready.0) }
    ensures written { IfOk result (λ ready.
        ready.1 ≡ record { kind = kind.Opened; subject = subject.Boot (ready.0.boot + 1); forced = true } ∷ []) }
    ensures err { IfErr result (BranchesNotRebuilt (leaf_place me parent tree.now)
        (left_before (M.sight manager.now))) }
{
    let rebuilt = rebuilt_before(alloc, me, parent, tree, manager)?;
    let written = opened(alloc, rebuilt.boot + 1)?;
    Ok((rebuilt, written))
}

impl<M: ResourceManager + Drop> Subordinate<M> {
    /// The manager `me` of this tree below this parent, as it restarts over the log that an earlier one left:
    /// it drives a manager that restarted over that log, and opens it. Unfit: no such process can have
    /// written the records that were left, as with a ticket of a boot that they have not reached. Exhausted:
    /// never, since the manager had a boot left. With a refusal the manager is handed back.
    pub fn reopen(
        alloc: Global,
        me: ProcessId,
        parent: ProcessId,
        tree: Tree,
        mut manager: M,
    ) -> Result<(Subordinate<M>, Reaction), (RebuildError, M)>
        requires restarted { IsRestarted (M.sight manager) }
        requires own { (M.sight manager).log.form ≡ log_form me Manager }
        ensures ok { IfOk result (λ made. (before : ManagerSight) (all : ℕ)
            → RestartsManager before (M.sight manager) all
            → (old : CoreState) → LeftSo old
            (record { me = me; role = AtLeaf parent; tree = tree }) before.log.failures
            → (keep : ℕ) → left_by old.log keep ≡ left_by before.log all
            → ProcessRestarts old keep (state M.sight made.0) made.1) }
        ensures writes { IfOk result (λ made. (before : ManagerSight) (all : ℕ)
            → RestartsManager before (M.sight manager) all
            → PromisesLeft (left_by before.log all) (M.sight made.0.manager)) }
        ensures err { IfErr result (λ e. NotReopenedOver (leaf_place me parent tree) (M.sight manager) e.0
            × (e.1 ≡ manager)) }
    {
        manager.records_are_sound();
        match ready_before(alloc, me, parent, &tree, &manager) {
            Err(error) => Err((error, manager)),
            Ok((rebuilt, written)) => {
                let _ = manager.open(Flags::TMNOFLAGS, false);
                let RebuiltBranches {
                    branches,
                    messages,
                    ..
                } = rebuilt;
                let reaction = Reaction {
                    begun: None,
                    written,
                    told: None,
                    messages,
                    kept: None,
                };
                let subordinate = Subordinate {
                    alloc,
                    me,
                    parent,
                    tree,
                    given: 0,
                    branches,
                    manager,
                    front: Front::header(alloc),
                };
                Ok((subordinate, reaction))
            }
        }
    }
}
