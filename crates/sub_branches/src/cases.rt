//! The cases of the records that were read so far.

ghost use Rattle.std.specs.Prelude.{◌≡◌, [], IfErr, OnOk};
ghost use Rattle.sub_branches.specs.Rebuilt.{AddsCase, CanCome, CanDecide, CanPromise, DecidesCase, FinishesCase, IsRefusal, Promises, ReadsRecord, fits_told};
ghost use Rattle.protocol.specs.Views.{leaf_place};

use crate::branch::{BranchStage, LiveBranch as Kept};
use crate::names::{RebuildError, Saying, own_case, saying_of};
use crate::table::LiveBranches;
use indexmap::IndexSet;
use log_text::name_xid;
use protocol::{BranchName, Case, LogRecord, Outcome, ProcessId, Tree};
use std::alloc::{AllocError, Global};

/// The live branches, the process's own cases in order of their first records, the last boot, and the newest
/// boot of a ticket of a branch that promised.
#[derive(Drop)]
pub(crate) struct ReplayedCases {
    pub(crate) branches: LiveBranches,
    pub(crate) order: IndexSet<Case>,
    pub(crate) boot: u64,
    pub(crate) newest: u64,
}

/// Whether an operator can decide a branch at this stage, or it can be told this outcome: it promised, and it
/// is told what comes after his decision alone.
fn can_be_told(stage: BranchStage, told: Option<Outcome>) -> bool
    ensures { result ≡ fits_told told stage }
{
    match stage {
        BranchStage::Active { .. } => false,
        BranchStage::Prepared => told.is_none(),
        BranchStage::Heuristic { .. } => true,
    }
}

impl ReplayedCases {
    /// No case. It takes no memory.
    pub(crate) fn new(alloc: Global) -> ReplayedCases
        ensures order { result.order.keys ≡ [] }
        ensures tickets { result.branches.tickets ≡ [] }
        ensures branches { result.branches.branches ≡ [] }
        ensures numbers { (result.boot ≡ 0) × (result.newest ≡ 0) }
    {
        ReplayedCases {
            branches: LiveBranches::new(alloc),
            order: IndexSet::new(alloc),
            boot: 0,
            newest: 0,
        }
    }

    /// There was a record of the case.
    fn note(&mut self, case: Case) -> Result<(), AllocError>
        ensures { OnOk result (AddsCase self.old self.new case) }
    {
        let _ = self.order.insert(case)?;
        Ok(())
    }

    /// The case promised. Unfit: it has promised already, or has no ticket.
    fn promise(&mut self, parent: ProcessId, case: Case) -> Result<(), RebuildError>
        ensures ok { OnOk result (Promises self.old self.new parent case) }
        ensures err { IfErr result (IsRefusal (CanPromise self.old case)) }
    {
        let Some(ticket) = case.ticket else {
            return Err(RebuildError::Unfit);
        };
        if self.branches.find(&case).is_some() {
            return Err(RebuildError::Unfit);
        }
        let promised = Kept {
            xid: name_xid(Some(parent), BranchName::Case(case)),
            stage: BranchStage::Prepared,
        };
        self.branches.restore(case, promised)?;
        if self.newest < ticket.boot {
            self.newest = ticket.boot;
        }
        Ok(())
    }

    /// An operator decided the case, or it was told this outcome since. Unfit: it did not promise, or it was
    /// told before an operator decided it.
    fn decide(&mut self, case: &Case, told: Option<Outcome>) -> Result<(), RebuildError>
        ensures ok { OnOk result (DecidesCase self.old self.new case.now told) }
        ensures err { IfErr result (IsRefusal (CanDecide self.old told case.now)) }
    {
        let Some(key) = self.branches.find(case) else {
            return Err(RebuildError::Unfit);
        };
        let Some(branch) = self.branches.get(key) else {
            return Err(RebuildError::Unfit);
        };
        if !can_be_told(branch.stage, told) {
            return Err(RebuildError::Unfit);
        }
        self.branches.decide(key, told);
        Ok(())
    }

    /// The case is finished.
    fn end(&mut self, case: &Case)
        ensures { FinishesCase self.old self.new case.now }
    {
        if let Some(key) = self.branches.find(case) {
            self.branches.remove(key);
        }
    }

    /// One record more. Unfit: it is of a coordinator's case; or it names a branch whose XID reads as another
    /// name; or a case promised that has done so already, or was decided that did not promise, or told that
    /// was not decided.
    pub(crate) fn take(
        &mut self,
        me: ProcessId,
        parent: ProcessId,
        tree: &Tree,
        next: &LogRecord,
    ) -> Result<(), RebuildError>
        ensures ok { OnOk result (ReadsRecord (leaf_place me parent tree.now) parent self.old
            self.new next.now) }
        ensures err { IfErr result (IsRefusal (CanCome (leaf_place me parent tree.now) self.old next.now)) }
    {
        match saying_of(&next.entry) {
            Saying::Nothing => Ok(()),
            Saying::Boot(boot) => {
                self.boot = boot;
                Ok(())
            }
            Saying::Promises(branch) => {
                if let Some(case) = own_case(me, parent, tree, next.parent, branch)? {
                    self.note(case)?;
                    self.promise(parent, case)?;
                }
                Ok(())
            }
            Saying::Ends(branch) => {
                if let Some(case) = own_case(me, parent, tree, next.parent, branch)? {
                    self.note(case)?;
                    self.end(&case);
                }
                Ok(())
            }
            Saying::Decides(branch, told) => {
                if let Some(case) = own_case(me, parent, tree, next.parent, branch)? {
                    self.note(case)?;
                    self.decide(&case, told)?;
                }
                Ok(())
            }
            Saying::Coordinates => Err(RebuildError::Unfit),
        }
    }
}
