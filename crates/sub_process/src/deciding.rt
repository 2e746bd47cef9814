//! An operator's decision of a case in doubt, the outcome that comes after it, and its end.

ghost use Rattle.std.specs.Prelude.{◌≡◌, ℕ, false, None, Some, Option, IfErr, IfOk, option_map};
ghost use Rattle.protocol.specs.Names.{same_outcome};
ghost use Rattle.protocol.specs.CoordinatorRows.{tells_outcome};
ghost use Rattle.protocol_words.specs.act;
ghost use Rattle.protocol_words.specs.Types.{AnyOutcome};
ghost use Rattle.xa_xid.specs.declared.xid.Xid.{Xid as AnyXid};
ghost use Rattle.sub_branches.specs.Tables.{IsBranchTable};
ghost use Rattle.sub_process.specs.Subordinates.{Hears, IsAt, NotHeard, decided, decided_found, decision_kind, found_against, logged_alone, prepared, seen};
ghost use Rattle.sub_process.specs.Steps.{Acts, NotActed};

use crate::ending::{acknowledges, ends_by};
use crate::subordinate::{Subordinate, find_branch};
use protocol::{Case, Finding, Findings, Outcome, Reaction, RecordKind, Sequence, StepError};
use resource_manager::ResourceManager;
use std::alloc::{AllocError, Global};
use sub_branches::BranchStage;
use sub_work::{decide, forget, logged, silence, tell};
use xa_branch::Decision;
use xa_xid::Xid;

/// The kind of the record of a decision.
fn decision_kind(outcome: Outcome) -> RecordKind
    ensures { result ≡ decision_kind outcome }
{
    match outcome {
        Outcome::Committed => RecordKind::HeurCommit,
        Outcome::Aborted => RecordKind::HeurRollback,
    }
}

/// One forced record, and no message.
fn logged_alone(alloc: Global, kind: RecordKind, case: Case) -> Result<Reaction, AllocError>
    ensures { IfOk result (λ reaction. reaction ≡ logged_alone kind case) }
{
    let written = logged(alloc, kind, case, true)?;
    Ok(Reaction {
        written,
        ..silence(alloc)
    })
}

/// Whether two outcomes are one.
#[tactic(auto, unfolding(protocol::specs::Names::same_outcome))]
fn is_same(one: Outcome, other: Outcome) -> bool
    ensures { result ≡ same_outcome one other }
{
    one == other
}

/// What is found of a branch that an operator decided, as this outcome comes: its ticket is mixed where he
/// decided against it.
fn decided_findings(
    alloc: Global,
    case: Case,
    decision: Option<Decision>,
    outcome: Outcome,
) -> Result<Findings, AllocError>
    ensures { IfOk result (λ findings. findings
        ≡ found_against case (option_map (λ d. d.outcome) decision) outcome) }
{
    let mut findings = Sequence::new(alloc);
    if let (Some(decision), Some(ticket)) = (decision, case.ticket) {
        if !is_same(decision.outcome, outcome) {
            findings.push(Finding::Mixed(ticket))?;
        }
    }
    Ok(findings)
}

impl<M: ResourceManager> Subordinate<M> {
    /// What is found of a branch that an operator decided, as this outcome comes.
    fn findings(&self, case: Case, xid: &Xid, outcome: Outcome) -> Result<Findings, AllocError>
        requires at { (key : ℕ) × (told : Option AnyOutcome)
            × IsAt self.now.table key case (decided xid.now told) }
        ensures { IfOk result (λ findings. findings ≡ decided_found (seen M.sight self.now) case outcome) }
    {
        decided_findings(self.alloc, case, self.manager.decision(xid), outcome)
    }

    /// An operator decides a case in doubt, without its parent.
    fn decide_prepared(
        &mut self,
        key: usize,
        case: Case,
        xid: &Xid,
        outcome: Outcome,
    ) -> Result<Reaction, StepError>
        requires up { (M.sight self.old.manager).log.failed ≡ false }
        requires at { IsAt self.old.table key case (prepared xid.now) }
        ensures ok { IfOk result (Acts (seen M.sight self.old) (seen M.sight self.new)
            (act.Decide case outcome)) }
        ensures err { IfErr result (NotActed (seen M.sight self.old) (seen M.sight self.new)
            (act.Decide case outcome)) }
    {
        let reaction = logged_alone(self.alloc, decision_kind(outcome), case)?;
        match decide(&mut self.manager, xid, outcome) {
            Ok(()) => {
                self.branches.decide(key, None);
                Ok(reaction)
            }
            Err(error) => Err(error),
        }
    }

    /// An operator decides a case. UnknownTxn: it is not live. NotInDoubt: it did not promise, or was
    /// decided already.
    pub(crate) fn decide(&mut self, case: Case, outcome: Outcome) -> Result<Reaction, StepError>
        requires up { (M.sight self.old.manager).log.failed ≡ false }
        ensures ok { IfOk result (Acts (seen M.sight self.old) (seen M.sight self.new)
            (act.Decide case outcome)) }
        ensures err { IfErr result (NotActed (seen M.sight self.old) (seen M.sight self.new)
            (act.Decide case outcome)) }
    {
        let Some((key, branch)) = find_branch(&self.branches, &case) else {
            return Err(StepError::UnknownTxn);
        };
        let xid = branch.xid;
        match branch.stage {
            BranchStage::Prepared => self.decide_prepared(key, case, &xid, outcome),
            BranchStage::Active { .. } => Err(StepError::NotInDoubt),
            BranchStage::Heuristic { .. } => Err(StepError::NotInDoubt),
        }
    }

    /// The first outcome of a case that an operator decided: it is noted.
    fn told_first(
        &mut self,
        key: usize,
        case: Case,
        xid: &Xid,
        outcome: Outcome,
    ) -> Result<Reaction, StepError>
        requires up { (M.sight self.old.manager).log.failed ≡ false }
        requires at { IsAt self.old.table key case (decided xid.now None) }
        requires kept { IsBranchTable self.old.table }
        ensures ok { IfOk result (Hears (seen M.sight self.old) (seen M.sight self.new)
            (tells_outcome outcome case)) }
        ensures err { IfErr result (NotHeard (seen M.sight self.old) (seen M.sight self.new)
            (tells_outcome outcome case)) }
    {
        let found = self.findings(case, xid, outcome)?;
        let reaction = ends_by(
            self.alloc,
            self.me,
            self.parent,
            case,
            RecordKind::Told,
            outcome,
            found,
        )?;
        match tell(&mut self.manager, xid, outcome) {
            Ok(()) => {
                self.branches.decide(key, Some(outcome));
                Ok(reaction)
            }
            Err(error) => Err(error),
        }
    }

    /// A further outcome of a case that an operator decided: the same is acknowledged again, the other does
    /// nothing.
    fn told_again(
        &self,
        case: Case,
        xid: &Xid,
        told: Outcome,
        outcome: Outcome,
    ) -> Result<Reaction, StepError>
        requires at { (key : ℕ) × IsAt self.now.table key case (decided xid.now (Some told)) }
        requires kept { IsBranchTable self.now.table }
        ensures ok { IfOk result (Hears (seen M.sight self.now) (seen M.sight self.now)
            (tells_outcome outcome case)) }
        ensures err { IfErr result (NotHeard (seen M.sight self.now) (seen M.sight self.now)
            (tells_outcome outcome case)) }
    {
        if is_same(told, outcome) {
            let found = self.findings(case, xid, outcome)?;
            Ok(acknowledges(self.alloc, self.me, self.parent, case, outcome, found)?)
        } else {
            Ok(silence(self.alloc))
        }
    }

    /// COMMIT or ABORT of a case that an operator decided.
    pub(crate) fn tell_heuristic(
        &mut self,
        key: usize,
        case: Case,
        xid: &Xid,
        told: Option<Outcome>,
        outcome: Outcome,
    ) -> Result<Reaction, StepError>
        requires up { (M.sight self.old.manager).log.failed ≡ false }
        requires at { IsAt self.old.table key case (decided xid.now told) }
        requires kept { IsBranchTable self.old.table }
        ensures ok { IfOk result (Hears (seen M.sight self.old) (seen M.sight self.new)
            (tells_outcome outcome case)) }
        ensures err { IfErr result (NotHeard (seen M.sight self.old) (seen M.sight self.new)
            (tells_outcome outcome case)) }
    {
        match told {
            None => self.told_first(key, case, xid, outcome),
            Some(told) => self.told_again(case, xid, told, outcome),
        }
    }

    /// What an operator decided of a case is forgotten, and so is the case.
    fn forget_decided(
        &mut self,
        key: usize,
        case: Case,
        xid: &Xid,
        told: Option<Outcome>,
    ) -> Result<Reaction, StepError>
        requires up { (M.sight self.old.manager).log.failed ≡ false }
        requires at { IsAt self.old.table key case (decided xid.now told) }
        requires kept { IsBranchTable self.old.table }
        ensures ok { IfOk result (Acts (seen M.sight self.old) (seen M.sight self.new) (act.Forget case)) }
        ensures err { IfErr result (NotActed (seen M.sight self.old)
            (seen M.sight self.new) (act.Forget case)) }
    {
        let reaction = logged_alone(self.alloc, RecordKind::Forgot, case)?;
        match forget(&mut self.manager, xid) {
            Ok(()) => {
                self.branches.remove(key);
                Ok(reaction)
            }
            Err(error) => Err(error),
        }
    }

    /// An operator forgets a case. UnknownTxn: it is not live. NothingToForget: no operator decided it.
    pub(crate) fn forget(&mut self, case: Case) -> Result<Reaction, StepError>
        requires up { (M.sight self.old.manager).log.failed ≡ false }
        ensures ok { IfOk result (Acts (seen M.sight self.old) (seen M.sight self.new) (act.Forget case)) }
        ensures err { IfErr result (NotActed (seen M.sight self.old)
            (seen M.sight self.new) (act.Forget case)) }
    {
        let Some((key, branch)) = find_branch(&self.branches, &case) else {
            return Err(StepError::UnknownTxn);
        };
        let xid = branch.xid;
        match branch.stage {
            BranchStage::Heuristic { told } => self.forget_decided(key, case, &xid, told),
            BranchStage::Active { .. } => Err(StepError::NothingToForget),
            BranchStage::Prepared => Err(StepError::NothingToForget),
        }
    }
}
