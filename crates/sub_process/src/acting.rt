//! The acts: a manager has no children; its operator decides, and forgets.

ghost use Rattle.std.specs.Prelude.{◌≡◌, false, true, IfErr, IfOk};
ghost use Rattle.process_state.specs.Turns.{Refuses, childless_turn, is_refusal};
ghost use Rattle.protocol_words.specs.act;
ghost use Rattle.sub_branches.specs.Tables.{branch_in, kept_view};
ghost use Rattle.sub_process.specs.Subordinates.{seen};
ghost use Rattle.sub_process.specs.Steps.{Acts, NotActed};

use crate::subordinate::{Subordinate, find_branch};
use protocol::{Act, Case, Message, Reaction, StepError};
use resource_manager::ResourceManager;
use sub_branches::{BranchStage, LiveBranch};
use sub_work::reply;

/// Why an act for children is refused, by what is kept of its case: a manager has none.
fn childless(branch: Option<LiveBranch>) -> StepError
    ensures is { childless_turn (kept_view branch).standing ≡ Refuses result }
    ensures refusal { is_refusal result ≡ true }
{
    match branch {
        None => StepError::UnknownTxn,
        Some(branch) => match branch.stage {
            BranchStage::Active { .. } => StepError::NotAChild,
            BranchStage::Prepared => StepError::Closed,
            BranchStage::Heuristic { .. } => StepError::Closed,
        },
    }
}

impl<M: ResourceManager> Subordinate<M> {
    /// What is kept of a case, if it is live.
    fn branch(&self, case: &Case) -> Option<LiveBranch>
        ensures { result ≡ branch_in self.now.table case.now }
    {
        let (_, branch) = find_branch(&self.branches, case)?;
        Some(*branch)
    }

    /// A question to the parent about a case in doubt, or about one that an operator decided and that was
    /// not told. UnknownTxn: the case is not live. NotInDoubt: it did not promise, or was told. Memory.
    /// Nothing changed.
    fn ask(&self, case: Case) -> Result<Reaction, StepError>
        ensures ok { IfOk result (Acts (seen M.sight self.now) (seen M.sight self.now) (act.Ask case)) }
        ensures err { IfErr result (NotActed (seen M.sight self.now) (seen M.sight self.now) (act.Ask case)) }
    {
        let Some(branch) = self.branch(&case) else {
            return Err(StepError::UnknownTxn);
        };
        if !branch.stage.awaits() {
            return Err(StepError::NotInDoubt);
        }
        let inquiry = Message::Inquire(case);
        Ok(reply(self.alloc, self.me, self.parent, inquiry)?)
    }

    /// An act. A case in doubt is asked about, and decided by an operator; one that is decided is asked
    /// about until it was told, and forgotten. Any other act is refused, and nothing changed: NoSuch, as no
    /// transaction begins here; UnknownTxn, where the case is not live, and at each commit and abort;
    /// NotAChild, or Closed once the branch promised; NotInDoubt; NothingToForget. Memory: nothing changed.
    /// Device, of a decision and of what is forgotten: it fails now.
    pub(crate) fn act(&mut self, act: &Act) -> Result<Reaction, StepError>
        requires up { (M.sight self.old.manager).log.failed ≡ false }
        ensures ok { IfOk result (Acts (seen M.sight self.old) (seen M.sight self.new) act.now) }
        ensures err { IfErr result (NotActed (seen M.sight self.old) (seen M.sight self.new) act.now) }
    {
        match act {
            Act::Begin(_) => Err(StepError::NoSuch),
            Act::Join(case, _) => Err(childless(self.branch(case))),
            Act::Work(case, _, _) => Err(childless(self.branch(case))),
            Act::Commit(_) | Act::Abort(_) => Err(StepError::UnknownTxn),
            Act::Ask(case) => self.ask(*case),
            Act::Decide(case, outcome) => self.decide(*case, *outcome),
            Act::Forget(case) => self.forget(*case),
        }
    }
}
