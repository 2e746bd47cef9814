//! PREPARE, COMMIT and ABORT, in whatever standing they find their case.

ghost use Rattle.std.specs.Prelude.{◌≡◌, [], false, IfErr, IfOk};
ghost use Rattle.protocol_words.specs.message;
ghost use Rattle.protocol.specs.Standings.{unknown_findings};
ghost use Rattle.process_state.specs.Turns.{this_version};
ghost use Rattle.sub_work.specs.Replies.{shown};
ghost use Rattle.sub_process.specs.Subordinates.{Hears, NotHeard, acknowledged, seen};

use crate::ending::acknowledges;
use crate::subordinate::{Subordinate, find_branch};
use process_state::unknown_findings;
use protocol::{Case, Message, Outcome, Reaction, StepError};
use resource_manager::ResourceManager;
use std::alloc::AllocError;
use sub_branches::BranchStage;
use sub_work::{reply, silence};

impl<M: ResourceManager> Subordinate<M> {
    /// An outcome of a case of which nothing is known: it is acknowledged, and the case's ticket is
    /// unreported.
    fn unreported(&self, case: Case, outcome: Outcome) -> Result<Reaction, AllocError>
        ensures { IfOk result (λ reaction. reaction ≡ shown []
            (acknowledged self.now.me self.now.parent case outcome (unknown_findings this_version case))) }
    {
        let found = unknown_findings(self.alloc, case)?;
        acknowledges(self.alloc, self.me, self.parent, case, outcome, found)
    }

    /// PREPARE: an Active case votes, one that promised says YES again, and of any other nothing is known.
    pub fn prepare(&mut self, case: Case, works: u64) -> Result<Reaction, StepError>
        requires up { (M.sight self.old.manager).log.failed ≡ false }
        ensures ok { IfOk result (Hears (seen M.sight self.old) (seen M.sight self.new)
            (message.Prepare case works)) }
        ensures err { IfErr result (NotHeard (seen M.sight self.old) (seen M.sight self.new)
            (message.Prepare case works)) }
    {
        let Some((key, branch)) = find_branch(&self.branches, &case) else {
            return Ok(reply(self.alloc, self.me, self.parent, Message::No(case))?);
        };
        let xid = branch.xid;
        match branch.stage {
            BranchStage::Prepared => Ok(reply(
                self.alloc,
                self.me,
                self.parent,
                Message::Yes(case),
            )?),
            BranchStage::Heuristic { .. } => {
                Ok(reply(self.alloc, self.me, self.parent, Message::Yes(case))?)
            }
            BranchStage::Active { done, spoiled, .. } => {
                if done == works && !spoiled {
                    self.vote_with(key, case, works, &xid)
                } else {
                    self.refuse(key, case, works, &xid)
                }
            }
        }
    }

    /// COMMIT: a case in doubt commits, one that an operator decided notes the first outcome, and of one
    /// that is not known the outcome is acknowledged.
    pub fn commit(&mut self, case: Case) -> Result<Reaction, StepError>
        requires up { (M.sight self.old.manager).log.failed ≡ false }
        ensures ok { IfOk result (Hears (seen M.sight self.old)
            (seen M.sight self.new) (message.Commit case)) }
        ensures err { IfErr result (NotHeard (seen M.sight self.old)
            (seen M.sight self.new) (message.Commit case)) }
    {
        let Some((key, branch)) = find_branch(&self.branches, &case) else {
            return Ok(self.unreported(case, Outcome::Committed)?);
        };
        let xid = branch.xid;
        match branch.stage {
            BranchStage::Prepared => self.commit_prepared(key, case, &xid),
            BranchStage::Heuristic { told } => {
                self.tell_heuristic(key, case, &xid, told, Outcome::Committed)
            }
            BranchStage::Active { .. } => Ok(silence(self.alloc)),
        }
    }

    /// ABORT: an Active case is rolled back, and so is one in doubt; one that an operator decided notes the
    /// first outcome; of one that is not known the outcome is acknowledged.
    pub fn abort(&mut self, case: Case) -> Result<Reaction, StepError>
        requires up { (M.sight self.old.manager).log.failed ≡ false }
        ensures ok { IfOk result (Hears (seen M.sight self.old)
            (seen M.sight self.new) (message.Abort case)) }
        ensures err { IfErr result (NotHeard (seen M.sight self.old)
            (seen M.sight self.new) (message.Abort case)) }
    {
        let Some((key, branch)) = find_branch(&self.branches, &case) else {
            return Ok(self.unreported(case, Outcome::Aborted)?);
        };
        let xid = branch.xid;
        match branch.stage {
            BranchStage::Prepared => self.abort_prepared(key, case, &xid),
            BranchStage::Heuristic { told } => {
                self.tell_heuristic(key, case, &xid, told, Outcome::Aborted)
            }
            BranchStage::Active { .. } => self.abort_active(key, case, &xid),
        }
    }
}
