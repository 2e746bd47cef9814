//! WORK: done in order, and nothing after a refusal.

ghost use Rattle.std.specs.Prelude.{◌≡◌, ◌+◌, false, IfErr, IfOk};
ghost use Rattle.protocol_words.specs.message;
ghost use Rattle.sub_process.specs.Subordinates.{Hears, IsAt, NotHeard, active, seen};

use crate::subordinate::{Subordinate, find_branch};
use protocol::{Case, Op, Reaction, StepError};
use resource_manager::ResourceManager;
use sub_work::{silence, work};
use xa_xid::Xid;

impl<M: ResourceManager> Subordinate<M> {
    /// The next work of an Active case. Where the data are in its way the branch is spoiled.
    fn work_on(
        &mut self,
        key: usize,
        case: Case,
        given_for: Case,
        done: u64,
        number: u64,
        xid: &Xid,
        op: &Op,
    ) -> Result<Reaction, StepError>
        requires up { (M.sight self.old.manager).log.failed ≡ false }
        requires at { IsAt self.old.table key case (active xid.now given_for done false) }
        requires next { number ≡ done + 1 }
        ensures ok { IfOk result (Hears (seen M.sight self.old) (seen M.sight self.new)
            (message.Work case number op.now)) }
        ensures err { IfErr result (NotHeard (seen M.sight self.old) (seen M.sight self.new)
            (message.Work case number op.now)) }
    {
        match work(&mut self.manager, xid, op) {
            Ok(true) => {
                self.branches.note(key, given_for, number, false);
                Ok(silence(self.alloc))
            }
            Ok(false) => {
                self.branches.note(key, given_for, done, true);
                Ok(silence(self.alloc))
            }
            Err(_) => Err(StepError::Memory),
        }
    }

    /// WORK: the next one of an Active case is done; any other, and one of a case that takes no work, does
    /// nothing.
    pub fn work(&mut self, case: Case, number: u64, op: &Op) -> Result<Reaction, StepError>
        requires up { (M.sight self.old.manager).log.failed ≡ false }
        ensures ok { IfOk result (Hears (seen M.sight self.old) (seen M.sight self.new)
            (message.Work case number op.now)) }
        ensures err { IfErr result (NotHeard (seen M.sight self.old) (seen M.sight self.new)
            (message.Work case number op.now)) }
    {
        let Some((key, branch)) = find_branch(&self.branches, &case) else {
            return Ok(silence(self.alloc));
        };
        let xid = branch.xid;
        match branch.stage.takes(number) {
            Some((given_for, done)) => {
                self.work_on(key, case, given_for, done, number, &xid, op)
            }
            None => Ok(silence(self.alloc)),
        }
    }
}
