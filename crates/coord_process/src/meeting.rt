//! Which turn an input meets: the acts.

ghost use Rattle.std.specs.Prelude.{◌≡◌, false, true, IfErr, IfOk};
ghost use Rattle.case_table.specs.Tables.{AreApart};
ghost use Rattle.protocol_words.specs.Types.{AnyInput};
ghost use Rattle.process_state.specs.Inputs.{input_of};
ghost use Rattle.process_state.specs.Turns.{is_refusal, live_turn};
ghost use Rattle.coord_cases.specs.Cases.{view_in};
ghost use Rattle.coord_cases.specs.Takes.{IsLiveAt};
ghost use Rattle.coord_process.specs.Meets.{IsClosed, May, Meets, MeetsAct, meant};

use crate::coordinator::Coordinator;
use crate::places::{is_child, is_manager};
use crate::turn::Met;
use coord_rows::CaseInput;
use log_store::LogStore;
use process_state::{InputRef, is_listed};
use protocol::{Act, Case, Op, Presumption, ProcessId, Standing, StepError, Txn};

impl<L: LogStore> Coordinator<L> {
    /// Which turn an input meets.
    pub(crate) fn meet<'a>(&self, input: InputRef<'a>) -> Met<'a>
        ensures { Meets self.now (input_of input.entry) result }
    {
        if !is_listed(&self.tree, input) {
            return Met::Refuses(StepError::NoSuch);
        }
        if self.log.failed() {
            return Met::Refuses(StepError::Failed);
        }
        match input {
            InputRef::Act(act) => self.meet_act(act),
            InputRef::Message(number, message) => self.hear(number, message),
        }
    }

    fn meet_act<'a>(&self, act: &'a Act) -> Met<'a>
        requires { self.now.log.sight.failed ≡ false }
        ensures { MeetsAct self.now act.now result }
    {
        match act {
            Act::Begin(presumption) => self.meet_begin(*presumption),
            Act::Join(case, child) => self.meet_join(*case, *child),
            Act::Work(case, child, op) => self.meet_work(*case, *child, op),
            Act::Commit(txn) => self.meet_commit(*txn),
            Act::Abort(txn) => self.meet_abort(*txn),
            Act::Ask(case) => self.meet_ask(*case),
            Act::Decide(case, _) => self.meet_operator(case, StepError::NotInDoubt),
            Act::Forget(case) => self.meet_forget(*case),
        }
    }

    /// Begin: at the root alone.
    fn meet_begin(&self, presumption: Presumption) -> Met<'static>
        ensures { MeetsAct self.now (Act.Begin presumption) result }
    {
        match self.parent {
            None => Met::Begins(presumption),
            Some(_) => Met::Refuses(StepError::NoSuch),
        }
    }

    /// The key of a case that is Active. UnknownTxn: it is not live. Closed: it takes no children and no
    /// work any more.
    fn active(&self, case: &Case) -> Result<usize, StepError>
        ensures ok { IfOk result (λ key. IsLiveAt self.now.slots key case.now
            × ((view_in self.now.slots case.now).standing ≡ Standing.Active)) }
        ensures err { IfErr result (λ e. IsClosed (view_in self.now.slots case.now).standing e) }
        ensures apart { AreApart self.now.slots }
    {
        match self.find(case) {
            Some((key, Standing::Active)) => Ok(key),
            None | Some((_, Standing::Unknown)) => Err(StepError::UnknownTxn),
            Some(_) => Err(StepError::Closed),
        }
    }

    /// Join: the case is Active, and the process is a child of this one.
    fn meet_join(&self, case: Case, child: ProcessId) -> Met<'static>
        requires { self.now.log.sight.failed ≡ false }
        ensures { MeetsAct self.now (Act.Join case child) result }
    {
        match self.active(&case) {
            Err(error) => Met::Refuses(error),
            Ok(key) => {
                if is_child(&self.tree, child, self.me) {
                    Met::Takes(key, case, CaseInput::Join(child))
                } else {
                    Met::Refuses(StepError::NotAChild)
                }
            }
        }
    }

    /// Work: the case is Active, and the process is an accepted child of it, and a manager.
    fn meet_work<'a>(&self, case: Case, child: ProcessId, op: &'a Op) -> Met<'a>
        requires { self.now.log.sight.failed ≡ false }
        ensures { MeetsAct self.now (Act.Work case child op.now) result }
    {
        match self.active(&case) {
            Err(error) => Met::Refuses(error),
            Ok(key) => match self.accepted(key, &case, child) {
                Some(ticket) if is_manager(&self.tree, ticket.child) => {
                    Met::Takes(key, case, CaseInput::Work(ticket, op))
                }
                _ => Met::Refuses(StepError::NotAChild),
            },
        }
    }

    /// Commit: the root's case is Active.
    fn meet_commit(&self, txn: Txn) -> Met<'static>
        requires { self.now.log.sight.failed ≡ false }
        ensures { MeetsAct self.now (Act.Commit txn) result }
    {
        let case = Case { txn, ticket: None };
        match self.active(&case) {
            Err(error) => Met::Refuses(error),
            Ok(key) => Met::Takes(key, case, CaseInput::Commit),
        }
    }

    /// Abort: the root's case is Active, or collects votes.
    fn meet_abort(&self, txn: Txn) -> Met<'static>
        requires { self.now.log.sight.failed ≡ false }
        ensures { MeetsAct self.now (Act.Abort txn) result }
    {
        let case = Case { txn, ticket: None };
        match self.find(&case) {
            Some((key, Standing::Active)) => Met::Takes(key, case, CaseInput::AbortActive),
            Some((key, Standing::Collecting)) => Met::Takes(key, case, CaseInput::AbortCollecting),
            None | Some((_, Standing::Unknown)) => Met::Refuses(StepError::UnknownTxn),
            Some(_) => Met::Refuses(StepError::Closed),
        }
    }

    /// Ask: the case is in doubt.
    fn meet_ask(&self, case: Case) -> Met<'static>
        requires { self.now.log.sight.failed ≡ false }
        ensures { MeetsAct self.now (Act.Ask case) result }
    {
        match self.find(&case) {
            Some((key, Standing::Prepared)) => Met::Takes(key, case, CaseInput::Ask),
            None | Some((_, Standing::Unknown)) => Met::Refuses(StepError::UnknownTxn),
            Some(_) => Met::Refuses(StepError::NotInDoubt),
        }
    }

    /// Forget: the root's case has ended, and what it reports is cleared. A case that is live has nothing to
    /// forget, and below the root there are no reports.
    fn meet_forget(&self, case: Case) -> Met<'static>
        requires { self.now.log.sight.failed ≡ false }
        ensures { MeetsAct self.now (Act.Forget case) result }
    {
        match (self.standing(&case), self.parent) {
            (Standing::Unknown, None) => Met::Clears(case),
            (Standing::Unknown, Some(_)) => Met::Refuses(StepError::UnknownTxn),
            _ => Met::Refuses(StepError::NothingToForget),
        }
    }

    /// What an operator decides is a manager's: a live case gets this refusal.
    fn meet_operator(&self, case: &Case, refusal: StepError) -> Met<'static>
        requires { is_refusal refusal ≡ true }
        ensures is { live_turn refusal (view_in self.now.slots case.now).standing ≡ meant self.now result }
        ensures may { (i : AnyInput) → May self.now i result }
    {
        match self.find(case) {
            None | Some((_, Standing::Unknown)) => Met::Refuses(StepError::UnknownTxn),
            Some(_) => Met::Refuses(refusal),
        }
    }
}
