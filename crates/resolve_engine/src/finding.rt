//! The answer to a case.

ghost use Rattle.std.specs.Prelude.{◌≡◌, IfOk, true};
ghost use Rattle.protocol.specs.Audits.{KeptLogs};
ghost use Rattle.protocol.specs.Names.{process_of};
ghost use Rattle.protocol.specs.Nodes.{is_listed};
ghost use Rattle.protocol.specs.Trees.{IsTree};
ghost use Rattle.audit_tree.specs.Tables.{AreNotes};
ghost use Rattle.log_script.specs.Logs.{has_log};
ghost use Rattle.resolve_engine.specs.Answers.{above_answer, answer_of, decided_in, if_complete, is_unpromised, kept_answer, not_kept, step_answer, own_answer, own_kinds};
ghost use Rattle.resolve_engine.specs.Finders.{Finds, Looks};

use crate::answer::{AnswerReason, AnswerWord, BranchAnswer, by_outcome};
use crate::asked::Trust;
use audit_cases::Kinds;
use audit_engine::{AuditStep, Stands, StepFound, TreeNamings, all_namings, steps_of};
use audit_tree::TreeNotes;
use coord_records::presumed;
use log_script::ProcessLog;
use protocol::{Case, Outcome, ProcessId, Tree};
use std::alloc::{AllocError, Global};

/// What the logs of a tree say, where cases are looked up.
#[derive(Drop)]
pub struct Finder<'a> {
    tree: &'a Tree,
    logs: &'a [ProcessLog],
    notes: &'a TreeNotes,
    namings: TreeNamings,
    trust: Trust,
}

/// Whether a process has a log among these.
#[tactic(auto, unfolding(log_script::specs::Logs::has_log, protocol::specs::Names::same_process))]
pub(crate) fn has_log(logs: &[ProcessLog], process: ProcessId) -> bool
    ensures { result ≡ has_log logs.now process }
{
    logs.iter().any(|log| log.process == process)
}

/// The decision that records of these kinds say, if they say one.
fn decided(kinds: Kinds) -> Option<Outcome>
    ensures { result ≡ decided_in kinds }
{
    if kinds.committed || kinds.commit || kinds.told_commit {
        Some(Outcome::Committed)
    } else if kinds.rolled_back || kinds.told_abort || kinds.abort {
        Some(Outcome::Aborted)
    } else {
        None
    }
}

/// What its own log says of a case, if it says what to do.
fn own_answer(kinds: Kinds) -> Option<BranchAnswer>
    ensures { result ≡ own_answer kinds }
{
    if kinds.heur_commit {
        Some(BranchAnswer {
            word: AnswerWord::HeuristicCommit,
            reason: AnswerReason::Operator,
        })
    } else if kinds.heur_rollback {
        Some(BranchAnswer {
            word: AnswerWord::HeuristicRollback,
            reason: AnswerReason::Operator,
        })
    } else {
        let outcome = decided(kinds)?;
        Some(BranchAnswer {
            word: by_outcome(outcome),
            reason: AnswerReason::Own,
        })
    }
}

impl<'a> Finder<'a> {
    /// Looks cases up in these logs, of which this is noted.
    pub fn new(
        alloc: Global,
        tree: &'a Tree,
        logs: &'a [ProcessLog],
        notes: &'a TreeNotes,
        trust: Trust,
    ) -> Result<Self, AllocError>
        requires { IsTree tree.now }
        ensures { IfOk result (λ finder. Looks trust tree.now logs.now finder
            × ((kept : KeptLogs) → AreNotes tree.now kept notes.now.entries → Finds kept finder)) }
    {
        let namings = all_namings(alloc, tree, notes)?;
        Ok(Finder {
            tree,
            logs,
            notes,
            namings,
            trust,
        })
    }

    /// What is noted of a case in its own process's log.
    fn kinds_of(&self, case: &Case) -> Kinds
        ensures { (kept : KeptLogs) → Finds kept self.now
            → is_listed self.now.tree.now (process_of case.now) ≡ true
            → result ≡ own_kinds kept case.now }
    {
        match self.notes.get(&case.process()) {
            None => Kinds::none(),
            Some(own) => match own.of(case) {
                None => Kinds::none(),
                Some(note) => note.kinds(),
            },
        }
    }

    /// This word, if the logs are complete; else it has to wait.
    fn if_complete(&self, word: AnswerWord) -> AnswerWord
        ensures { result ≡ if_complete self.now.trust word }
    {
        match self.trust {
            Trust::Complete => word,
            Trust::Parts => AnswerWord::Wait,
        }
    }

    /// What a coordinator's case says of the ticket that it names.
    fn kept(&self, process: ProcessId, case: Case, stands: Stands) -> BranchAnswer
        ensures { result ≡ kept_answer self.now.trust process case stands }
    {
        let word = match stands {
            Stands::Commit => AnswerWord::Commit,
            Stands::Abort => AnswerWord::Rollback,
            Stands::Collecting | Stands::Prepare | Stands::Ended => {
                self.if_complete(AnswerWord::Rollback)
            }
        };
        BranchAnswer {
            word,
            reason: AnswerReason::Kept(process, case, stands),
        }
    }

    /// What follows where no case of this process names the ticket.
    fn not_kept(&self, process: ProcessId, case: &Case) -> BranchAnswer
        ensures { result ≡ not_kept self.now.trust (has_log self.now.logs.now process) process case.now }
    {
        if !has_log(self.logs, process) {
            return BranchAnswer {
                word: AnswerWord::Unknown(process),
                reason: AnswerReason::Missing(process),
            };
        }
        let presumption = case.txn.presumption;
        BranchAnswer {
            word: self.if_complete(by_outcome(presumed(presumption))),
            reason: AnswerReason::Presumed(process, presumption),
        }
    }

    /// What a step upward from a case says.
    fn found(&self, case: &Case, step: &AuditStep) -> BranchAnswer
        ensures { result ≡ step_answer self.now.trust self.now.logs.now case.now step.now }
    {
        match step.found {
            StepFound::Kept(next, stands) => self.kept(step.process, next, stands),
            StepFound::Nothing => self.not_kept(step.process, case),
        }
    }

    /// What the last step upward from a case says; if there is none, the case is the root's.
    fn above(&self, case: &Case, steps: &[AuditStep]) -> BranchAnswer
        ensures { result ≡ above_answer self.now.trust self.now.logs.now case.now steps.now }
    {
        let mut answer = BranchAnswer {
            word: self.if_complete(AnswerWord::Rollback),
            reason: AnswerReason::Root(case.process()),
        };
        for step in steps {
            answer = self.found(case, step);
        }
        answer
    }

    /// Whether nothing is known above, and the case's own log, which is here, has no promise of it.
    fn is_unpromised(&self, case: &Case, kinds: Kinds, found: BranchAnswer) -> bool
        ensures { result ≡ is_unpromised self.now.logs.now case.now kinds found }
    {
        let is_promised = kinds.prepared || kinds.prepare || kinds.ended;
        let is_known = match found.reason {
            AnswerReason::Kept(_, _, Stands::Commit | Stands::Abort) | AnswerReason::Missing(_) =>
                true,
            _ => false,
        };
        !is_promised && !is_known && case.ticket.is_some() && has_log(self.logs, case.process())
    }

    /// What is answered of a case of this tree.
    #[tactic(auto, unfolding(crate::specs::Answers::answer_of))]
    pub fn answer(&self, alloc: Global, case: &Case) -> Result<BranchAnswer, AllocError>
        requires tree { IsTree self.now.tree.now }
        requires listed { is_listed self.now.tree.now (process_of case.now) ≡ true }
        ensures { IfOk result (λ answer. (kept : KeptLogs) → Finds kept self.now
            → answer ≡ answer_of self.now.trust self.now.tree.now self.now.logs.now kept case.now) }
    {
        let kinds = self.kinds_of(case);
        if let Some(answer) = own_answer(kinds) {
            return Ok(answer);
        }
        let steps = steps_of(alloc, self.tree, &self.namings, case)?;
        let found = self.above(case, &steps);
        if self.is_unpromised(case, kinds, found) {
            let process = case.process();
            return Ok(BranchAnswer {
                word: AnswerWord::Unknown(process),
                reason: AnswerReason::NoPromise(process),
            });
        }
        Ok(found)
    }
}
