//! The laws. The functions do nothing: each one's contract is a law.

ghost use Rattle.std.specs.Prelude.{ℕ, List, length, ◌<◌, ◌-◌, ◌^◌};
ghost use Rattle.report_io.specs.declared.status.Status.TheVariants.{Ended};
ghost use Rattle.judge_rules.specs.declared.calls.HistoryEvent.{HistoryEvent};
ghost use Rattle.judge_rules.specs.Histories.{IsLegal};
ghost use Rattle.kv_manager.specs.Sights.{KvSight};
ghost use Rattle.xa_engine.specs.declared.answer.RequestAnswer.{RequestAnswer};
ghost use Rattle.xa_engine.specs.declared.script.request.Request.{Request as AnyRequest};
ghost use Rattle.xa_engine.specs.Runs.{IsFreshManager, IsXaReport, RequestsLead};
ghost use Rattle.proof_judged_runs.specs.Events.{AreRequests, Conforms};
ghost use Rattle.proof_judged_deeds.specs.Names.{NameNumbers, lacks_forced};

/// What a new manager answers to the requests of a script, reads and restarts among them, conforms to that
/// judge: with their names numbered they are events of a legal history. A restart keeps N of the unforced
/// bytes of the log or all of them: a branch that left S3 since the last restart may be back in it where some
/// bytes are cut off, and no other; then what it committed may be gone again. A script of 2^63 - 1 requests
/// could boot the manager as often, and is not spoken of.
pub fn runs_conform()
    ensures { (n : NameNumbers) (m k : KvSight) (requests : List AnyRequest) (answers : List RequestAnswer)
        (es : List HistoryEvent)
        → IsFreshManager m → RequestsLead m requests answers k → length requests < 2 ^ 63 - 1
        → AreRequests n requests answers es
        → IsLegal lacks_forced es }
{}

/// What `run_xa` writes of a script that it makes to its end conforms to that judge.
pub fn reports_conform()
    ensures { (input text : List ℕ) → IsXaReport Ended input text → Conforms input text }
{}
