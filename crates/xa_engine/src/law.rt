//! That the history of a script is legal.

ghost use Rattle.std.specs.Prelude.{List};
ghost use Rattle.kv_manager.specs.Sights.{KvSight};
ghost use Rattle.xa_engine.specs.declared.script.request.Request.{Request as AnyRequest};
ghost use Rattle.xa_engine.specs.declared.answer.RequestAnswer.{RequestAnswer};
ghost use Rattle.xa_engine.specs.Histories.{IsHistory};
ghost use Rattle.xa_engine.specs.Runs.{IsFreshManager, RequestsLead};

/// Whatever requests are made of a new manager, what they do to the tables of XA is a legal history: each
/// projection walks rows of the tables and what restarts leave, and each answer off the rows is that of the
/// first check that applies, or the manager's own.
pub fn histories_are_legal()
    ensures { (m n : KvSight) (requests : List AnyRequest) (answers : List RequestAnswer)
        → IsFreshManager m → RequestsLead m requests answers n → IsHistory m requests answers n }
{}
