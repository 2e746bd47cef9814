//! The laws of what a new manager answers to a script. The functions do nothing: each one's contract is a
//! law.

ghost use Rattle.std.specs.Prelude.{ℕ, List, ◌≡◌};
ghost use Rattle.judge_rules.specs.Histories.{IsLegal};
ghost use Rattle.judge_script.specs.declared.reading.Transcript.{Transcript as AnyTranscript};
ghost use Rattle.judge_script.specs.Transcripts.{IsBadLine, IsTranscript};
ghost use Rattle.kv_manager.specs.Sights.{KvSight};
ghost use Rattle.xa_engine.specs.declared.answer.RequestAnswer.{RequestAnswer};
ghost use Rattle.xa_engine.specs.declared.script.request.Request.{Request as AnyRequest};
ghost use Rattle.xa_engine.specs.Runs.{IsFreshManager, RequestsLead, report_text};
ghost use Rattle.xa_engine.specs.script.Scripts.{IsXaScript};
ghost use Rattle.proof_judged_deeds.specs.Names.{lacks_forced};
ghost use Rattle.proof_judged_texts.specs.Texts.{IsReadAs, transcript};

/// What the judge reads in the transcript of a script and its report are the requests with their answers, and
/// the key store is judged as one whose end of a prepared branch may be lost.
pub fn transcripts_are_read()
    ensures { (m k : KvSight) (input : List ℕ) (requests : List AnyRequest) (answers : List RequestAnswer)
        (t : AnyTranscript) → IsFreshManager m → RequestsLead m requests answers k → IsXaScript input requests
        → IsTranscript (transcript input (report_text answers)) t → IsReadAs requests answers t }
{}

/// No line of that transcript is bad.
pub fn transcripts_have_no_bad_line()
    ensures { (m k : KvSight) (input : List ℕ) (requests : List AnyRequest)
        (answers : List RequestAnswer) (number : ℕ)
        → IsFreshManager m → RequestsLead m requests answers k → IsXaScript input requests
        → IsBadLine (transcript input (report_text answers)) number → ⊥ }
{}

/// What the judge reads in it is a legal history.
pub fn transcripts_conform()
    ensures { (m k : KvSight) (input : List ℕ) (requests : List AnyRequest) (answers : List RequestAnswer)
        (t : AnyTranscript) → IsFreshManager m → RequestsLead m requests answers k → IsXaScript input requests
        → IsTranscript (transcript input (report_text answers)) t
        → (t.rules ≡ lacks_forced) × IsLegal t.rules t.events.items }
{}
