//! The law. The function does nothing: its contract is a law.

ghost use Rattle.std.specs.Prelude.{List};
ghost use Rattle.xa_assoc.specs.Answers.{AreNewStates};
ghost use Rattle.xa_assoc.specs.declared.states.States.{States as AnyStates};
ghost use Rattle.xa_xid.specs.declared.xid.Xid.{Xid as AnyXid};
ghost use Rattle.judge_state.specs.declared.parts.JudgedDecision.{JudgedDecision};
ghost use Rattle.judge_rules.specs.declared.calls.HistoryEvent.{HistoryEvent};
ghost use Rattle.judge_rules.specs.Histories.{IsLegal};
ghost use Rattle.proof_judged_deeds.specs.Deeds.{DeedsLead, none_lost};
ghost use Rattle.proof_judged_deeds.specs.Names.{NameNumbers, lacks_forced};

/// Whatever happens to the tables of a key store, as far as `Deed` has it, is a legal history of the judge of
/// a manager that decides no branch by itself, and whose end of a prepared branch may not be forced.
pub fn deeds_conform()
    ensures { (n : NameNumbers) (m : AnyStates) (d : AnyXid → JudgedDecision) (es : List HistoryEvent)
        → AreNewStates m → DeedsLead n m d none_lost es
        → IsLegal lacks_forced es }
{}
