//! Laws of verdicts. The functions do nothing: each one's contract is a law.

ghost use Rattle.std.specs.Prelude.{◌≡◌, ℕ, List, Option, take};
ghost use Rattle.judge_rules.specs.declared.calls.HistoryEvent.{HistoryEvent};
ghost use Rattle.judge_rules.specs.declared.words.Rules.{Rules};
ghost use Rattle.judge_rules.specs.Histories.{IsLegal};
ghost use Rattle.judge_set.specs.Sets.{IsVerdict, without_promises};

/// What leads up to any call of a legal history is legal.
pub fn fronts_are_legal()
    ensures { (r : Rules) (es : List HistoryEvent) (n : ℕ) → IsLegal r es → IsLegal r (take n es) }
{}

/// A history has one verdict: it is legal, or one event is its first fault.
pub fn a_history_has_one_verdict()
    ensures { (r : Rules) (es : List HistoryEvent) (a b : Option ℕ) → IsVerdict r es a → IsVerdict r es b
        → a ≡ b }
{}

/// Promises only narrow what is admitted: what is legal by some is legal without them.
pub fn promises_only_narrow()
    ensures { (r : Rules) (es : List HistoryEvent) → IsLegal r es → IsLegal (without_promises r) es }
{}
