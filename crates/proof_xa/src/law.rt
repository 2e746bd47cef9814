//! That every history is legal.

ghost use Rattle.std.specs.Prelude.{List};
ghost use Rattle.xa_assoc.specs.declared.states.States.{States as AnyStates};
ghost use Rattle.xa_assoc.specs.Answers.{AreNewStates};
ghost use Rattle.proof_xa.specs.Moves.{MovesLead, XaMove};
ghost use Rattle.proof_xa.specs.Histories.{IsLegalHistory};

/// Whatever happens at a new manager, the history is legal: each projection walks rows of the tables and the
/// two moves without a call, and each answer off the rows is that of the first check that applies, or the
/// manager's own.
pub fn histories_are_legal()
    ensures { (m n : AnyStates) (moves : List XaMove) → AreNewStates m → MovesLead m moves n
        → IsLegalHistory m moves n }
{}
