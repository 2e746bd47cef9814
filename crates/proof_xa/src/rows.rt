//! Laws of the definitions. The functions do nothing: each one's contract is a law.

ghost use Rattle.proof_xa.specs.Rows.{RefusalsAreChecks, TurnsAreRows};

/// What a key store makes of a call that finishes a branch is a row of the table of branches wherever it has
/// any.
pub fn turns_are_rows()
    ensures { TurnsAreRows }
{}

/// So a key store refuses such a call by the first check that applies, and for no other reason.
pub fn refusals_are_checks()
    ensures { RefusalsAreChecks }
{}
