//! What a process says of the cases of its children.

ghost use Rattle.std.specs.Prelude.{◌≡◌, Some, IfOk};
ghost use Rattle.std.specs.Option.{option_copied};
ghost use Rattle.audit_cases.specs.Sayings.{AreSaid, outcome_in, said_by, sayings_of};

use crate::firsts::Firsts;
use crate::notes::{Noted, NotedCases};
use coord_records::presumed;
use protocol::{Case, Outcome};
use std::alloc::{AllocError, Global};
use std::marker::Model;

/// Of each case of a child that a case of the process names, the outcome: that of the first of its cases
/// that names it.
#[derive(Drop)]
pub struct Sayings {
    outcomes: Firsts<Outcome>,
}

impl Model for Sayings {
    ghost use Rattle.audit_cases.specs.Sayings.{Outcomes};

    ghost Value = { Outcomes };

    ghost view = { λ s. s.outcomes };
}

/// The outcome of a case: its own decision or what it was told, or else what is said above. Above the root
/// there is nobody, and it aborts what it has not decided.
pub fn outcome_of(above: Option<&Sayings>, case: &Case, note: &Noted) -> Outcome
    ensures { result ≡ outcome_in (option_copied above.entry) case.now note.now }
{
    match note.kinds().decision() {
        Some(outcome) => outcome,
        None => match above {
            None => Outcome::Aborted,
            Some(sayings) => sayings.said_of(case),
        },
    }
}

impl Sayings {
    /// What is said by these notes, one case after another.
    fn passing(
        alloc: Global,
        above: Option<&Sayings>,
        notes: &NotedCases,
    ) -> Result<Sayings, AllocError>
        ensures { IfOk result (λ s. s ≡ sayings_of (option_copied above.entry) notes.now.table) }
    {
        let mut outcomes = Firsts::new(alloc);
        for (case, note) in notes.cases() {
            outcomes.keep_named(case, note, outcome_of(above, case, note))?;
        }
        Ok(Sayings { outcomes })
    }

    /// What a process says that knows this of its cases, where this is said of them above it. It goes
    /// through them once.
    pub fn of(
        alloc: Global,
        above: Option<&Sayings>,
        notes: &NotedCases,
    ) -> Result<Sayings, AllocError>
        ensures { IfOk result (λ s. AreSaid (option_copied above.entry) notes.now.table s) }
    {
        Sayings::passing(alloc, above, notes)
    }

    /// What is said of a child's case: the outcome, or where no case names it what is presumed.
    fn said_of(&self, case: &Case) -> Outcome
        ensures { result ≡ said_by (Some self.now) case.now }
    {
        match self.outcomes.get(case) {
            Some(outcome) => *outcome,
            None => presumed(case.txn.presumption),
        }
    }
}
