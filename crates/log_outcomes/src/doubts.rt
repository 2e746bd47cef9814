//! The cases in doubt by the records of a log, and those that an operator decided and that wait to be told.

ghost use Rattle.std.specs.Prelude.{◌≡◌, IfOk, OnOk, not};
ghost use Rattle.protocol.specs.Names.{same_case};
ghost use Rattle.log_outcomes.specs.Doubts.{
  decisions_after,
  decisions_in,
  doubts_after,
  doubts_in,
  other_decisions,
  others_in,
};

use crate::saying::{SayingStage, saying};
use protocol::{Case, LogRecord, Outcome};
use std::alloc::{AllocError, Global};

/// A case that an operator decided and that was not told its outcome, and what the operator decided.
#[derive(Clone, Copy, PartialEq, Eq)]
pub struct LoggedDecision {
    pub case: Case,
    pub outcome: Outcome,
}

/// The case leaves the list.
fn strike(cases: &mut Vec<Case>, case: Case)
    ensures { cases.new.items ≡ others_in case cases.old.items }
{
    cases.retain(
        |other: &Case| -> bool
            ensures { result ≡ not (same_case case other.now) }
        { !case.is(other) },
    );
}

/// The cases in doubt after a record of the log.
fn note(cases: &mut Vec<Case>, kept: &LogRecord) -> Result<(), AllocError>
    ensures { OnOk result (cases.new.items ≡ doubts_after cases.old.items kept.now) }
{
    match saying(&kept.entry) {
        None => Ok(()),
        Some((_, SayingStage::Open)) => Ok(()),
        Some((case, SayingStage::Doubt)) => {
            strike(cases, case);
            cases.push(case)?;
            Ok(())
        }
        Some((case, SayingStage::Decided(_) | SayingStage::Ended(_) | SayingStage::Over)) => {
            strike(cases, case);
            Ok(())
        }
    }
}

/// The cases that are in doubt by these records: they promised, no operator decided them, and they were not
/// told their outcome. In the order of their promises.
pub fn doubts_of(alloc: Global, records: &[LogRecord]) -> Result<Vec<Case>, AllocError>
    ensures { IfOk result (λ cases. cases.items ≡ doubts_in records.now) }
{
    let mut cases = Vec::new(alloc);
    for kept in records {
        note(&mut cases, kept)?;
    }
    Ok(cases)
}

/// The decision of the case leaves the list.
fn forget(decisions: &mut Vec<LoggedDecision>, case: Case)
    ensures { decisions.new.items ≡ other_decisions case decisions.old.items }
{
    decisions.retain(
        |other: &LoggedDecision| -> bool
            ensures { result ≡ not (same_case case other.now.case) }
        { !case.is(&other.case) },
    );
}

/// The decisions that wait after a record of the log.
fn note_decision(decisions: &mut Vec<LoggedDecision>, kept: &LogRecord) -> Result<(), AllocError>
    ensures { OnOk result (decisions.new.items ≡ decisions_after decisions.old.items kept.now) }
{
    match saying(&kept.entry) {
        None => Ok(()),
        Some((_, SayingStage::Open)) => Ok(()),
        Some((case, SayingStage::Decided(outcome))) => {
            forget(decisions, case);
            decisions.push(LoggedDecision { case, outcome })?;
            Ok(())
        }
        Some((case, SayingStage::Doubt | SayingStage::Ended(_) | SayingStage::Over)) => {
            forget(decisions, case);
            Ok(())
        }
    }
}

/// What operators decided by these records of cases that were not told their outcome, in the order of the
/// decisions.
pub fn decisions_of(alloc: Global, records: &[LogRecord]) -> Result<Vec<LoggedDecision>, AllocError>
    ensures { IfOk result (λ decisions. decisions.items ≡ decisions_in records.now) }
{
    let mut decisions = Vec::new(alloc);
    for kept in records {
        note_decision(&mut decisions, kept)?;
    }
    Ok(decisions)
}
