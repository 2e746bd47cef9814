//! What operators decided.

ghost use Rattle.std.specs.Prelude.{◌++◌, IfOk, List, OnOk, Some};
ghost use Rattle.protocol_words.specs.Types.{AnyRecord};
ghost use Rattle.xa_branch.specs.Cases.{NotesDecision, decision_in, decision_or};
ghost use Rattle.kv_state.specs.Decisions.{KnowDecided, NotesRecord};

use log_text::name_xid;
use protocol::{LogRecord, Outcome, Record};
use std::alloc::{AllocError, Global};
use xa_branch::{Decision, Heuristics};
use xa_xid::Xid;

/// A decided branch was told an outcome.
fn told(heuristics: &mut Heuristics, xid: &Xid, outcome: Outcome) -> Result<(), AllocError>
    ensures { OnOk result (NotesDecision heuristics.old heuristics.new xid.now
        (Some (record {
          outcome = (decision_or
              (decision_in heuristics.old xid.now)).outcome;
          told = Some outcome;
        }))) }
{
    let decision = Decision {
        outcome: heuristics.known(xid).outcome,
        told: Some(outcome),
    };
    heuristics.restore(xid, decision)
}

/// Notes what the next record says of an operator's decision.
fn note(heuristics: &mut Heuristics, next: &LogRecord) -> Result<(), AllocError>
    ensures { OnOk result (NotesRecord heuristics.old heuristics.new next.now) }
{
    match &next.entry {
        Record::Prepared(branch, _writes) => {
            heuristics.forget(&name_xid(next.parent, *branch));
        }
        Record::Forgot(branch) => {
            heuristics.forget(&name_xid(next.parent, *branch));
        }
        Record::HeurCommit(branch) => {
            let xid = name_xid(next.parent, *branch);
            heuristics.restore(&xid, Decision::new(Outcome::Committed))?;
        }
        Record::HeurRollback(branch) => {
            let xid = name_xid(next.parent, *branch);
            heuristics.restore(&xid, Decision::new(Outcome::Aborted))?;
        }
        Record::Told(branch, outcome) => {
            told(heuristics, &name_xid(next.parent, *branch), *outcome)?;
        }
        _ => {}
    }
    Ok(())
}

/// What operators decided by the records of a log, if these come after those by which they decided this.
pub(crate) fn decided_after(
    heuristics: Heuristics,
    records: &[LogRecord],
) -> Result<Heuristics, AllocError>
    ensures { IfOk result (λ decided. (ls : List AnyRecord) → KnowDecided ls heuristics
        → KnowDecided (ls ++ records.now) decided) }
{
    let mut heuristics = heuristics;
    for record in records {
        note(&mut heuristics, record)?;
    }
    Ok(heuristics)
}

/// What operators decided by the records of a log.
pub(crate) fn decided(alloc: Global, records: &[LogRecord]) -> Result<Heuristics, AllocError>
    ensures { IfOk result (KnowDecided records.now) }
{
    decided_after(Heuristics::new(alloc), records)
}
