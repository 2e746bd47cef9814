//! A record that a row writes, and where the case is left after it.

ghost use Rattle.std.specs.Prelude.{◌≡◌, ◌∷◌, [], true, IfErr, IfOk, OnErr, OnOk};
ghost use Rattle.protocol.specs.CoordinatorRows.{awaits};
ghost use Rattle.protocol.specs.Standings.{unknown_view};
ghost use Rattle.coord_effects.specs.Rows.{NotWritten, ShowsRecord, decision, decision_names, meant, waits};

use crate::effect::{RowEffect, RowRecord};
use crate::seat::OwnCase;
use coord_case::Live;
use protocol::{Case, Envelopes, Outcome, Record, Sequence, Standing, StepError, Ticket, Told};
use std::alloc::Global;

/// Commit of the case, with these names.
fn commit_record(case: Case, named: Sequence<Ticket>) -> Record
    ensures { result ≡ Record.Commit case named }
{
    Record::Commit(case, named)
}

/// Abort of the case, with these names.
fn abort_record(case: Case, named: Sequence<Ticket>) -> Record
    ensures { result ≡ Record.Abort case named }
{
    Record::Abort(case, named)
}

/// The record of a decision that names these.
fn decision(case: Case, outcome: Outcome, named: Sequence<Ticket>) -> Record
    ensures { result ≡ decision case outcome named }
{
    match outcome {
        Outcome::Committed => commit_record(case, named),
        Outcome::Aborted => abort_record(case, named),
    }
}

/// The tickets that the record of a decision names.
fn names(alloc: Global, entry: Record) -> Vec<Ticket>
    ensures { result.items ≡ decision_names entry }
{
    match entry {
        Record::Commit(_, named) | Record::Abort(_, named) => named.into_vec(),
        _ => Vec::new(alloc),
    }
}

/// Where a decided case stands that waits for acknowledgements.
fn waits(outcome: Outcome) -> Standing
    ensures { result ≡ waits outcome }
{
    match outcome {
        Outcome::Committed => Standing::Committing,
        Outcome::Aborted => Standing::Aborting,
    }
}

/// A decision that each of these owes an acknowledgement of: its record is forced and names them, and the
/// case waits for them, or is forgotten if there are none. Memory; Exhausted, if no log holds the record:
/// nothing changed.
#[tactic(auto, using(crate::proofs::Decisions::names_decided))]
pub fn decides_owed(
    alloc: Global,
    seat: OwnCase,
    outcome: Outcome,
    owed: Vec<Ticket>,
    told: Option<Told>,
    messages: Envelopes,
    live: &mut Live,
) -> Result<RowEffect, StepError>
    ensures shows { IfOk result (λ effect. ShowsRecord seat.parent effect
        (record { entry = decision seat.case outcome owed.items; forced = true }) told messages) }
    ensures waiting { OnOk result (live.new ≡ awaits (waits outcome) owed.items live.old) }
    ensures err { OnErr result (live.new ≡ live.old) }
    ensures unwritten { IfErr result (NotWritten seat.parent
        (record { entry = decision seat.case outcome owed.items; is_forced = true } ∷ [])) }
{
    let written = RowRecord::forced(decision(seat.case, outcome, Sequence::from_vec(owed)));
    let effect = RowEffect::writes(alloc, &seat, &written, told, messages)?;
    live.awaits(waits(outcome), names(alloc, written.entry))?;
    Ok(effect)
}

/// A record after which nobody owes anything: the case is forgotten. The errors are those of `decides_owed`.
pub fn forgets_behind(
    alloc: Global,
    seat: OwnCase,
    written: &RowRecord,
    told: Option<Told>,
    messages: Envelopes,
    live: &mut Live,
) -> Result<RowEffect, StepError>
    ensures shows { IfOk result (λ effect. ShowsRecord seat.parent effect written.now told messages) }
    ensures forgotten { OnOk result (live.new ≡ unknown_view) }
    ensures err { OnErr result (live.new ≡ live.old) }
    ensures unwritten { IfErr result (NotWritten seat.parent (meant written.now ∷ [])) }
{
    let effect = RowEffect::writes(alloc, &seat, written, told, messages)?;
    live.forget();
    Ok(effect)
}
