//! Whether an End reports what was found of a case.

ghost use Rattle.std.specs.Prelude.{◌≡◌, map};
ghost use Rattle.protocol.specs.Records.{is_reported, reported_after};

use protocol::{Case, LogRecord, Record};

/// Whether the report is after one more record: an End with reports sets it up, and Cleared undoes it.
fn reported_behind(reported: bool, record: &Record, case: &Case) -> bool
    ensures { result ≡ reported_after case.now reported record.now }
{
    match record {
        Record::End(other, reports) if other.is(case) => reports.is_some(),
        Record::Cleared(other) if other.is(case) => false,
        _ => reported,
    }
}

/// Whether these records of the root's log report what was found of a case, and it was not cleared since. It
/// goes through them once.
#[tactic(auto, unfolding(protocol::specs::Records::is_reported))]
pub fn is_reported(records: &[LogRecord], case: &Case) -> bool
    ensures { result ≡ is_reported (map (λ l. l.entry) records.now) case.now }
{
    let mut reported = false;
    let mut rest = records;
    while let [record, behind @ ..] = rest {
        reported = reported_behind(reported, &record.entry, case);
        rest = behind;
    }
    reported
}
