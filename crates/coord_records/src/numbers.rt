//! In which boots the cases of a log were numbered.

ghost use Rattle.std.specs.Prelude.{◌≡◌, map};
ghost use Rattle.protocol.specs.Records.{boot_after};
ghost use Rattle.coord_records.specs.Numbered.{are_numbered, is_reached, may_stand, numbered_in};

use protocol::{Case, LogRecord, Record};

/// The boot in which the case was numbered: that which gave its ticket, or where it has none that which began
/// its transaction.
pub(crate) fn numbered_in(case: &Case) -> u64
    ensures { result ≡ numbered_in case.now }
{
    match case.ticket {
        None => case.txn.boot,
        Some(ticket) => ticket.boot,
    }
}

/// Whether the case, if there is one, was numbered in this boot or an earlier one.
fn is_reached(boot: u64, case: Option<Case>) -> bool
    ensures { result ≡ is_reached boot case }
{
    match case {
        None => true,
        Some(case) => numbered_in(&case) <= boot,
    }
}

/// The boot that the log has reached after one more record.
fn boot_behind(boot: u64, record: &Record) -> u64
    ensures { result ≡ boot_after boot record.now }
{
    match record {
        Record::Opened(next) => *next,
        _ => boot,
    }
}

fn may_stand(boot: u64, record: &Record) -> bool
    ensures { result ≡ may_stand boot record.now }
{
    is_reached(boot, record.case()) && boot <= boot_behind(boot, record)
}

/// Whether each of these records of a log is of a case that was numbered in a boot which the log had reached
/// by then, and no boot goes back. It goes through them once, and takes no memory.
#[tactic(auto, unfolding(crate::specs::Numbered::are_numbered))]
pub fn are_numbered(records: &[LogRecord]) -> bool
    ensures { result ≡ are_numbered 0 (map (λ l. l.entry) records.now) }
{
    let mut boot = 0;
    let mut rest = records;
    while let [record, behind @ ..] = rest {
        if !may_stand(boot, &record.entry) {
            return false;
        }
        boot = boot_behind(boot, &record.entry);
        rest = behind;
    }
    true
}
