//! The boot of a process, as its log tells.

ghost use Rattle.std.specs.Prelude.{◌≡◌};
ghost use Rattle.log_outcomes.specs.Boots.{boot_behind, boot_in};

use protocol::{LogRecord, Record};

/// The boot after a record of the log.
fn behind(boot: u64, kept: &LogRecord) -> u64
    ensures { result ≡ boot_behind boot kept.now }
{
    match &kept.entry {
        Record::Opened(boot) => *boot,
        _ => boot,
    }
}

/// The boot by the last Opened record; 0 if there is none.
pub fn boot_of(records: &[LogRecord]) -> u64
    ensures { result ≡ boot_in records.now }
{
    let mut boot = 0;
    for kept in records {
        boot = behind(boot, kept);
    }
    boot
}
