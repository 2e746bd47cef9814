//! How many records are in a log.

ghost use Rattle.std.specs.Prelude.{◌≡◌, ◌+◌, ◌≤◌, ◌^◌, IfNone, IfSome, length};
ghost use Rattle.std.specs.List.{list_any};
ghost use Rattle.tree_state.specs.Faults.{trim_fault};
ghost use Rattle.tree_faults.specs.Counts.{after_written, all_forced, left_since, trim_left};

use protocol::{Fault, ShownRecord};

/// How many records are in a log, and how many of them are forced.
#[derive(Clone, Copy, PartialEq, Eq)]
pub struct Count {
    pub records: u64,
    pub forced: u64,
}

impl Count {
    /// That of records which are all forced.
    pub fn all_forced(records: u64) -> Count
        ensures { result ≡ all_forced records }
    {
        Count {
            records,
            forced: records,
        }
    }

    /// That of the log once a step has written these; None if the number is 2^64 or more.
    pub fn after(self, written: &[ShownRecord]) -> Option<Count>
        ensures some { IfSome result (λ count. count ≡ after_written self written.now) }
        ensures none { IfNone result (2 ^ 64 ≤ self.records + length written.now) }
    {
        let records = self.records.checked_add(written.len() as u64)?;
        let forced = if is_any_forced(written) {
            records
        } else {
            self.forced
        };
        Some(Count { records, forced })
    }

    /// That of the log once a restart has kept N records after the forced ones and written these; None if the
    /// number is 2^64 or more.
    pub fn after_restart(self, kept: u64, written: &[ShownRecord]) -> Option<Count>
        ensures some { IfSome result (λ count. count ≡ all_forced (self.forced + kept + length written.now)) }
        ensures none { IfNone result (2 ^ 64 ≤ self.forced + kept + length written.now) }
    {
        let left = self.forced.checked_add(kept)?;
        let records = left.checked_add(written.len() as u64)?;
        Some(Count::all_forced(records))
    }

    /// What a failed input left of a log that had this count before, and has that one now.
    pub fn left_by_input(self, now: Count) -> Fault
        ensures { result ≡ left_since self.records self now }
    {
        Fault {
            appended: now.records.saturating_sub(self.records),
            forced: now.forced.saturating_sub(self.forced),
        }
    }

    /// What a failed restart left, which kept N records after the forced ones.
    pub fn left_by_restart(self, kept: u64, now: Count) -> Fault
        ensures { result ≡ left_since (self.forced + kept) self now }
    {
        let after_front = now.records.saturating_sub(self.forced);
        Fault {
            appended: after_front.saturating_sub(kept),
            forced: now.forced.saturating_sub(self.forced),
        }
    }

    /// What a failed trim left of a log whose bytes were these before, where those are of the records that it
    /// has now.
    pub fn left_by_trim(self, before: &[u8], bytes: &[u8], now: Count) -> Fault
        ensures { result ≡ trim_fault (trim_left before.now bytes.now self now) }
    {
        let stays = before == bytes && self.forced == now.forced;
        Fault {
            appended: if stays { 0 } else { 1 },
            forced: 0,
        }
    }
}

/// Whether one of these records was forced.
fn is_any_forced(written: &[ShownRecord]) -> bool
    ensures { result ≡ list_any (λ w. w.forced) written.now }
{
    written.iter().any(
        |record: &ShownRecord| -> bool
            ensures { result ≡ record.now.forced }
        { record.forced },
    )
}
