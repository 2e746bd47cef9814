//! The pass over the records of a log.

ghost use Rattle.std.specs.Prelude.{◌≡◌, ◌<◌, ◌^◌, ◌++◌, false, Some, IfOk, IfErr, List, OnOk};
ghost use Rattle.protocol_words.specs.Types.{AnyRecord};
ghost use Rattle.log_rules.specs.order.Orders.{after};
ghost use Rattle.kv_state.specs.Folds.{GoBack};
ghost use Rattle.kv_state.specs.Remembered.{HasRead, ReadsNow};
ghost use Rattle.kv_state.specs.Replays.{ReplayFails, KeepsBefore, ReplayLeaves, Reads, TakeFails, DataTake};

use crate::data;
use crate::fault::ReplayError;
use crate::heuristic::decided;
use crate::promises::{InDoubt, in_doubt};
use kv_locks::Locks;
use kv_store::Versions;
use kv_store::writes::BranchWrites;
use log_rules::order::Seen;
use protocol::LogRecord;
use std::alloc::Global;
use xa_branch::Heuristics;
use xa_xid::Xid;

/// What the records of a log leave of a key store.
#[derive(Drop)]
pub struct Replayed {
    /// The last boot; none if there are no records.
    pub boot: Option<u64>,
    /// The branches in doubt, in the order of their promises, and whether an operator decided them.
    pub left: Vec<(Xid, bool)>,
    /// What the commits left, after the last Base.
    pub data: Versions,
    /// What each open branch promised.
    pub writes: BranchWrites,
    /// The keys of these writes, each held exclusively.
    pub locks: Locks,
    /// What operators decided of branches that are not forgotten, and what these were told since.
    pub decisions: Heuristics,
}

/// The records so far: what they have said, and the data that they make.
#[derive(Drop)]
pub(crate) struct ReplayState {
    pub(crate) seen: Seen,
    pub(crate) data: Versions,
}

impl ReplayState {
    /// Takes the next record.
    fn take(&mut self, alloc: Global, next: LogRecord) -> Result<(), ReplayError>
        requires unstaged { self.old.data.is_staged ≡ false }
        requires counted { self.old.data.count < 2 ^ 63 }
        ensures may { OnOk result (after self.old.seen next ≡ Some self.new.seen) }
        ensures takes { OnOk result (DataTake self.old.seen next self.old.data self.new.data) }
        ensures before { OnOk result (KeepsBefore self.old.data self.new.data next.entry) }
        ensures counted { OnOk result (self.new.data.count < 2 ^ 63) }
        ensures err { IfErr result (TakeFails self.old.seen next self.old.data) }
    {
        data::take(alloc, &mut self.data, &self.seen, &next)?;
        self.seen.take(next)?;
        Ok(())
    }
}

/// Reads on in these records. With an error they and what was read are gone.
pub(crate) fn read_on(
    alloc: Global,
    reading: ReplayState,
    records: Vec<LogRecord>,
) -> Result<ReplayState, ReplayError>
    requires { HasRead reading.seen reading.data }
    ensures ok { IfOk result (λ all. (ls : List AnyRecord) → ReadsNow ls reading.seen reading.data
        → ReadsNow (ls ++ records.items) all.seen all.data) }
    ensures history { IfOk result (λ all. (ls : List AnyRecord) → ReadsNow ls reading.seen reading.data
        → GoBack reading.data ls → GoBack all.data (ls ++ records.items)) }
    ensures err { IfErr result (λ e. (ls : List AnyRecord) → ReadsNow ls reading.seen reading.data
        → ReplayFails (ls ++ records.items) e) }
{
    let mut reading = reading;
    for record in records {
        reading.take(alloc, record)?;
    }
    Ok(reading)
}

/// What all records have said, and the data that they make.
fn read(alloc: Global, records: Vec<LogRecord>) -> Result<ReplayState, ReplayError>
    ensures ok { IfOk result (λ all. Reads records.items all.seen all.data) }
    ensures err { IfErr result (ReplayFails records.items) }
{
    let nothing = ReplayState {
        seen: Seen::new(alloc),
        data: Versions::new(alloc, 0),
    };
    read_on(alloc, nothing, records)
}

/// What the records of a log leave of a key store. It goes through them twice.
///
/// Malformed: a record may not follow those before it, or a branch that is open after the last one promised
/// more than 64 writes, a key that has not 1 to 64 bytes, or a value of more than 256. Exhausted: some
/// records in front count 2^63 commits or more. With an error the records are gone.
pub fn replay(alloc: Global, records: Vec<LogRecord>) -> Result<Replayed, ReplayError>
    ensures ok { IfOk result (λ r. ReplayLeaves records.items r.boot r.left.items r.data
        r.writes r.locks r.decisions) }
    ensures err { IfErr result (ReplayFails records.items) }
{
    let decisions = decided(alloc, &records)?;
    let reading = read(alloc, records)?;
    let held = in_doubt(alloc, &reading.seen)?;
    let ReplayState { seen, data } = reading;
    let InDoubt {
        left,
        writes,
        locks,
    } = held;
    Ok(Replayed {
        boot: seen.boot(),
        left,
        data,
        writes,
        locks,
        decisions,
    })
}
