//! What a restart remembers of its log, so that the next one reads on from there.

ghost use Rattle.std.specs.Prelude.{◌≡◌, ◌++◌, [], IfErr, IfOk, List};
ghost use Rattle.protocol_words.specs.Types.{AnyRecord};
ghost use Rattle.xa_branch.specs.Cases.{SameDecisions};
ghost use Rattle.kv_state.specs.Remembered.{IsOfSome, LeavesNow, RemembersData};
ghost use Rattle.kv_state.specs.Replays.{ReplayFails};

use crate::fault::ReplayError;
use crate::heuristic::decided_after;
use crate::promises::{InDoubt, in_doubt};
use crate::replayed::{ReplayState, Replayed, read_on};
use kv_store::Versions;
use log_rules::order::Seen;
use protocol::{Bytes, LogRecord};
use std::alloc::{AllocError, Global};
use std::marker::Model;
use xa_branch::Heuristics;

/// What the records of a log say of a key store, to be read on from. Of the data it has what each key is, as
/// pairs whose keys rise, and not what it was after earlier commits.
#[derive(Drop)]
pub struct RememberedData {
    seen: Seen,
    decisions: Heuristics,
    count: u64,
    pairs: Vec<(Bytes, Bytes)>,
}

impl Model for RememberedData {
    ghost use Rattle.kv_state.specs.Remembered.{LogMemory};

    ghost Value = { LogMemory };

    ghost view = { λ m. record {
      seen = m.seen;
      decisions = m.decisions;
      count = m.count;
      pairs = m.pairs.items;
    } };
}

/// These decisions, as a table made again.
fn copied(alloc: Global, decisions: &Heuristics) -> Result<Heuristics, AllocError>
    ensures { IfOk result (λ copy. SameDecisions decisions.now copy) }
{
    let branches = decisions.open_cases();
    let mut copy = Heuristics::new(alloc);
    for xid in branches {
        if let Some(decision) = decisions.decision(xid) {
            copy.restore(xid, decision)?;
        }
    }
    Ok(copy)
}

impl RememberedData {
    /// What no records say. It takes no memory.
    pub fn nothing(alloc: Global) -> RememberedData
        ensures { RemembersData [] result }
    {
        RememberedData {
            seen: Seen::new(alloc),
            decisions: Heuristics::new(alloc),
            count: 0,
            pairs: Vec::new(alloc),
        }
    }

    /// Reads on, in these records of the log, which come after those that were read: what all of them leave,
    /// and what is to be remembered of them. The data of both are made again: they are not shared. The errors
    /// are those of `replay` of all these records. With an error what was remembered is gone.
    pub fn read_on(
        self,
        alloc: Global,
        records: Vec<LogRecord>,
    ) -> Result<(Replayed, RememberedData), ReplayError>
        requires { IsOfSome self }
        ensures leaves { IfOk result (λ r. (ls : List AnyRecord) → RemembersData ls self
            → LeavesNow (ls ++ records.items) r.0) }
        ensures remembers { IfOk result (λ r. (ls : List AnyRecord) → RemembersData ls self
            → RemembersData (ls ++ records.items) r.1) }
        ensures err { IfErr result (λ e. (ls : List AnyRecord) → RemembersData ls self
            → ReplayFails (ls ++ records.items) e) }
    {
        let RememberedData {
            seen,
            decisions,
            count,
            pairs,
        } = self;
        let data = Versions::from_pairs(alloc, count, &pairs)?;
        let decisions = decided_after(decisions, &records)?;
        let reading = read_on(alloc, ReplayState { seen, data }, records)?;
        let held = in_doubt(alloc, &reading.seen)?;
        let given = copied(alloc, &decisions)?;
        let pairs = reading.data.pairs()?;
        let count = reading.data.count();
        let boot = reading.seen.boot();
        let ReplayState { seen, data } = reading;
        let InDoubt {
            left,
            writes,
            locks,
        } = held;
        Ok((
            Replayed {
                boot,
                left,
                data,
                writes,
                locks,
                decisions: given,
            },
            RememberedData {
                seen,
                decisions,
                count,
                pairs,
            },
        ))
    }
}
