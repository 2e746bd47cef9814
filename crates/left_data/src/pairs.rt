//! The data of a manager, by the records of its log.

ghost use Rattle.std.specs.Prelude.{◌≡◌, IfOk};
ghost use Rattle.kv_store.specs.Pairs.{ArePairsOf};
ghost use Rattle.protocol.specs.Store.{data_of};

use kv_state::{ReplayError, Replayed, replay};
use protocol::{Bytes, LogRecord};
use report_io::Failure;
use std::alloc::{AllocError, Global};

/// The keys and values that replayed records leave, keys rising.
fn pairs_of(replayed: &Replayed) -> Result<Vec<(Bytes, Bytes)>, AllocError>
    ensures { IfOk result (λ pairs. ArePairsOf replayed.now.data pairs.items) }
{
    replayed.data.pairs()
}

/// The keys and values that these records make, keys rising. Exhausted: the records are no key store's, or
/// count 2^63 commits, which no run leaves.
#[tactic(auto, using(crate::proofs::DataPairs::pairs_are))]
pub(crate) fn pairs_in(
    alloc: Global,
    records: Vec<LogRecord>,
) -> Result<Vec<(Bytes, Bytes)>, Failure>
    ensures { IfOk result (λ pairs. pairs.items ≡ (data_of records.items).pairs) }
{
    match replay(alloc, records) {
        Ok(replayed) => Ok(pairs_of(&replayed)?),
        Err(ReplayError::Memory) => Err(Failure::Memory),
        Err(ReplayError::Malformed | ReplayError::Exhausted) => Err(Failure::Exhausted),
    }
}
