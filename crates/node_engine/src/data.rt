//! The data of a manager, by the records of its log.

ghost use Rattle.std.specs.Prelude.{◌≡◌, IfOk, option_map};
ghost use Rattle.kv_store.specs.Pairs.{ArePairsOf};
ghost use Rattle.node_engine.specs.DataTexts.{DataAre, data_answer};

use kv_state::{ReplayError, Replayed, replay};
use node_answers::{Manner, data_text, refused_text};
use protocol::{Bytes, LogRecord, StepError};
use std::alloc::{AllocError, Global};

/// The keys and values that replayed records leave, keys rising.
fn pairs_of(replayed: &Replayed) -> Result<Vec<(Bytes, Bytes)>, AllocError>
    ensures { IfOk result (λ pairs. ArePairsOf replayed.now.data pairs.items) }
{
    replayed.data.pairs()
}

/// The keys and values that these records make, keys rising; None if they are no key store's.
#[tactic(auto, using(crate::proofs::Pairs::pairs_are))]
pub(crate) fn pairs_in(
    alloc: Global,
    records: Vec<LogRecord>,
) -> Result<Option<Vec<(Bytes, Bytes)>>, AllocError>
    ensures { IfOk result (λ pairs. DataAre records.items (option_map (λ v. v.items) pairs)) }
{
    match replay(alloc, records) {
        Ok(replayed) => Ok(Some(pairs_of(&replayed)?)),
        Err(ReplayError::Memory) => Err(AllocError),
        Err(ReplayError::Malformed | ReplayError::Exhausted) => Ok(None),
    }
}

/// What is told of these keys and values; a refusal, if there are none.
pub(crate) fn answer(
    alloc: Global,
    manner: Manner,
    pairs: &Option<Vec<(Bytes, Bytes)>>,
) -> Result<Vec<u8>, AllocError>
    ensures { IfOk result (λ text. text.items ≡ data_answer manner (option_map (λ v. v.items) pairs.now)) }
{
    match pairs {
        Some(pairs) => data_text(alloc, pairs),
        None => refused_text(alloc, manner, StepError::Exhausted),
    }
}
