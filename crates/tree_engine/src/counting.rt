//! What the processes of a run have written and sent, counted.

ghost use Rattle.std.specs.Prelude.{◌≡◌, ◌⊎◌, ◌≤◌, ◌^◌, ◌++◌, IfErr, IfOk};
ghost use Rattle.tree_engine.specs.Counts.{rows_of};
ghost use Rattle.tree_world.specs.Worlds.{state};
ghost use Rattle.tree_engine.specs.Failures.{IsUncounted, message_count};
ghost use Rattle.tree_engine.specs.Trees.{IsNumberedRefusal, counts_text, ending, last_line, trace_by};

use crate::rows::RunCounts;
use crate::run::Refusal;
use crate::text::push_counts;
use crate::trace::trace_text;
use log_store::MemoryStore;
use protocol::JournalEntry;
use report_io::{Failure, Status};
use std::alloc::Global;
use tree_world::World;

/// Lets go of a step.
fn discard(_entry: JournalEntry) {}

/// The counts of all steps that were made, each of which is made again once. Exhausted: a sum is 2^64 or
/// more.
fn counted(alloc: Global, world: &World<MemoryStore>) -> Result<RunCounts, Failure>
    ensures counts { IfOk result (λ counts. counts
        ≡ rows_of (state world.now).tree (state world.now).entries) }
    ensures err { IfErr result (λ why. (why ≡ Failure.Memory)
        ⊎ ((why ≡ Failure.Exhausted) × IsUncounted (state world.now))) }
{
    let mut counts = RunCounts::new(alloc, world.tree().entries())?;
    for place in 0..world.made() {
        let Some(entry) = world.entry(place)? else {
            return Ok(counts);
        };
        let added = counts.add(&entry);
        discard(entry);
        added?;
    }
    Ok(counts)
}

/// The trace of what the tree has come to, how its run ended, and the counts after it. Exhausted: a sum is
/// 2^64 or more.
pub(crate) fn counted_trace(
    alloc: Global,
    world: &World<MemoryStore>,
    refusal: Refusal,
) -> Result<(Vec<u8>, Status), Failure>
    requires { IsNumberedRefusal refusal }
    ensures text { IfOk result (λ r. r.0.items ≡ (trace_by world.now.reopened (state world.now)
        ++ last_line refusal) ++ counts_text (state world.now)) }
    ensures status { IfOk result (λ r. r.1 ≡ ending refusal) }
    ensures err { IfErr result (λ why. (why ≡ Failure.Memory) ⊎ ((why ≡ Failure.Exhausted)
        × ((2 ^ 64 ≤ message_count (state world.now).entries) ⊎ IsUncounted (state world.now)))) }
{
    let (mut text, status) = trace_text(alloc, world, refusal)?;
    let counts = counted(alloc, world)?;
    push_counts(&mut text, &counts)?;
    Ok((text, status))
}
