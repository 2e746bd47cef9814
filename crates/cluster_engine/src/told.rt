//! What the application was told, by transaction.

ghost use Rattle.std.specs.Prelude.{◌≡◌, ◌++◌, ℕ, List, IfOk, OnOk, slice_get};
ghost use Rattle.std.specs.Option.{option_to_list};
ghost use Rattle.cluster_turns.specs.Turns.{all_of};
ghost use Rattle.cluster_engine.specs.Told.{AddsTold, TellsAll, told_in, told_places};

use cluster_turns::{ClosedJournal, Entries};
use protocol::{JournalEntry, Told};
use std::alloc::{AllocError, Global};
use trace_lines::push_conclusion;

/// What was told: the boot and the number of its transaction, and its place among all that was told. They are
/// sorted in this order.
#[derive(Clone, Copy, PartialEq, Eq, PartialOrd, Ord)]
pub struct ToldPlace {
    /// The boot of the transaction's root.
    pub boot: u64,
    /// The number of the transaction in that boot.
    pub sequence: u64,
    /// The place of what was told, from 0.
    pub place: usize,
}

/// Adds what an entry told, if it told anything.
fn push_one(all: &mut Vec<Told>, told: Option<Told>) -> Result<(), AllocError>
    ensures { OnOk result (all.new.items ≡ all.old.items ++ option_to_list told) }
{
    let Some(told) = told else {
        return Ok(());
    };
    all.push(told)?;
    Ok(())
}

/// Adds what these entries told.
fn push_turn(all: &mut Vec<Told>, turn: &[(u64, JournalEntry)]) -> Result<(), AllocError>
    ensures { OnOk result (all.new.items ≡ all.old.items ++ told_in turn.now) }
{
    for place in 0..turn.len() {
        push_one(all, turn[place].1.reaction.told)?;
    }
    Ok(())
}

/// What was told in these turns, in their order.
fn all_told(alloc: Global, turns: &[Entries]) -> Result<Vec<Told>, AllocError>
    ensures { IfOk result (λ all. all.items ≡ told_in (all_of turns.now)) }
{
    let mut all = Vec::new(alloc);
    for place in 0..turns.len() {
        push_turn(&mut all, turns[place].as_slice())?;
    }
    Ok(all)
}

/// The places of all that was told.
fn places_of(alloc: Global, told: &[Told]) -> Result<Vec<ToldPlace>, AllocError>
    ensures { IfOk result (λ places. places.items ≡ told_places 0 told.now) }
{
    let mut places = Vec::new(alloc);
    for place in 0..told.len() {
        let txn = told[place].txn;
        places.push(ToldPlace {
            boot: txn.boot,
            sequence: txn.sequence,
            place,
        })?;
    }
    Ok(places)
}

/// What was told at this place, if anything was.
fn told_at(told: &[Told], place: usize) -> Option<Told>
    ensures { result ≡ slice_get told.now place }
{
    match told.get(place) {
        None => None,
        Some(told) => Some(*told),
    }
}

/// Adds the lines of what was told at these places, one after another.
fn push_lines(out: &mut Vec<u8>, told: &[Told], places: &[ToldPlace]) -> Result<(), AllocError>
    ensures { OnOk result (AddsTold told.now places.now out.old.items out.new.items) }
{
    for line in places {
        push_conclusion(out, &told_at(told, line.place))?;
    }
    Ok(())
}

/// Adds the lines of what was told, in order of boot and sequence.
pub(crate) fn push_told(
    alloc: Global,
    out: &mut Vec<u8>,
    journal: &ClosedJournal,
) -> Result<(), AllocError>
    ensures { OnOk result ((text : List ℕ) × TellsAll journal.now text
        × (out.new.items ≡ out.old.items ++ text)) }
{
    let told = all_told(alloc, journal.turns())?;
    let mut places = places_of(alloc, &told)?;
    places.as_mut_slice().sort_unstable();
    push_lines(out, &told, &places)
}
