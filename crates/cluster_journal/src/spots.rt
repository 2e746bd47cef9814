//! Where each message stands.

ghost use Rattle.std.specs.Prelude.{◌≡◌, ◌+◌, ◌≤◌, ◌++◌, OnErr, OnOk, drop, length, map, slice_get};
ghost use Rattle.std.specs.Vec.{vec_capacity, vec_len};
ghost use Rattle.protocol_words.specs.Types.{AnyEntry};
ghost use Rattle.cluster_journal.specs.Journals.{KeepsDelivered};
ghost use Rattle.cluster_journal.specs.Marks.{sent_to};
ghost use Rattle.cluster_journal.specs.Spots.{spots_at, spots_in};

use crate::marks::Deliveries;
use protocol::{Envelope, JournalEntry};
use std::alloc::AllocError;

/// Where a message stands: the place of its turn, the place of its entry in that turn, and its place among
/// that entry's messages, each from 0.
#[derive(Clone, Copy)]
pub(crate) struct Spot {
    /// The place of the turn.
    pub(crate) turn: usize,
    /// The place of the entry in the turn.
    pub(crate) entry: usize,
    /// The place among the entry's messages.
    pub(crate) message: usize,
}

/// The spot at this place, if there is one.
pub(crate) fn spot_at(spots: &[Spot], place: usize) -> Option<Spot>
    ensures { result ≡ slice_get spots.now place }
{
    match spots.get(place) {
        None => None,
        Some(spot) => Some(*spot),
    }
}

/// The places of N messages of the entry at this place of a turn, where there is room for them.
fn add_spots(spots: &mut Vec<Spot>, turn: usize, entry: usize, count: usize)
    requires { vec_len spots.old + count ≤ vec_capacity spots.old }
    ensures { spots.new.items ≡ spots.old.items ++ spots_at turn entry count }
{
    for message in 0..count {
        spots.push_reserved(Spot {
            turn,
            entry,
            message,
        });
    }
}

/// Adds the places and the marks of the messages of one entry. Memory: a growth was refused, and none is
/// added.
fn find_one(
    spots: &mut Vec<Spot>,
    marks: &mut Deliveries,
    turn: usize,
    entry: usize,
    messages: &[Envelope],
) -> Result<(), AllocError>
    ensures ok { OnOk result ((spots.new.items ≡ spots.old.items ++ spots_at turn entry (length messages.now))
        × (marks.new ≡ marks.old ++ map sent_to messages.now)) }
    ensures err { OnErr result ((spots.new.items ≡ spots.old.items) × (marks.new ≡ marks.old)) }
{
    let more = messages.len();
    spots.reserve(more)?;
    marks.extend(messages)?;
    add_spots(spots, turn, entry, more);
    Ok(())
}

/// Adds the places and the marks of the messages of a turn's entries, but for the first N, of which they were
/// added, and counts these. Memory: a growth was refused, and those of some entries are not added.
pub(crate) fn find_rest(
    spots: &mut Vec<Spot>,
    marks: &mut Deliveries,
    found: &mut usize,
    turn: usize,
    entries: &[(u64, JournalEntry)],
) -> Result<(), AllocError>
    requires within { found.old ≤ length entries.now }
    requires long { length marks.old ≡ length spots.old.items }
    ensures within { found.new ≤ length entries.now }
    ensures all { spots.new.items ++ spots_in turn found.new (drop found.new entries.now)
        ≡ spots.old.items ++ spots_in turn found.old (drop found.old entries.now) }
    ensures long { length marks.new ≡ length spots.new.items }
    ensures delivered { KeepsDelivered marks.old marks.new }
    ensures ok { OnOk result (found.new ≡ length entries.now) }
{
    for entry in *found..entries.len() {
        find_one(
            spots,
            marks,
            turn,
            entry,
            entries[entry].1.reaction.messages.as_slice(),
        )?;
        *found = entry + 1;
    }
    Ok(())
}
