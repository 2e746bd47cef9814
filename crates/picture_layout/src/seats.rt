//! The places of the processes, side by side.

ghost use Rattle.std.specs.Prelude.{◌≡◌, ◌^◌, ◌≤◌, All, IfErr, IfOk, IsTrue, OnOk, find, length};
ghost use Rattle.std.specs.Option.{option_copied};
ghost use Rattle.protocol.specs.Names.{same_process};
ghost use Rattle.picture_layout.specs.Ways.{HasSeat, SitFrom, place_in};

use crate::error::PictureError;
use protocol::{Kind, ProcessId, TreeProcess};
use std::alloc::Global;

/// The most levels of a tree.
const LEVELS: u32 = 8;

/// A process at its place.
#[derive(Clone, Copy)]
pub struct Column {
    /// Its place, from 0, which is the root's.
    pub place: u32,
    pub process: ProcessId,
    pub kind: Kind,
    /// How many levels are above it.
    pub level: u32,
    /// The place of its parent; none of the root.
    pub parent: Option<u32>,
}

/// Seats the children of a process, each with those below it after it, where N levels are left, but no
/// more processes than the tree lists. TooLong: it lists 2^32 processes.
#[tactic(auto, using(crate::proofs::Ways::sit_more))]
fn sit_below(
    tree: &[TreeProcess],
    parent: Option<ProcessId>,
    above: Option<u32>,
    levels: u32,
    seats: &mut Vec<Column>,
) -> Result<(), PictureError>
    requires { length seats.old.items ≤ length tree.now }
    ensures order { OnOk result (SitFrom 0 seats.old.items → SitFrom 0 seats.new.items) }
    ensures few { OnOk result (length seats.new.items ≤ length tree.now) }
    ensures err { IfErr result (λ e. e ≡ PictureError.TooLong → 2 ^ 32 ≤ length tree.now) }
{
    if levels == 0 {
        return Ok(());
    }
    for entry in tree {
        if entry.parent == parent && seats.len() < tree.len() {
            let Ok(place) = u32::try_from(seats.len()) else {
                return Err(PictureError::TooLong);
            };
            seats.push(Column {
                place,
                process: entry.id,
                kind: entry.kind,
                level: LEVELS.saturating_sub(levels),
                parent: above,
            })?;
            sit_below(tree, Some(entry.id), Some(place), levels - 1, seats)?;
        }
    }
    Ok(())
}

/// The seat of a process, if it has one.
#[tactic(auto, unfolding(protocol::specs::Names::same_process))]
fn seat_of(seats: &[Column], process: ProcessId) -> Option<&Column>
    ensures { option_copied result ≡ find (λ s. same_process s.process process) seats.now }
{
    seats.iter().find(|seat| seat.process == process)
}

/// Whether each process of a tree has a seat.
#[tactic(auto, using(crate::proofs::Seating::seated_more))]
fn all_sit(tree: &[TreeProcess], seats: &[Column]) -> bool
    ensures { IsTrue result → All (HasSeat seats.now) tree.now }
{
    for entry in tree {
        if seat_of(seats, entry.id).is_none() {
            return false;
        }
    }
    true
}

/// Seats the processes of a list in its order. TooLong: it lists 2^32 processes.
#[tactic(auto, using(crate::proofs::Ways::sit_more, crate::proofs::Seating::sat_more))]
fn sit_in_order(alloc: Global, tree: &[TreeProcess]) -> Result<Vec<Column>, PictureError>
    ensures order { IfOk result (λ seats. SitFrom 0 seats.items) }
    ensures few { IfOk result (λ seats. length seats.items ≤ length tree.now) }
    ensures all { IfOk result (λ seats. All (HasSeat seats.items) tree.now) }
    ensures err { IfErr result (λ e. e ≡ PictureError.TooLong → 2 ^ 32 ≤ length tree.now) }
{
    let mut seats = Vec::new(alloc);
    for entry in tree {
        let Ok(place) = u32::try_from(seats.len()) else {
            return Err(PictureError::TooLong);
        };
        seats.push(Column {
            place,
            process: entry.id,
            kind: entry.kind,
            level: 0,
            parent: None,
        })?;
    }
    Ok(seats)
}

/// The processes of a tree, each at a place of its own: depth first, the children of each in the order of the
/// tree. Those of a list that is no tree sit in its order. TooLong: it lists 2^32 processes.
pub fn seats_of(alloc: Global, tree: &[TreeProcess]) -> Result<Vec<Column>, PictureError>
    ensures order { IfOk result (λ seats. SitFrom 0 seats.items) }
    ensures few { IfOk result (λ seats. length seats.items ≤ length tree.now) }
    ensures all { IfOk result (λ seats. All (HasSeat seats.items) tree.now) }
    ensures err { IfErr result (λ e. e ≡ PictureError.TooLong → 2 ^ 32 ≤ length tree.now) }
{
    let mut seats = Vec::new(alloc);
    sit_below(tree, None, None, LEVELS, &mut seats)?;
    if all_sit(tree, &seats) {
        return Ok(seats);
    }
    sit_in_order(alloc, tree)
}

/// The place of a process; the root's, if it has none.
pub fn place_of(seats: &[Column], process: ProcessId) -> u32
    ensures { result ≡ place_in seats.now process }
{
    match seat_of(seats, process) {
        None => 0,
        Some(seat) => seat.place,
    }
}
