//! The rings of a picture: what is told of its steps.

ghost use Rattle.std.specs.Prelude.{◌≡◌, ◌++◌, Some, IfOk, OnOk, map};
ghost use Rattle.picture_run.specs.Rings.{ring_words, told, told_of};

use crate::plan::{Plan, Scene};
use picture_layout::place_of;
use picture_shapes::{Note, PictureFrame, Shape};
use std::alloc::{AllocError, Global};

/// Where the step at a place is drawn.
fn spot_of(frame: PictureFrame, scene: &Scene, plan: &Plan, place: usize) -> (u64, u64) {
    let Some(entry) = scene.entries.get(place) else {
        return (0, 0);
    };
    let Some(rows) = plan.rows.steps.get(place) else {
        return (0, 0);
    };
    let seat = place_of(&plan.seats, entry.step.process);
    (frame.x_of(seat), frame.y_of(rows.first))
}

/// Adds the ring of a step at this spot, of which this is told, if something is.
#[tactic(auto, using(crate::proofs::Ringing::no_ring, crate::proofs::Ringing::a_ring))]
fn push_ring(
    alloc: Global,
    rings: &mut Vec<Shape>,
    words: &[u8],
    spot: (u64, u64),
) -> Result<(), AllocError>
    ensures { OnOk result (map ring_words rings.new.items
        ≡ map ring_words rings.old.items ++ map Some (told_of words.now)) }
{
    if words.len() == 0 {
        return Ok(());
    }
    let title = Vec::from_slice(alloc, words)?;
    let (x, y) = spot;
    rings.push(Shape::Note(Note { title, x, y }))?;
    Ok(())
}

/// A ring around each step of which something is told.
#[tactic(auto, using(crate::proofs::Ringing::rings_more))]
pub(crate) fn rings_of(
    alloc: Global,
    frame: PictureFrame,
    scene: &Scene,
    plan: &Plan,
) -> Result<Vec<Shape>, AllocError>
    ensures { IfOk result (λ rings. map ring_words rings.items ≡ map Some (told scene.now.notes.now)) }
{
    let mut rings = Vec::new(alloc);
    let notes = scene.notes;
    for place in 0..notes.len() {
        push_ring(
            alloc,
            &mut rings,
            notes[place].as_slice(),
            spot_of(frame, scene, plan, place),
        )?;
    }
    Ok(rings)
}
