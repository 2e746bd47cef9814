//! A step with the places of its parts.

ghost use Rattle.std.specs.Prelude.{◌≡◌, ◌<◌, length, slice_get, take};
ghost use Rattle.tree_journal.specs.Steps.{ends_after, first_starts, placed_steps};

use crate::short_step::{Cause, Ends, ShortStep};
use crate::span::Span;

/// A step with its reaction, of which the parts are in lists. It is made as it is read, and not kept.
#[derive(Clone, Copy)]
pub struct PlacedStep {
    /// Which process made it, and why.
    pub cause: Cause,
    /// Where the records that it wrote stand, in order.
    pub written: Span,
    /// Where the messages that it sent stand, in order.
    pub messages: Span,
    /// The number of what else its reaction has, from 1; 0, where it has nothing else.
    pub aside: usize,
}

/// Where the records and the messages of the step at this place start.
fn starts_at(steps: &[ShortStep], place: usize) -> Ends
    requires { place < length steps.now }
    ensures { result ≡ ends_after first_starts (take place steps.now) }
{
    if place == 0 {
        return Ends {
            written: 0,
            messages: 0,
        };
    }
    steps[place - 1].ends
}

/// The step at this place, from 0; None, if N are not kept.
pub(crate) fn step_at(steps: &[ShortStep], place: usize) -> Option<PlacedStep>
    ensures { result ≡ slice_get (placed_steps steps.now) place }
{
    let step = steps.get(place)?;
    let starts = starts_at(steps, place);
    Some(PlacedStep {
        cause: step.cause,
        written: Span {
            start: starts.written,
            end: step.ends.written,
        },
        messages: Span {
            start: starts.messages,
            end: step.ends.messages,
        },
        aside: step.aside,
    })
}
