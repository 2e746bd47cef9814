//! Floor: the world.
//!
//! The journal of a tree that runs: every step that was made with its reaction, and every message with its
//! number and the mark whether it was delivered.
//!
//! ```text
//! ShortSteps   the steps, kept short: a part that is elsewhere too is named by its place, and a step is read back from it
//! Marks        the messages that were delivered
//! Journal      both; room is made before a step, so that entering one takes no memory
//! ```
#![tactic(auto)]

mod copies;
mod journal;
mod marks;
mod parts;
mod placed_step;
mod short_step;
mod short_steps;
mod shown;
mod span;

pub use journal::Journal;
pub use short_steps::ShortSteps;
pub use shown::ShownStep;
