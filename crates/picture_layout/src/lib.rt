//! Floor: engines and program.
//!
//! The rows of a run's picture: which process is at which place, at which row each step begins and ends,
//! and what is drawn from which row to which.
#![tactic(auto)]

mod drawn;
mod error;
mod fates;
mod rows;
mod seats;
mod standings;
mod stretches;

pub use drawn::{Arrow, RecordMark, Stub, Way, arrows, marks, stubs};
pub use error::PictureError;
pub use fates::{Fate, fates_of, heard_by, messages_of};
pub use rows::{EventSteps, LONG, Rows, Rule, StepRows, rows_of};
pub use seats::{Column, place_of, seats_of};
pub use standings::{Crash, History, LastState, Mismatch, history_of};
pub use stretches::{Band, Change, Stretch, stretches_of};
