//! Floor: engines and program.
//!
//! The picture of a part of a run, the steps of a transaction or of some of its events:
//! `tree --picture --case` and `--events`; and how large a picture may be.
#![tactic(auto)]

mod belonging;
mod caption;
mod counting;
mod cutting;
mod drawing;
mod events;
mod fault;
mod part;

pub use belonging::Belonging;
pub use cutting::drawn_from;
pub use drawing::{Picture, picture_of, whole_fault};
pub use fault::PartFault;
pub use part::{MOST_EVENTS, MOST_PROCESSES, PicturePart, Range, range_of};
