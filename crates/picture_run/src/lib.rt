//! Floor: engines and program.
//!
//! The picture of a run, as one SVG file: a line downward for each process, an arrow for each delivery, a
//! mark for each record.
#![tactic(auto)]

mod drawing;
mod endings;
mod legend;
mod page;
mod plan;
mod rings;
mod room;
mod sheet;
mod tree;

pub use page::picture;
pub use plan::Scene;
