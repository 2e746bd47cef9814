//! Floor: engines and program.
//!
//! The lines of an input, each kept in memory up to a bound.
#![tactic(auto)]

mod line;
mod reading;

pub use line::{InputLine, InputLineFault, LONGEST};
pub use reading::read_line;
