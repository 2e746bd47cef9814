//! Floor: engines and program.
//!
//! A node whose lines come from a desk: those of the input, and between them the desk's own.
//!
//! ```text
//! telling    what is told is written, once what it rests on is safe
//! line       a line of the input, and what is told of it
//! group      lines that nobody is told of yet
//! gathering  lines that are at hand: made one after another, made safe once, and then told of
//! round      the cases in doubt are asked about; the log is trimmed
//! ended      a node ends in order
//! run        turn after turn
//! ```
#![tactic(auto)]

mod ended;
mod gathering;
mod group;
mod line;
mod round;
mod run;
mod telling;

pub use run::run_desk;
