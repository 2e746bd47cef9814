//! A tree of processes that runs, as it is seen from outside, and that what it comes to is a run of the
//! model: definitions and laws alone.

pub mod law;
pub mod runs;
