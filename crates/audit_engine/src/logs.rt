//! The engine of `rstar log`: what the logs of a tree hold, one record a line.

mod engine;

pub use engine::run_log;
