//! The order of the records in a log.

mod names;
mod seen;

pub use seen::Seen;
