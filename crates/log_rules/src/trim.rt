//! Which records of a log stay in a trim.

pub mod law;
mod lives;

pub use lives::Lives;
