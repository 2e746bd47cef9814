//! Laws of the records that can be in a log. The functions do nothing: each one's contract is a law.

pub mod law;
