//! A tree and its logs as text, as a law: what is written is read back, and what is read can be written.

pub mod law;
