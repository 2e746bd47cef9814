//! What an audit of the processes' logs finds. The functions do nothing: each one's contract is a law.

pub mod law;
