//! What a coordinator's restart and trim do to the pairs below it. The functions do nothing: each one's
//! contract is a law.

pub mod law;
