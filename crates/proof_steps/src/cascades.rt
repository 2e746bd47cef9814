//! What a step of a cascaded coordinator does to the pairs above it. The functions do nothing: each one's
//! contract is a law.

pub mod law;
