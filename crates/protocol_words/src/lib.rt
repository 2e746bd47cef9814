//! Floor: the model.
//!
//! It has no code: specs/ passes on names for the variants and types of the model.
#![tactic(auto)]
