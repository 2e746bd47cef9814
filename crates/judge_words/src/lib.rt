//! Floor: engines and program.
//!
//! It has no code: specs/ passes on names for what the judge is told.
#![tactic(auto)]
