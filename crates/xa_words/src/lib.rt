//! Floor: XA and the key store.
//!
//! It has no code: specs/ passes on names for codes and calls of XA.
#![tactic(auto)]
