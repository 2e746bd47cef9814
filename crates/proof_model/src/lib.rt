//! Floor: the wing of proofs.
//!
//! Laws of the reaction table that the wing alone cites: views of coordinators and managers, tickets, phases,
//! standings.
#![tactic(auto)]
