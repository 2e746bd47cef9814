//! Floor: XA and the key store.
//!
//! The XA state tables of this profile, drawn after X/Open C193 (1991), chapter 6.
//!
//! ```text
//! manager       R0 --open--> R1 --close--> R0
//! association   T0 --start--> T1 --end TMSUSPEND--> T2 --start TMRESUME--> T1 --end--> T0
//!                                --end TMSUSPEND+TMMIGRATE--> M --start TMRESUME--> T1
//! branch        S0 --start--> S1 <--> S2 --prepare--> S3 --commit, rollback--> S0
//!                               end TMFAIL--> S4 --rollback--> S0
//!                               S3 --an operator's decision--> S5 --forget--> S0
//! ```
//!
//! A table gives for a state and a call every answer with the state after it. Which of them applies, the
//! branch, the other associations and the manager decide. A pair that is not listed has no row.
#![tactic(auto)]

mod call;
mod rows;
mod states;

pub use call::{Call, Verb, legal_call};
pub use rows::{next_assoc, next_branch, next_init};
pub use states::{AssocState, BranchState, InitState};
