//! Floor: XA and the key store.
//!
//! The branches that a resource manager knows, in order of beginning, the scans of them, and operators'
//! decisions of them (C193, heuristic branch completion).
//!
//! ```text
//! begin      S0 -> S1
//! step       a row of the table of branches, which its caller picks
//! decided    S3 -> S5, an operator's decision
//! restore    S0 -> S3 or S5, what a restart finds in the log
//! scan       a snapshot of the branches in S3 and S5, given out in pieces
//!
//! of the decisions (`Heuristics`):
//! reserve    room for one decision more; it takes all memory
//! decide     an operator decides a branch; it takes none
//! told       the first outcome that a decided branch is told counts
//! forget     the decision is forgotten
//! restore    a decision that a log says an operator made
//! open_cases the branches that are decided and not forgotten
//! ```
#![tactic(auto)]

mod branches;
mod decision;
mod heuristics;
mod scans;

pub use branches::BranchStates;
pub use decision::Decision;
pub use heuristics::Heuristics;
