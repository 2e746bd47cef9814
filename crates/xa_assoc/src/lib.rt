//! Floor: XA and the key store.
//!
//! The associations of threads with branches, and with them all XA tables of one resource manager.
//!
//! ```text
//! T0 --start, start TMJOIN--> T1 --end TMSUSPEND----------> T2 --start TMRESUME, the same thread--> T1
//!                                --end TMSUSPEND+TMMIGRATE--> M --start TMRESUME, any thread------> T1
//!                             T1, T2 --end TMSUCCESS, end TMFAIL--> T0
//! in S4 every end and every resume answers XA_RBROLLBACK and leads to T0
//!
//! States:
//! open, close        R0 <-> R1
//! work_call          a start or an end, whole: a row of each table that it touches
//! ready, finish      a prepare, commit, rollback or forget in two steps, the manager's log between them
//! decided            an operator's decision, S3 to S5
//! recover            a scan of the branches in doubt
//! restored           the tables after a restart
//! ```
#![tactic(auto)]

mod associations;
mod errors;
mod held;
mod law;
mod reacting;
mod seats;
mod states;

pub use associations::Associations;
pub use errors::WorkError;
pub use held::OfBranch;
pub use law::walks_rows;
pub use states::States;
