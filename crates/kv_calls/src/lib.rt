//! Floor: XA and the key store.
//!
//! What a call that finishes a branch makes of it at a key store, and the records of it.
//!
//! | From | Call | Answer | To | Record |
//! |---|---|---|---|---|
//! | S2 | prepare, nothing written | XA_RDONLY | S0 | |
//! | S2 | prepare | XA_OK | S3 | Prepared, forced |
//! | S3 | commit | XA_OK | S0 | Committed, forced unless Presumed Commit |
//! | S2 | commit TMONEPHASE, nothing written | XA_OK | S0 | |
//! | S2 | commit TMONEPHASE | XA_OK | S0 | Direct, forced |
//! | S2, S4 | rollback | XA_OK | S0 | |
//! | S3 | rollback | XA_OK | S0 | RolledBack, forced under Presumed Commit alone |
//! | S3 | an operator's commit | | S5 | HeurCommit, forced |
//! | S3 | an operator's rollback | | S5 | HeurRollback, forced |
//! | S5 | commit, rollback | XA_HEURCOM, XA_HEURRB | S5 | Told, forced as the outcome would be, if nothing was told yet |
//! | S5 | forget | XA_OK | S0 | Forgot, forced |
//!
//! A branch whose XID is of no case is under Presumed Abort, and what it is told is forced. Committed,
//! Direct and HeurCommit make the branch's writes data; a branch that reaches S0 or S5 lets its writes and
//! its locks go.
#![tactic(auto)]

mod entries;
mod turns;

pub use entries::{BranchRecord, branch_of};
pub use turns::CallRow;
