//! Floor: coordinator and subordinate.
//!
//! The rows of the reaction table over a coordinator's live case (R*), for the root and for a coordinator
//! below it, under Presumed Abort and Presumed Commit.
//!
//! ```text
//!             commit, PREPARE         last YES: the root, commits
//! Active ---------------> Collecting --------------------------> Committing
//!    |                      |     |  last YES, below the root        ^
//!    |                      |     +------> Prepared -----------------+  COMMIT
//!    | abort, ABORT         | NO, abort       | ABORT
//!    v                      v                 v
//!  (gone)                Aborting <-----------+        the last ACK ends both
//! ```
//!
//! | Standing | Input | Function |
//! |---|---|---|
//! | Active | join | `active_join` |
//! | Active | JOINED | `active_joined` |
//! | Active | work | `active_work` |
//! | Active | commit, PREPARE | `active_commit` |
//! | Active | abort, ABORT | `active_abort` |
//! | Collecting | YES, NO, READ | `collecting_vote` |
//! | Collecting | abort, ABORT | `collecting_abort` |
//! | Prepared | COMMIT, ABORT, PREPARE, ask | `prepared_commit`, `prepared_abort`, `prepared_prepare`, `prepared_ask` |
//! | Committing, Aborting | ACK, INQUIRE | `decided_ack`, `decided_inquiry` |
//! | Committing, Aborting | COMMIT, ABORT, PREPARE again | `committing_commit`, `aborting_abort`, `aborting_prepare` |
//! | none | PREPARE, COMMIT, ABORT, INQUIRE | `unknown_prepare`, `unknown_commit`, `unknown_abort`, `unknown_inquiry` |
//! | none, reported at the root | forget | `clears` |
//!
//! `take_row` finds the row that an input meets where the case stands, and `answer` that of a case that is not
//! live; `outcomes` has COMMIT and ABORT of the parent, `rows` all else.
//!
//! A coordinator below the root acknowledges an outcome after the last ACK that it is owed, with what was
//! found below it: `decided_ack`. So its ACK speaks for its whole subtree, and `committing_commit` and
//! `aborting_abort` say nothing. Of a case of which nothing is known the own ticket is unreported.
//!
//! A case that aborted without anybody left to acknowledge, or that ended, is gone: it is Unknown.
//!
//! What a row makes, and the rows of a case in doubt (Prepared), are in `coord_effects`; what the crates
//! above take of it is passed on from here.
#![tactic(auto)]

mod active;
mod asked;
mod collecting;
mod decided;
mod found;
mod outcomes;
mod rows;

pub use asked::{CaseInput, retires};
pub use coord_effects::{OwnCase, RowEffect, RowFrame, resume};
pub use decided::{clears, unknown_inquiry};
pub use rows::{answer, take_row};
