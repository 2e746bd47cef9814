//! Floor: coordinator and subordinate.
//!
//! What a row of the reaction table makes (R*), and the rows of a case in doubt.
//!
//! ```text
//! seat      a coordinator in one of its cases, and the messages that it sends from there
//! effect    what a row does: at most one record, what is told, and the messages
//! deciding  a record, and where the case is left after it: it waits for those that owe, or is forgotten
//! prepared  the rows of a case that promised: COMMIT, ABORT, PREPARE again, and the ask act
//! resuming  what a case sends again as its coordinator restarts
//! ```
//!
//! The other rows are above it (`coord_rows`).
#![tactic(auto)]

mod deciding;
mod effect;
mod prepared;
mod resuming;
mod seat;

pub use deciding::{decides_owed, forgets_behind};
pub use effect::{RowEffect, RowFrame, RowRecord};
pub use prepared::{prepared_abort, prepared_ask, prepared_commit, prepared_prepare};
pub use resuming::resume;
pub use seat::{
    OwnCase, Reason, acknowledge_abort, acknowledge_unknown_abort, acknowledge_unknown_commit,
    heard_above, outcome_message, tell_each, up,
};
