//! Floor: engines and program.
//!
//! A node, an audit and names for a program in another language: what C calls (`rstar_core.h`).
#![tactic(auto)]

mod exports;
mod handle;
mod texts;
mod xids;

pub use exports::{
    rstar_core_answer, rstar_core_call, rstar_core_close, rstar_core_done, rstar_core_line,
    rstar_core_open, rstar_version,
};
pub use texts::{rstar_audit, rstar_log};
pub use xids::{rstar_xid_bytes, rstar_xid_case, rstar_xid_of_case, rstar_xid_text};
