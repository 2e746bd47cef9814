//! Floor: the log.
//!
//! Records in bytes.
#![tactic(auto)]

mod branch;
mod encode;
mod form;
mod frames;
mod ghosts;
mod mark;
mod names;
mod parts;
mod records;
pub mod xids;

pub use branch::BranchEntry;
pub use encode::{Frame, name_xid};
pub use form::{HEADER_SIZE, LogForm, LogFormat};
pub use frames::first_frame;
pub use mark::{MarkDeed, TrimMark};
pub use names::name_in;
pub use records::{ReadFault, read_record};
