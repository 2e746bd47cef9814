//! Floor: the world.
//!
//! The steps in which a device failed, beside the journal of those that were made.
//!
//! ```text
//! none --note--> last --count--> counted, and none again
//! ```
//!
//! - none, a step failed: `Faults::note`, which takes no memory;
//! - last, before the next event: `Faults::count`, with what the step left of the process's log.
#![tactic(auto)]

mod count;
mod faults;

pub use count::Count;
pub use faults::{FaultCause, Faults, LastFault, failed_entry};
