//! Floor: the world.
//!
//! A process of a tree under a lock of its own, and the journal under one of its own: how a step comes from
//! one to the other.
//!
//! ```text
//! under both locks       mark: room for the entries of a turn is taken, and the process's seat notes the journal's messages
//! under the process's    make_step: the process makes the steps of the turn, whatever the others do
//! under both locks       enter: the journal has the entries, in one piece, and the caller's pass notes their places
//! ```
//!
//! A turn of a caller has one step. A turn of a worker has the deliveries of up to 32 messages to one
//! process, in order of sending; the first that is refused ends it. A process's lock is taken before the
//! journal's, and never the other way round.
#![tactic(auto)]

mod entering;
mod errors;
mod ledger;
mod making;
mod marked;
mod marking;
mod pass;
mod seated;

pub use entering::enter;
pub use errors::PostError;
pub use ledger::{Ledger, PassClaim};
pub use making::{Made, make_step};
pub use marked::MarkedStep;
pub use marking::{MOST_ENTRIES, MOST_STEPS, is_same, mark};
pub use pass::Pass;
pub use seated::{Delivered, Gate, Open, Posted, Seated};
