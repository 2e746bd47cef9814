//! Floor: engines and program.
//!
//! One process of a tree as a program of its own: lines in, lines out.
#![tactic(auto)]

mod again;
mod branches;
mod data;
mod failure;
mod run;
mod serving;
mod starting;
mod witness;

pub use failure::NodeFailure;
pub use run::{Ended, run_node};
pub use serving::Serving;
pub use starting::{StartError, start};
pub use witness::{Nobody, Witness};
