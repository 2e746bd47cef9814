//! Floor: engines and program.
//!
//! The engine of tree scripts: a script in, its trace or its logs out.
#![tactic(auto)]

mod counting;
mod counts;
mod drawn;
mod kinds;
pub mod law;
mod logs;
mod rows;
mod run;
mod text;
mod trace;
mod tree;

pub use drawn::{cause_of, status_of};
pub use report_io::{Failure, Status};
pub use run::{Refusal, Run, own_refusal};
pub use trace::{push_opened, push_place, push_refused, trace_text};
pub use tree::{TreeOutput, opened, refusal, run_tree};
