//! Floor: engines and program.
//!
//! The rules by which a resource manager is judged: which states may follow a state, by a call and its
//! answer.
//!
//! ```text
//! words        what a manager promises never to do, and what it lacks
//! calls        the calls of a transcript and their answers
//! defects      why a call must be refused, and by which codes it may be
//! passes       what a call that passes may be answered, and what it does
//! scans, data  recover; get, put and del
//! falls        failures, restarts and lost connections
//! step         the states that may follow
//! ```
#![tactic(auto)]

mod branch;
mod calls;
mod data;
mod defects;
mod errors;
mod falls;
mod flags;
mod opening;
mod passes;
mod replies;
mod rows;
mod scan;
mod sets;
mod starts;
mod step;
mod words;

pub use calls::{
    BranchVerb, Function, HistoryEvent, JudgedAnswer, JudgedCall, On, XidName, XidSort,
};
pub use errors::{JudgeError, MOST_STATES};
pub use replies::{ALL, Reply, reply_of};
pub use sets::add_all;
pub use step::next;
pub use words::{Lacks, Never, Rules};
