//! Floor: engines and program.
//!
//! The engine of `rstar resolve`: what is to be done with a prepared branch that was left behind, by the logs
//! of its tree.
//!
//! ```text
//! engine     the engine
//! asked      what is asked for beside the names
//! reading    the logs, each process's or only some
//! answer     what is answered of a name, and why
//! finding    the answer to a case
//! law        that it is how the case's transaction ends
//! lines      the text of an answer, and why it is so
//! sql        the statement that does it
//! ```
#![tactic(auto)]

mod answer;
mod asked;
mod engine;
mod finding;
pub mod law;
mod lines;
mod reading;
mod sql;

pub use answer::{AnswerReason, AnswerWord, BranchAnswer};
pub use asked::{AnswerForm, Database, ResolveInput, Trust};
pub use engine::{ResolveStatus, answer_named, run_resolve};
pub use finding::Finder;
pub use lines::push_answer;
pub use reading::read_some_logs;
