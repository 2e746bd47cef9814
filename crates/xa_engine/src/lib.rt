//! Floor: engines and program.
//!
//! The engine of XA scripts: a script in, its answers out.
#![tactic(auto)]

mod answer;
mod calls;
mod law;
pub mod script;
mod xa;

pub use answer::{RequestAnswer, push_answer};
pub use calls::{Manager, make};
pub use law::histories_are_legal;
pub use report_io::{Failure, Status};
pub use xa::{first_manager, run_xa};
