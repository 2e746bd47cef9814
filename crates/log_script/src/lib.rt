//! Floor: the log.
//!
//! A tree and the logs of its processes as text: what `tree --logs` writes and what `log` reads.
#![tactic(auto)]

mod faults;
pub mod law;
mod line;
pub mod places;
mod reading;
pub mod spelling;
mod writing;

pub use faults::{damaged, refusal};
pub use line::{ProcessLog, ProcessLogs, log_of};
pub use reading::{bytes_of, each_has_log, read_logs};
pub use writing::logs_text;
