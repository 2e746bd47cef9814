//! Floor: engines and program.
//!
//! What a desk says to a node beside the lines of the input, when it says it, and what it tells of the
//! answers.
//!
//! ```text
//! joining  a JOINED of the input, and what is asked and told of it
//! words    the lines of the desk's own, and what it tells of their answers
//! growth   how long the file of a log may become
//! watch    the time, and the length of the file
//! waits    an input that tells whether there is something to read
//! ```
#![tactic(auto)]

mod growth;
mod joining;
mod waits;
mod watch;
mod words;

pub use joining::{Joining, joining_in};
pub use waits::Waits;
pub use watch::{Habits, Next, Watch, Ways};
pub use words::{TRIM, ask_line, messages_in, takes};
