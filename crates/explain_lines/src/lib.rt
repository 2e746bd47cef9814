//! Floor: engines and program.
//!
//! What is wrong with a line of a script, and what the grammar wants there.
//!
//! ```text
//! near       the word of a grammar that is nearest to a word that is none of it
//! part       what stands at a place of a line: a transaction, a number, a flag
//! form       the lines of each script, by their first word
//! friend     words of other systems for what a grammar has another word for
//! fault      what is wrong with a line, as a sentence
//! finding    the first thing that is wrong with a line
//! ```
#![tactic(auto)]

mod fault;
mod finding;
mod form;
mod friend;
mod near;
mod part;

pub use fault::{LineFault, Near};
pub use finding::{LineFinding, finding_of};
pub use form::{LineForm, Script, script_by};
pub use near::{MOST_EDITS, nearest};
pub use part::LinePart;
