//! Floor: the model.
//!
//! The text of a trace: the lines of each step of a run.
#![tactic(auto)]

mod names;
mod trace;

pub use trace::{
    case_text, kind_word, outcome_word, push, push_begun, push_case, push_case_word,
    push_conclusion, push_findings, push_kept, push_messages, push_number, push_number_word,
    push_ticket, push_written,
};
