//! Floor: engines and program.
//!
//! The words of a picture: of messages, records, acts and events, and what colour they have.
#![tactic(auto)]

mod labels;

pub use labels::{
    act_label, act_line, act_tone, event_line, message_label, message_title, message_tone,
    message_with, number_label, outcome_label, record_name, record_names, record_tone,
    refusal_words, shortened, told_label, told_title, told_tone,
};
