//! Floor: spellings and names.
//!
//! How numbers and bytes are spelled in a text, with one spelling each.
//!
//! ```text
//! numeral        numbers in decimal
//! hexadecimal    bytes in hexadecimal
//! word           the two parts of a text, before and after a character
//! ```
#![tactic(auto)]

pub mod hexadecimal;
pub mod numeral;
pub mod word;
