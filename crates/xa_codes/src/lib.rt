//! Floor: spellings and names.
//!
//! The numbers of the XA interface: what a resource manager answers, and the flags of a call.
//!
//! Source: X/Open CAE Specification C193, Distributed Transaction Processing: The XA Specification,
//! December 1991, the header `xa.h`.
#![tactic(auto)]

mod code;
mod flags;

pub use code::{Code, one_code_a_number, one_name_a_code};
pub use flags::Flags;
