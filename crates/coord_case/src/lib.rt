//! Floor: coordinator and subordinate.
//!
//! What a coordinator keeps of a live case.
//!
//! ```text
//! children    each accepted child, in order of acceptance: its ticket, its works, its first vote
//! promised    the tickets that the case's promise names
//! named       those that any of its records names
//! owed        those that owe an acknowledgement
//! found       what the acknowledgements found that were counted, in their order
//! ```
#![tactic(auto)]

mod child;
mod lists;
mod live;

pub use child::Child;
pub use lists::none_of;
pub use live::Live;
