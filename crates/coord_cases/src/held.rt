//! What is held of a live case.

use coord_case::Live;
use protocol::Case;

/// A live case, and the parent's case for which its ticket was given, as long as the ticket is active.
#[derive(Drop)]
pub struct Held {
    pub given_for: Option<Case>,
    pub live: Live,
}
