//! An accepted child of a case.

use protocol::{ProcessId, Ticket, Vote};

/// An accepted child: its ticket, how many works were sent to it, and its first vote.
#[derive(Clone, Copy, PartialEq, Eq)]
pub struct Child {
    pub ticket: Ticket,
    pub works: u64,
    pub vote: Option<Vote>,
}

impl Default for Child {
    fn default() -> Child {
        Child {
            ticket: Ticket {
                child: ProcessId(0),
                boot: 0,
                number: 0,
            },
            works: 0,
            vote: None,
        }
    }
}
