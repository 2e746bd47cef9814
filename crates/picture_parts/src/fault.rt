//! Why a picture is not drawn.

use thiserror::Error;

/// Why a picture, or one of a part, is not drawn.
#[derive(Clone, Copy, Debug, PartialEq, Eq, Error)]
pub enum PartFault {
    /// The tree has this many processes, more than 40.
    #[error("a picture has room for 40 processes, but the tree has {0}: leave out those that take no part")]
    Processes(usize),
    /// The part has this many events, more than 2,000.
    #[error("a picture has room for 2000 events, and these are {0}: --case TXN or --events A-B draws a part")]
    Events(usize),
    /// No step of the run is of the transaction.
    #[error("the run has no step of this transaction: --case takes one that the run began")]
    NoCase,
    /// The run has this many events, fewer than the part asks for.
    #[error("the run has {0} events: --events takes two numbers up to that, as 1-{0}")]
    Beyond(usize),
}
