//! The processes that are played, the names of their first case, and what is written there.

use protocol::{Bytes, Case, Op, Presumption, ProcessId, Ticket, Txn};
use std::alloc::{AllocError, Global};

/// The root.
pub(crate) const ROOT: ProcessId = ProcessId(1);

/// The subordinate below it.
pub(crate) const CHILD: ProcessId = ProcessId(2);

/// The root's case of its first transaction, under Presumed Abort.
pub(crate) fn parent_case() -> Case {
    Case {
        txn: Txn {
            root: ROOT,
            boot: 1,
            sequence: 1,
            presumption: Presumption::PresumeAbort,
        },
        ticket: None,
    }
}

/// The child's case of that transaction, by its first ticket.
pub(crate) fn child_case() -> Case {
    Case {
        txn: parent_case().txn,
        ticket: Some(Ticket {
            child: CHILD,
            boot: 1,
            number: 1,
        }),
    }
}

/// These bytes.
pub(crate) fn bytes(alloc: Global, text: &[u8]) -> Result<Bytes, AllocError> {
    Bytes::from_slice(alloc, text)
}

/// A put of the key `x`.
pub(crate) fn put(alloc: Global) -> Result<Op, AllocError> {
    Ok(Op::Put(bytes(alloc, b"x")?, bytes(alloc, b"1")?))
}
