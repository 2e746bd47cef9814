//! A case as a branch at a resource manager: its XID, and back.

mod branches;

pub(crate) use branches::{format_of, ticket_name, txn_name};
pub use branches::{ForeignXid, branch_xid, read_branch};
