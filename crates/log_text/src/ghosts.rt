//! A record that only clauses read.

ghost use Rattle.std.specs.Prelude.{◌≡◌};
ghost use base.Fml.{ftrue};
ghost use Rattle.protocol.specs.declared.records.LogRecord.{LogRecord};

use crate::branch::BranchEntry;
use protocol::{ProcessId, Record};
use std::marker::Model;
use xa_xid::Xid;

/// A record as clauses see it. It has no bytes: a frame keeps so which record it is of, and no copy of it is
/// made.
#[derive(Drop)]
pub(crate) struct GhostRecord {
    pub ghost value: { LogRecord },
}

impl Model for GhostRecord {
    ghost also_owns = { λ _. ftrue };
}

impl GhostRecord {
    ghost use Rattle.log_text.specs.Branches.{branch_record};

    /// This record, under the parent of its name.
    pub(crate) fn of(_entry: &Record, _parent: &Option<ProcessId>) -> GhostRecord
        ensures { result.value ≡ record { entry = _entry.now; parent = _parent.now } }
    {
        GhostRecord {}
    }

    /// The record of the branch of this XID.
    pub(crate) fn of_branch(_xid: &Xid, _entry: &BranchEntry<'_>) -> GhostRecord
        ensures { result.value ≡ branch_record _entry.now _xid.now }
    {
        GhostRecord {}
    }
}
