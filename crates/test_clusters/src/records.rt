//! Whether two records of logs are one.

use protocol::{
    BranchName, Bytes, Case, LogRecord, Outcome, ProcessId, Record, Reports, Ticket, Write,
};
use xa_xid::Xid;

/// What can be compared.
pub(crate) trait Same {
    /// Whether the other value is the same.
    fn is_same(&self, other: &Self) -> bool;
}

/// Whether two lists have the same values in the same order.
pub(crate) fn are_same<T: Same>(one: &[T], other: &[T]) -> bool {
    if one.len() != other.len() {
        return false;
    }
    for place in 0..one.len() {
        if !one[place].is_same(&other[place]) {
            return false;
        }
    }
    true
}

impl Same for Ticket {
    fn is_same(&self, other: &Ticket) -> bool {
        self.is(other)
    }
}

impl Same for Case {
    fn is_same(&self, other: &Case) -> bool {
        self.is(other)
    }
}

fn is_same_xid(one: &Xid, other: &Xid) -> bool {
    one == other
}

impl Same for BranchName {
    fn is_same(&self, other: &BranchName) -> bool {
        match (self, other) {
            (BranchName::Case(one), BranchName::Case(other)) => one.is_same(other),
            (BranchName::Foreign(one), BranchName::Foreign(other)) => is_same_xid(one, other),
            _ => false,
        }
    }
}

impl Same for Bytes {
    fn is_same(&self, other: &Bytes) -> bool {
        self.as_slice() == other.as_slice()
    }
}

impl<T: Same> Same for Option<T> {
    fn is_same(&self, other: &Option<T>) -> bool {
        match (self, other) {
            (Some(one), Some(other)) => one.is_same(other),
            (None, None) => true,
            _ => false,
        }
    }
}

impl Same for Write {
    fn is_same(&self, other: &Write) -> bool {
        self.key.is_same(&other.key) && self.value.is_same(&other.value)
    }
}

impl Same for Reports {
    fn is_same(&self, other: &Reports) -> bool {
        are_same(self.mixed.as_slice(), other.mixed.as_slice())
            && are_same(self.unreported.as_slice(), other.unreported.as_slice())
    }
}

impl Same for Outcome {
    fn is_same(&self, other: &Outcome) -> bool {
        self == other
    }
}

impl Same for ProcessId {
    fn is_same(&self, other: &ProcessId) -> bool {
        self.0 == other.0
    }
}

impl Same for Record {
    fn is_same(&self, other: &Record) -> bool {
        match (self, other) {
            (Record::Opened(boot), Record::Opened(other)) => boot == other,
            (Record::Collecting(case, tickets), Record::Collecting(other, others)) => {
                case.is_same(other) && are_same(tickets.as_slice(), others.as_slice())
            }
            (Record::Prepare(case, tickets), Record::Prepare(other, others)) => {
                case.is_same(other) && are_same(tickets.as_slice(), others.as_slice())
            }
            (Record::Commit(case, tickets), Record::Commit(other, others)) => {
                case.is_same(other) && are_same(tickets.as_slice(), others.as_slice())
            }
            (Record::Abort(case, tickets), Record::Abort(other, others)) => {
                case.is_same(other) && are_same(tickets.as_slice(), others.as_slice())
            }
            (Record::End(case, reports), Record::End(other, others)) => {
                case.is_same(other) && reports.is_same(others)
            }
            (Record::Cleared(case), Record::Cleared(other)) => case.is_same(other),
            (Record::Prepared(branch, writes), Record::Prepared(other, others)) => {
                branch.is_same(other) && are_same(writes.as_slice(), others.as_slice())
            }
            (Record::Committed(branch), Record::Committed(other)) => branch.is_same(other),
            (Record::RolledBack(branch), Record::RolledBack(other)) => branch.is_same(other),
            (Record::Direct(branch, writes), Record::Direct(other, others)) => {
                branch.is_same(other) && are_same(writes.as_slice(), others.as_slice())
            }
            (Record::HeurCommit(branch), Record::HeurCommit(other)) => branch.is_same(other),
            (Record::HeurRollback(branch), Record::HeurRollback(other)) => branch.is_same(other),
            (Record::Told(branch, outcome), Record::Told(other, told)) => {
                branch.is_same(other) && outcome.is_same(told)
            }
            (Record::Forgot(branch), Record::Forgot(other)) => branch.is_same(other),
            (Record::Base(count), Record::Base(other)) => count == other,
            (Record::Pair(key, value), Record::Pair(other, held)) => {
                key.is_same(other) && value.is_same(held)
            }
            _ => false,
        }
    }
}

impl Same for LogRecord {
    fn is_same(&self, other: &LogRecord) -> bool {
        self.parent.is_same(&other.parent) && self.entry.is_same(&other.entry)
    }
}

/// Whether these are the same logs.
pub(crate) fn are_same_logs(one: &[Vec<LogRecord>], other: &[Vec<LogRecord>]) -> bool {
    if one.len() != other.len() {
        return false;
    }
    for place in 0..one.len() {
        if !are_same(&one[place], &other[place]) {
            return false;
        }
    }
    true
}
