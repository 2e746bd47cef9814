//! The calls of a transcript and their answers. Branches, keys and values are numbers here.

use xa_codes::{Code, Flags};

/// A function of the interface that is called on a branch.
#[derive(Clone, Copy, PartialEq, Eq)]
pub enum BranchVerb {
    Start,
    End,
    Prepare,
    Commit,
    Rollback,
    Forget,
}

/// What an XID is, apart from which.
#[derive(Clone, Copy, PartialEq, Eq)]
pub enum XidSort {
    /// The null XID, which names no branch.
    Null,
    /// It has no branch qualifier.
    Bare,
    Full,
}

/// The XID that a call names.
#[derive(Clone, Copy, PartialEq, Eq)]
pub struct XidName {
    pub number: u32,
    pub sort: XidSort,
}

/// Who calls on which branch, with which flags.
#[derive(Clone, Copy, PartialEq, Eq)]
pub struct On {
    pub thread: u32,
    pub xid: XidName,
    pub flags: Flags,
}

/// A function of the interface that is called.
#[derive(Clone, Copy, PartialEq, Eq)]
pub enum Function {
    Open(Flags),
    Close(Flags),
    Branch(BranchVerb, On),
    Recover {
        thread: u32,
        count: u32,
        flags: Flags,
    },
}

/// What a line of a transcript asks for.
#[derive(Clone, Copy, PartialEq, Eq)]
pub enum JudgedCall {
    Function(Function),
    Get { thread: u32, key: u32 },
    /// The value 0 is none: a deletion.
    Put { thread: u32, key: u32, value: u32 },
    /// An operator decides a branch.
    Decide { branch: u32, commits: bool },
    /// The manager falls and comes back. What it had not forced may be cut off.
    Restart { cut: bool },
    /// The connection of a thread is gone.
    Disconnect { thread: u32 },
    Trim,
}

/// An answer.
#[derive(Drop)]
pub enum JudgedAnswer {
    Code(Code),
    /// The branches that a recover gives.
    Given(Vec<u32>),
    /// What a thread read: 0 for nothing.
    Found(u32),
    Done,
    /// A refusal without a code of XA.
    Refused,
    /// The word of a restart or a trim.
    Told,
    /// None came.
    Hung,
}

/// A call and its answer.
#[derive(Drop)]
pub struct HistoryEvent {
    pub call: JudgedCall,
    pub answer: JudgedAnswer,
}
