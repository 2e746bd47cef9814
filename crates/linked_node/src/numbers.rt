//! The numbers that calls answer, as `rstar_core.h` names them.

ghost use Rattle.std.specs.Prelude.{◌≡◌};
ghost use Rattle.linked_node.specs.Numbers.{failure_number};

use log_file::FileOpenError;
use node_engine::{NodeFailure, StartError};
use tree_process::ProcessReopenError;

/// The call was made.
pub const DONE: u32 = 0;

/// The tree's text cannot be read.
pub const TREE_TEXT: u32 = 1;

/// Its processes are no tree.
pub const TREE: u32 = 2;

/// The tree has no such process.
pub const NO_PROCESS: u32 = 3;

/// The tree's text is not UTF-8.
pub const TREE_UTF8: u32 = 17;

/// The system refused a call.
pub const IO: u32 = 9;

/// It is said by no number that is known how to open.
pub const HOW: u32 = 16;

/// Memory was refused.
pub const MEMORY: u32 = 21;

/// The numbers of messages, or of files, are used up.
pub const EXHAUSTED: u32 = 24;

/// A line asked the node to end, and it has.
pub const ENDED: u32 = 25;

/// The answer waits for calls of the log's file.
pub const CALLS: u32 = 27;

/// An earlier answer waits for calls of the log's file: nothing was done.
pub const WAITS: u32 = 28;

/// No call of the log's file is asked for.
pub const NO_CALL: u32 = 29;

/// The text spells no case.
pub const NO_CASE: u32 = 37;

/// The XID names no case of a tree.
pub const FOREIGN: u32 = 38;

/// The number of a failure, which every call answers from then on.
pub fn failure_number(failure: NodeFailure) -> u32
    ensures { result ≡ failure_number failure }
{
    match failure {
        NodeFailure::Read => 20,
        NodeFailure::Memory => 21,
        NodeFailure::Write => 22,
        NodeFailure::Device => 23,
        NodeFailure::Exhausted => 24,
    }
}

/// The number of why the bytes of a file are no log's.
pub fn file_number(error: FileOpenError) -> u32 {
    match error {
        FileOpenError::Memory => 21,
        FileOpenError::Busy => 5,
        FileOpenError::Missing => 6,
        FileOpenError::Exists => 7,
        FileOpenError::Damaged => 8,
        FileOpenError::Io(_) => IO,
        FileOpenError::NoFile => 14,
        FileOpenError::Linked => 15,
    }
}

/// The number of why no node was started. A device that fails in an opening is memory that was refused: no
/// call of it is made before the opening is told.
pub fn start_number(error: StartError) -> u32 {
    match error {
        StartError::Stranger => 10,
        StartError::Reopen(ProcessReopenError::Damaged(_)) => 11,
        StartError::Reopen(ProcessReopenError::Unfit) => 12,
        StartError::Reopen(ProcessReopenError::OldFormat) => 13,
        StartError::Reopen(ProcessReopenError::Memory | ProcessReopenError::Device) => MEMORY,
    }
}
