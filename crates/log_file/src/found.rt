//! What an opening makes of what it found.

ghost use Rattle.std.specs.Prelude.{IfErr, IfOk};
ghost use Rattle.log_file.specs.Found.{IsFound, IsRefused, text_of};

use file_blocks::{FileReadFault, FileText, read_file};
use std::alloc::{AllocError, Global};
use std::io;
use thiserror::Error;

/// Why a log file was not opened.
#[derive(Clone, Copy, Debug, Error)]
pub enum FileOpenError {
    #[error("no memory")]
    Memory,
    /// Another process has it open.
    #[error("the log is in use")]
    Busy,
    /// There is none, and none was to be made: a log that was lost must not be begun again.
    #[error("there is no log")]
    Missing,
    /// There is one, and a new one was to be made.
    #[error("there is a log")]
    Exists,
    /// What is there is no file of a log, or what was safe in it is broken.
    #[error("the log is damaged")]
    Damaged,
    /// What has the name is a folder, a pipe or the like.
    #[error("it is not a file")]
    NoFile,
    /// The file has a second name (a hard link), by which another process could open it.
    #[error("the file has a second name")]
    Linked,
    /// The system refused a call.
    #[error("{0}")]
    Io(io::Error),
}

impl From<AllocError> for FileOpenError {
    fn from(_error: AllocError) -> FileOpenError {
        FileOpenError::Memory
    }
}

impl From<io::Error> for FileOpenError {
    fn from(error: io::Error) -> FileOpenError {
        if error.kind() == io::ErrorKind::OutOfMemory {
            FileOpenError::Memory
        } else {
            FileOpenError::Io(error)
        }
    }
}

/// What is in the file with a log's name: its number, and the bytes of the log, which are none if no record
/// came to be forced. None: there is no such file. Missing, Damaged: these bytes are no log's. It reads them
/// alone: whose log it is, and of which format, is for the log to tell.
pub fn found_in(alloc: Global, held: Option<&[u8]>) -> Result<FileText, FileOpenError>
    ensures ok { IfOk result (IsFound (text_of held.entry)) }
    ensures err { IfErr result (IsRefused (text_of held.entry)) }
{
    let Some(bytes) = held else {
        return Err(FileOpenError::Missing);
    };
    match read_file(alloc, bytes) {
        Ok(found) => Ok(found),
        Err(FileReadFault::Memory) => Err(FileOpenError::Memory),
        Err(FileReadFault::Damaged) => Err(FileOpenError::Damaged),
    }
}
