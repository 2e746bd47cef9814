//! Opening the file of a log: it is looked at, and written again only once it is known that its process goes
//! on over it.

ghost use Rattle.std.specs.Prelude.{◌≡◌, IfOk, [], length};
ghost use Rattle.log_file.specs.Seen.{seen_bytes};
ghost use Rattle.log_file.specs.Stores.{file_bytes, file_failures, file_forced};

use crate::found::{FileOpenError, found_in};
use crate::host::{HostFile, above_streams, is_locked, is_named};
use crate::store::FileStore;
use file_blocks::FileText;
use std::alloc::Global;
use std::fs::{File, OpenOptions};
use std::io::{ErrorKind, Read};
use std::os::unix::fs::MetadataExt;
use std::path::{Path, PathBuf};
use std::{fs, io};

/// A log's file that is open, locked and read, and not written yet.
#[derive(Drop)]
pub struct SeenLog {
    file: HostFile,
    number: u64,
    bytes: Vec<u8>,
}

/// The folder that has this name in it.
fn folder_of(path: &str) -> &str {
    match Path::new(path).parent() {
        None => ".",
        Some(folder) => {
            let text = folder.as_str();
            if text.is_empty() { "." } else { text }
        }
    }
}

/// The name to which a name leads over links; None, if there is no file.
fn target_of(rt: &HostRuntime, path: &str) -> Result<Option<PathBuf>, FileOpenError> {
    match fs::canonicalize(rt, path) {
        Ok(target) => Ok(Some(target)),
        Err(error) if error.kind() == ErrorKind::NotFound => Ok(None),
        Err(error) => Err(FileOpenError::from(error)),
    }
}

/// Ok: a file has this name, and the file has no other.
fn file_at(rt: &HostRuntime, path: &str) -> Result<(), FileOpenError> {
    let found = fs::metadata(rt, path)?;
    if !found.is_file() {
        return Err(FileOpenError::NoFile);
    }
    if found.nlink() > 1 {
        return Err(FileOpenError::Linked);
    }
    Ok(())
}

/// The file with this name, locked. It is opened for writing too, as a lock wants it on some file systems.
fn locked(rt: &HostRuntime, path: &str) -> Result<File, FileOpenError> {
    let file = above_streams(OpenOptions::new().read(true).write(true).open(rt, path)?)?;
    if is_locked(&file)? && is_named(rt, &file, path)? {
        Ok(file)
    } else {
        Err(FileOpenError::Busy)
    }
}

/// All that is in an open file.
fn read_all(alloc: Global, mut file: &File) -> Result<Vec<u8>, FileOpenError> {
    let size = usize::try_from(file.metadata()?.len()).unwrap_or(0);
    let mut bytes = Vec::with_capacity(alloc, size.saturating_add(1))?;
    file.read_to_end(&mut bytes)?;
    Ok(bytes)
}

impl SeenLog {
    /// The bytes of the log.
    pub fn bytes(&self) -> &[u8]
        ensures { result.now ≡ seen_bytes self.now }
    {
        &self.bytes
    }

    /// The file of the log.
    pub fn file(&self) -> &HostFile {
        &self.file
    }

    /// A store over the file, in which these bytes are in place of those that were found. They are written
    /// again first, under the name: what an earlier process could not sync reads as if it were there. Err:
    /// they were not.
    pub fn settle_as(self, bytes: Vec<u8>) -> Result<FileStore<HostFile>, FileOpenError>
        ensures text { IfOk result (λ store. file_bytes store ≡ bytes.items) }
        ensures forced { IfOk result (λ store. file_forced store ≡ length bytes.items) }
        ensures works { IfOk result (λ store. file_failures store ≡ 0) }
    {
        let SeenLog { file, number, .. } = self;
        match FileStore::settle(file, number, bytes) {
            Ok(store) => Ok(store),
            Err(error) => Err(FileOpenError::from(error)),
        }
    }

    /// A store over the file, in which the bytes stand that were found.
    pub fn settle(self) -> Result<FileStore<HostFile>, FileOpenError>
        ensures text { IfOk result (λ store. file_bytes store ≡ seen_bytes self) }
        ensures forced { IfOk result (λ store. file_forced store ≡ length (seen_bytes self)) }
        ensures works { IfOk result (λ store. file_failures store ≡ 0) }
    {
        let SeenLog {
            file,
            number,
            bytes,
        } = self;
        match FileStore::settle(file, number, bytes) {
            Ok(store) => Ok(store),
            Err(error) => Err(FileOpenError::from(error)),
        }
    }
}

/// Opens the log with this name, locks it for as long as it is open, and reads it. Nothing is written.
pub fn look(rt: &HostRuntime, alloc: Global, path: &str) -> Result<SeenLog, FileOpenError> {
    let Some(target) = target_of(rt, path)? else {
        return Err(FileOpenError::Missing);
    };
    let path = target.as_str();
    file_at(rt, path)?;
    let file = locked(rt, path)?;
    let folder = above_streams(File::open(rt, folder_of(path))?)?;
    let held = read_all(alloc, &file)?;
    let FileText { number, bytes } = found_in(alloc, Some(&held))?;
    Ok(SeenLog {
        file: HostFile::new(rt, alloc, Some(file), folder, path)?,
        number,
        bytes,
    })
}

/// A log without bytes under this name, which nothing has. Nothing is written: it is made by `settle`.
pub fn look_new(rt: &HostRuntime, alloc: Global, path: &str) -> Result<SeenLog, FileOpenError>
    ensures empty { IfOk result (λ seen. seen_bytes seen ≡ []) }
{
    match fs::symlink_metadata(rt, path) {
        Ok(_) => return Err(FileOpenError::Exists),
        Err(error) if error.kind() == ErrorKind::NotFound => {}
        Err(error) => return Err(FileOpenError::from(error)),
    }
    let folder = above_streams(File::open(rt, folder_of(path))?)?;
    Ok(SeenLog {
        file: HostFile::new(rt, alloc, None, folder, path)?,
        number: 0,
        bytes: Vec::new(alloc),
    })
}

/// Opens the log with this name, as `look` does, and writes what it read again, before that counts as forced.
pub fn open(
    rt: &HostRuntime,
    alloc: Global,
    path: &str,
) -> Result<FileStore<HostFile>, FileOpenError>
    ensures forced { IfOk result (λ store. file_forced store ≡ length (file_bytes store)) }
    ensures works { IfOk result (λ store. file_failures store ≡ 0) }
{
    look(rt, alloc, path)?.settle()
}

/// Makes a log without bytes under this name, and opens it. Err: what is under the name is as it was.
pub fn create(
    rt: &HostRuntime,
    alloc: Global,
    path: &str,
) -> Result<FileStore<HostFile>, FileOpenError>
    ensures empty { IfOk result (λ store. file_bytes store ≡ []) }
    ensures works { IfOk result (λ store. file_failures store ≡ 0) }
{
    look_new(rt, alloc, path)?.settle()
}

/// The bytes of the log with this name, as they are: no lock is asked for and nothing is written, so its
/// process may be running. A block that is being written is passed over.
pub fn read(rt: &HostRuntime, alloc: Global, path: &str) -> Result<Vec<u8>, FileOpenError> {
    if let Err(error) = fs::metadata(rt, path) {
        return if error.kind() == ErrorKind::NotFound {
            Err(FileOpenError::Missing)
        } else {
            Err(FileOpenError::from(error))
        };
    }
    if !fs::metadata(rt, path)?.is_file() {
        return Err(FileOpenError::NoFile);
    }
    let file = File::open(rt, path)?;
    let held = read_all(alloc, &file)?;
    Ok(found_in(alloc, Some(&held))?.bytes)
}
