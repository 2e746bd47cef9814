//! A log file of the operating system. Each method makes the calls that it names, in that order, and answers
//! what they answered.

use crate::log_file::LogFile;
use crate::trouble::Trouble;
use std::alloc::{AllocError, Global};
use std::fs::{File, OpenOptions, TryLockError};
use std::io::{ErrorKind, Seek, SeekFrom, Write};
use std::os::fd::AsRawFd;
use std::os::unix::fs::{MetadataExt, OpenOptionsExt};
use std::{fs, io};

/// How often a call that a signal interrupts is made again.
const TRIES: u32 = 1_000;

/// At most this number of bytes are put together, so that one call writes them.
const TOGETHER: usize = 4_096;

/// An open log file: its name and its folder, the name under which a new one is written, and the file that
/// has the name, which is locked for as long as it is open.
pub struct HostFile {
    rt: HostRuntime,
    /// None, until a first file was written.
    file: Option<File>,
    /// Where the file's position is, if that is known.
    at: Option<u64>,
    folder: File,
    path: String,
    beside: String,
    trouble: Trouble,
}

// For the proof: what is let go by hand is proved here alone, and not again by each crate above.
impl Drop for HostFile {
    fn drop(self) {
        let HostFile {
            rt: _,
            file: _,
            at: _,
            folder: _,
            path: _,
            beside: _,
            trouble: _,
        } = self;
    }
}

/// The file under a descriptor above the standard streams', so that what is meant for one that was closed
/// does not land in the log.
pub(crate) fn above_streams(file: File) -> io::Result<File> {
    if file.as_raw_fd() <= 2 {
        file.try_clone()
    } else {
        Ok(file)
    }
}

/// Locks a file for as long as it is open; false, if another process has it locked.
pub(crate) fn is_locked(file: &File) -> io::Result<bool> {
    match file.try_lock() {
        Ok(()) => Ok(true),
        Err(TryLockError::WouldBlock) => Ok(false),
        Err(TryLockError::Error(error)) => Err(error),
    }
}

/// Whether this name, which is no link, is the open file's.
pub(crate) fn is_named(rt: &HostRuntime, file: &File, path: &str) -> io::Result<bool> {
    let here = file.metadata()?;
    match fs::symlink_metadata(rt, path) {
        Ok(there) => Ok(there.ino() == here.ino() && there.dev() == here.dev()),
        Err(error) if error.kind() == ErrorKind::NotFound => Ok(false),
        Err(error) => Err(error),
    }
}

/// Gives a file another name, in the place of what has it. A call that is interrupted is made again.
fn rename(rt: &HostRuntime, from: &str, to: &str) -> io::Result<()> {
    for _ in 0..TRIES {
        match fs::rename(rt, from, to) {
            Err(error) if error.kind() == ErrorKind::Interrupted => {}
            answer => return answer,
        }
    }
    Err(io::Error::from(ErrorKind::Interrupted))
}

/// Writes these bytes, one after the other, where the file's position is: by one call, if they are few.
fn write_both(mut file: &File, head: &[u8], more: &[u8]) -> io::Result<()> {
    if head.len() > TOGETHER || more.len() > TOGETHER - head.len() {
        file.write_all(head)?;
        return file.write_all(more);
    }
    let mut both = [0; TOGETHER];
    let size = head.len() + more.len();
    both[..head.len()].copy_from_slice(head);
    both[head.len()..size].copy_from_slice(more);
    file.write_all(&both[..size])
}

/// Removes the file that a process which ended left under the name of a new one. What is no file stays, and
/// so does one that a process has locked.
fn clear(rt: &HostRuntime, path: &str) -> io::Result<()> {
    match fs::symlink_metadata(rt, path) {
        Ok(found) if found.is_file() => {}
        Ok(_) => return Err(io::Error::new(ErrorKind::AlreadyExists, "NAME.new is not a file")),
        Err(error) if error.kind() == ErrorKind::NotFound => return Ok(()),
        Err(error) => return Err(error),
    }
    let file = above_streams(File::open(rt, path)?)?;
    if is_locked(&file)? && is_named(rt, &file, path)? {
        fs::remove_file(rt, path)
    } else {
        Err(io::Error::new(ErrorKind::ResourceBusy, "NAME.new is in use"))
    }
}

/// What a position is after N bytes and then M.
fn after(place: u64, head: &[u8], more: &[u8]) -> Option<u64> {
    place
        .checked_add(head.len() as u64)?
        .checked_add(more.len() as u64)
}

impl HostFile {
    /// The file with this name, which leads over no link, and which is locked, if it is there.
    pub(crate) fn new(
        rt: &HostRuntime,
        alloc: Global,
        file: Option<File>,
        folder: File,
        path: &str,
    ) -> Result<HostFile, AllocError> {
        Ok(HostFile {
            rt: *rt,
            file,
            at: None,
            folder,
            path: String::from_str(alloc, path)?,
            beside: format!(in alloc; "{path}.new")?,
            trouble: Trouble::new(alloc)?,
        })
    }

    /// What the system said of the last call that failed.
    pub fn trouble(&self) -> &Trouble {
        &self.trouble
    }

    /// Ok: the name is still the file's; or, if no file was written yet, nobody's.
    fn keeps_name(&self) -> io::Result<()> {
        let path = self.path.as_str();
        match &self.file {
            Some(file) => {
                if is_named(&self.rt, file, path)? {
                    Ok(())
                } else {
                    Err(io::Error::new(ErrorKind::NotFound, "the file no longer has its name"))
                }
            }
            None => match fs::symlink_metadata(&self.rt, path) {
                Err(error) if error.kind() == ErrorKind::NotFound => Ok(()),
                Err(error) => Err(error),
                Ok(_) => Err(io::Error::new(ErrorKind::AlreadyExists, "there is a log")),
            },
        }
    }

    /// A new file under the name beside, locked.
    fn fresh(&self) -> io::Result<File> {
        clear(&self.rt, self.beside.as_str())?;
        let file = above_streams(
            OpenOptions::new()
                .write(true)
                .create_new(true)
                .mode(0o600)
                .open(&self.rt, self.beside.as_str())?,
        )?;
        if is_locked(&file)? {
            Ok(file)
        } else {
            Err(io::Error::new(ErrorKind::ResourceBusy, "NAME.new is in use"))
        }
    }

    /// Writes and syncs the new file, and gives it the name.
    fn put(&self, file: &File, head: &[u8], more: &[u8]) -> io::Result<()> {
        write_both(file, head, more)?;
        file.sync_all()?;
        self.keeps_name()?;
        rename(&self.rt, self.beside.as_str(), self.path.as_str())
    }

    /// A new file of these bytes in the place of the old one. If it did not take that place it is removed.
    fn put_anew(&mut self, head: &[u8], more: &[u8]) -> io::Result<()> {
        let file = self.fresh()?;
        if let Err(error) = self.put(&file, head, more) {
            let _ = fs::remove_file(&self.rt, self.beside.as_str());
            return Err(error);
        }
        self.file = Some(file);
        self.at = after(0, head, more);
        self.folder.sync_all()
    }

    /// Writes these bytes at this place of the file.
    fn write_at(&mut self, place: u64, head: &[u8], more: &[u8]) -> io::Result<()> {
        let Some(file) = &self.file else {
            return Err(io::Error::from(ErrorKind::NotFound));
        };
        if self.at != Some(place) {
            let mut file = file;
            file.seek(SeekFrom::Start(place))?;
        }
        self.at = None;
        write_both(file, head, more)?;
        self.at = after(place, head, more);
        Ok(())
    }

    /// Syncs the file. What is on the disk is no log, if the file has lost its name.
    fn sync_named(&self) -> io::Result<()> {
        match &self.file {
            Some(file) => file.sync_data()?,
            None => return Err(io::Error::from(ErrorKind::NotFound)),
        }
        self.keeps_name()
    }
}

impl LogFile for HostFile {
    fn write(&mut self, place: u64, head: &[u8], more: &[u8]) -> io::Result<()> {
        let written = self.write_at(place, head, more);
        self.trouble.note(written)
    }

    fn sync(&mut self) -> io::Result<()> {
        let synced = self.sync_named();
        self.trouble.note(synced)
    }

    fn replace(&mut self, head: &[u8], more: &[u8]) -> io::Result<()> {
        let put = self.put_anew(head, more);
        self.trouble.note(put)
    }
}
