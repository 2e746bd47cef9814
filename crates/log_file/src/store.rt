//! The store over a file.

ghost use Rattle.std.specs.Prelude.{◌≡◌, ◌≤◌, ◌<◌, ◌+◌, ◌∷◌, [], length, false, IfErr, IfOk, IfSome, OnOk};
ghost use Rattle.std.specs.Vec.{vec_capacity};
ghost use Rattle.file_blocks.specs.Blocks.{behind};
ghost use Rattle.file_blocks.specs.Files.{file_text};
ghost use Rattle.log_store.specs.Stores.{Forces, ForceBreaks, MemoryRefuses, ReplaceBreaks, Replaces};

use crate::log_file::LogFile;
use file_blocks::{FILE_HEAD, HEAD, file_start, head_of};
use log_store::{LogStore, StoreError};
use std::alloc::AllocError;
use std::io;

/// A store in a file. What one force covers is written as one block, then: until it is forced nothing of it
/// is in the file. After a failure the file may hold other bytes than the store: the next force, or
/// `replace`, writes all that is to stand to a new file, which takes its place.
pub struct FileStore<F> {
    file: F,
    /// The number of the file.
    number: u64,
    /// Where the next block begins.
    end: u64,
    bytes: Vec<u8>,
    forced: usize,
    failures: u64,
    /// The file may hold other bytes than these.
    stale: bool,
    ghost within: { forced ≤ length bytes.items },
}

// For the proof: what is let go by hand is proved here alone, and not again by each crate above.
impl<F: Drop> Drop for FileStore<F> {
    fn drop(self) {
        let FileStore {
            file: _,
            number: _,
            end: _,
            bytes: _,
            forced: _,
            failures: _,
            stale: _,
        } = self;
    }
}

/// Where the block that begins after a block at this place with N bytes; None, if no file is so
/// long.
fn end_of(place: u64, size: usize) -> Option<u64>
    ensures { IfSome result (λ end. end ≡ place + (72 + size)) }
{
    place.checked_add(HEAD as u64)?.checked_add(size as u64)
}

/// The number of the file after this one, and where its second block begins after a first one of N bytes.
fn placed(number: u64, size: usize) -> Option<(u64, u64)>
    ensures { IfSome result (λ at. (at.0 ≡ number + 1) × (at.1 ≡ 48 + (72 + size))) }
{
    Some((number.checked_add(1)?, end_of(FILE_HEAD as u64, size)?))
}

impl<F: LogFile> FileStore<F> {
    ghost use Rattle.log_file.specs.Stores.{
      Fails,
      PutsFile,
      file_bytes,
      file_of,
      file_failures,
      file_forced,
    };

    /// A store over a file which held these bytes under this number: they are written again, since what was
    /// read may not be on the disk. Err: the device failed under it, or the numbers of files are used up. It
    /// takes no memory.
    pub fn settle(mut file: F, number: u64, bytes: Vec<u8>) -> io::Result<Self>
        ensures text { IfOk result (λ s. file_bytes s ≡ bytes.items) }
        ensures forced { IfOk result (λ s. file_forced s ≡ length bytes.items) }
        ensures works { IfOk result (λ s. file_failures s ≡ 0) }
        ensures put { IfOk result (λ s. PutsFile F.replaces file s bytes.items) }
    {
        let (number, end) = match placed(number, bytes.len()) {
            Some(at) => at,
            None => return Err(io::Error::other("the numbers of files are used up")),
        };
        let start = file_start(number, &bytes);
        file.replace(&start, &bytes)?;
        let forced = bytes.len();
        Ok(FileStore {
            file,
            number,
            end,
            bytes,
            forced,
            failures: 0,
            stale: false,
        })
    }

    /// The file.
    pub fn file(&self) -> &F
        ensures { result.now ≡ file_of self.now }
    {
        &self.file
    }

    /// The file, which the store releases.
    pub fn into_file(self) -> F
        ensures { result ≡ file_of self }
    {
        let FileStore {
            file,
            number: _,
            end: _,
            bytes: _,
            forced: _,
            failures: _,
            stale: _,
        } = self;
        file
    }

    /// Counts a failure of the device.
    fn fail(&mut self) -> StoreError
        ensures fails { Fails self.old self.new }
        ensures room { vec_capacity self.new.bytes ≡ vec_capacity self.old.bytes }
        ensures error { result ≡ StoreError.Device }
    {
        self.failures = self.failures.saturating_add(1);
        self.stale = true;
        StoreError::Device
    }
}

impl<F: LogFile> FileStore<F> {
    ghost use Rattle.log_file.specs.Stores.{PutsFile, SameButFile, WritesBlock, file_bytes, file_failures, file_forced};

    /// Writes what is not forced as a block, and syncs the file. Gives where the next block begins; None,
    /// where the device failed.
    fn write_block(&mut self) -> Option<u64>
        ensures written { IfSome result (WritesBlock F.writes F.syncs self.old self.new) }
        ensures rest { SameButFile self.old self.new }
    {
        let payload = &self.bytes[self.forced..];
        let end = end_of(self.end, payload.len())?;
        let head = head_of(self.number, self.end, payload);
        self.file.write(self.end, &head, payload).ok()?;
        self.file.sync().ok()?;
        Some(end)
    }

    /// All that stands is written to a new file, in one block, and that file takes the place of the old one.
    fn force_anew(&mut self) -> Result<(), StoreError>
        ensures ok { OnOk result (Forces file_bytes file_forced file_failures self.old self.new) }
        ensures room { vec_capacity self.old.bytes ≤ vec_capacity self.new.bytes }
        ensures err { IfErr result (λ e. (e ≡ StoreError.Device)
            × ForceBreaks file_bytes file_forced file_failures self.old self.new) }
        ensures file { OnOk result (PutsFile F.replaces self.old.file self.new self.old.bytes.items) }
    {
        let Some((number, end)) = put(&mut self.file, self.number, &self.bytes) else {
            return Err(self.fail());
        };
        self.number = number;
        self.end = end;
        self.forced = self.bytes.len();
        self.stale = false;
        Ok(())
    }
}

/// A file of these bytes takes the place of the file of this number. Gives its number, and where its next
/// block begins; None, if the device failed.
fn put<F: LogFile>(file: &mut F, number: u64, new: &[u8]) -> Option<(u64, u64)>
    ensures put { IfSome result (λ at. F.replaces file.old file.new (file_text at.0 (new.now ∷ []))) }
    ensures end { IfSome result (λ at. at.1 ≡ behind 48 new.now) }
{
    let (number, end) = placed(number, new.len())?;
    let start = file_start(number, new);
    file.replace(&start, new).ok()?;
    Some((number, end))
}

impl<F: LogFile> FileStore<F> {
    ghost use Rattle.log_file.specs.Stores.{ClosesFile, file_bytes, file_failures, file_forced};

    /// Forces what stands, and then writes an empty block after the last one and syncs the file. So each
    /// block before it is told, if it is broken later. It is for an end in order: the file opens as it would
    /// without. Device: the device failed, and what stands is forced or not. It takes no memory.
    pub fn close(&mut self) -> Result<(), StoreError>
        ensures ok { OnOk result (Forces file_bytes file_forced file_failures self.old self.new) }
        ensures err { IfErr result (λ e. (e ≡ StoreError.Device)
            × ForceBreaks file_bytes file_forced file_failures self.old self.new) }
        ensures file { OnOk result (ClosesFile F.writes F.syncs F.replaces self.old self.new) }
    {
        self.force()?;
        match self.write_block() {
            Some(end) => {
                self.end = end;
                Ok(())
            }
            None => Err(self.fail()),
        }
    }
}

impl<F: LogFile> LogStore for FileStore<F> {
    ghost use Rattle.log_file.specs.Stores.{
      ForcesFile,
      PutsFile as Puts,
      file_bytes as text_of,
      file_failures as failures_of,
      file_forced as forced_of,
    };

    ghost bytes = { λ s. s.bytes.items };

    ghost forced = { λ s. s.forced };

    ghost failures = { λ s. s.failures };

    ghost room = { λ s. vec_capacity s.bytes };

    ghost front = { λ s. s.within };

    fn bytes(&self) -> &[u8] {
        &self.bytes
    }

    fn forced(&self) -> usize {
        self.forced
    }

    fn failures(&self) -> u64 {
        self.failures
    }

    fn reserve(&mut self, more: usize) -> Result<(), AllocError> {
        self.bytes.reserve(more)
    }

    fn append(&mut self, more: &[u8]) -> Result<(), StoreError> {
        match self.bytes.extend_from_slice(more) {
            Ok(()) => Ok(()),
            Err(_) => Err(StoreError::Memory),
        }
    }

    /// What is not forced is written as one block, and the file is synced. After a failure all that stands is
    /// written to a new file instead, which takes the place of the old one.
    fn force(&mut self) -> Result<(), StoreError>
        ensures ok { OnOk result (Forces text_of forced_of failures_of self.old self.new) }
        ensures room { vec_capacity self.old.bytes ≤ vec_capacity self.new.bytes }
        ensures err { IfErr result (λ e. (e ≡ StoreError.Device)
            × ForceBreaks text_of forced_of failures_of self.old self.new) }
        ensures file { OnOk result (ForcesFile F.writes F.syncs F.replaces self.old self.new) }
    {
        if self.stale {
            return self.force_anew();
        }
        if self.forced < self.bytes.len() {
            match self.write_block() {
                Some(end) => self.end = end,
                None => return Err(self.fail()),
            }
        }
        self.forced = self.bytes.len();
        Ok(())
    }

    /// The new bytes are written to a new file, in one block, and that file takes the place of the old one.
    fn replace(&mut self, new: &[u8]) -> Result<(), StoreError>
        ensures ok { OnOk result (Replaces text_of forced_of failures_of self.old self.new new.now) }
        ensures memory { IfErr result (λ e. e ≡ StoreError.Memory
            → MemoryRefuses text_of forced_of failures_of self.old self.new (vec_capacity self.old.bytes)
            (length new.now)) }
        ensures device { IfErr result (λ e. e ≡ StoreError.Device
            → ReplaceBreaks text_of forced_of failures_of self.old self.new new.now) }
        ensures file { OnOk result (Puts F.replaces self.old.file self.new new.now) }
    {
        let more = new.len().saturating_sub(self.bytes.len());
        if let Err(_) = self.bytes.reserve(more) {
            return Err(StoreError::Memory);
        }
        let Some((number, end)) = put(&mut self.file, self.number, new) else {
            return Err(self.fail());
        };
        self.number = number;
        self.end = end;
        self.forced = 0;
        self.bytes.clear();
        match self.bytes.extend_from_slice(new) {
            Ok(()) => {
                self.forced = self.bytes.len();
                self.stale = false;
                Ok(())
            }
            Err(_) => Err(StoreError::Memory),
        }
    }

    fn crash(&mut self, keep: usize) {
        self.bytes.truncate(self.forced.saturating_add(keep));
    }
}
