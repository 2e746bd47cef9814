//! A manager's log, and what its last restart remembers of it: the next one reads on from there.

ghost use Rattle.std.specs.Prelude.{◌≡◌, ◌≤◌, ◌∷◌, [], IfErr, IfOk, IfSome, OnOk, false, map};
ghost use Rattle.log_text.specs.Made.{frame_record};
ghost use Rattle.log_text.specs.Payloads.{record_size};
ghost use Rattle.log_writing.specs.Writes.{WritesRecord};
ghost use Rattle.log_records.specs.Sights.{AreRecords, Breaks, IsRecord, NotRewritten, LogRestarts, Rewritten, left_by, records_of};
ghost use Rattle.log_records.specs.Trimming.{StaysTrimmed, LogTrimmed, own_data, trim_of};
ghost use Rattle.kv_state.specs.Remembered.{LeavesNow, RemembersData};
ghost use Rattle.kv_state.specs.Replays.{ReplayFails};
ghost use Rattle.kv_manager.specs.Restarts.{FailsToRestart};

use kv_state::{RememberedData, ReplayError, Replayed};
use log_records::{LogError, RecLog};
use log_store::LogStore;
use log_text::{Frame, HEADER_SIZE};
use log_writing::write;
use resource_manager::RestartError;
use std::alloc::{AllocError, Global};
use std::marker::Model;
use std::{mem, slice};

/// The front of a log as a restart remembers it: how many bytes it has, and what its records say.
#[derive(Drop)]
pub(crate) struct Front {
    pub(crate) size: usize,
    pub(crate) remembered: RememberedData,
}

impl Front {
    /// The header alone. It takes no memory.
    fn header(alloc: Global) -> Front
        ensures size { result.size ≡ 5 }
        ensures says { RemembersData [] result.remembered }
    {
        Front {
            size: HEADER_SIZE,
            remembered: RememberedData::nothing(alloc),
        }
    }
}

/// A log, and its front as the last restart remembers it: the header alone after a trim, and after a restart
/// that had no memory.
#[derive(Drop)]
pub(crate) struct FrontedLog<L: LogStore> {
    log: RecLog<L>,
    front: Front,
}

impl<L: LogStore> Model for FrontedLog<L> {
    ghost use Rattle.log_records.specs.Sights.{LogState};
    ghost use Rattle.kv_manager.specs.Remembered.{IsFrontOf};

    ghost Value = { LogState };

    ghost view = { λ l. l.log };

    ghost invariant = { λ l. IsFrontOf l.log l.front };
}

impl<L: LogStore> FrontedLog<L> {
    /// A log of which nothing is remembered.
    pub(crate) fn new(alloc: Global, log: RecLog<L>) -> FrontedLog<L>
        ensures { result ≡ log }
    {
        FrontedLog {
            log,
            front: Front::header(alloc),
        }
    }

    /// The log.
    pub(crate) fn log(&self) -> &RecLog<L>
        ensures { result.now ≡ self.now }
    {
        &self.log
    }

    /// The log; what was remembered of it is gone.
    pub(crate) fn into_log(self) -> RecLog<L>
        ensures { result ≡ self }
    {
        let FrontedLog { log, .. } = self;
        log
    }

    /// Makes room for N bytes of frames. A refusal changes nothing.
    pub(crate) fn reserve(&mut self, more: usize) -> Result<(), AllocError>
        ensures stays { self.new.sight ≡ self.old.sight }
        ensures room { OnOk result (more ≤ self.new.room) }
    {
        self.log.reserve(more)
    }

    /// What the records leave that a crash leaves which keeps N bytes after the forced front, and what is to
    /// be remembered of them. It reads on from the front that is remembered, which is forgotten. The errors
    /// are those of `kv_core::replay`.
    pub(crate) fn read(
        &mut self,
        alloc: Global,
        keep: usize,
    ) -> Result<(Replayed, RememberedData), ReplayError>
        ensures stays { self.new ≡ self.old }
        ensures leaves { IfOk result (λ r. LeavesNow (left_by self.old.sight keep) r.0) }
        ensures remembered { IfOk result (λ r. RemembersData (left_by self.old.sight keep) r.1) }
        ensures err { IfErr result (ReplayFails (left_by self.old.sight keep)) }
    {
        let Front { size, remembered } = mem::replace(&mut self.front, Front::header(alloc));
        let records = self.log.kept_after(alloc, size, keep)?;
        remembered.read_on(alloc, records)
    }

    /// Trims the log, with these records of the data: nothing is remembered of what it was.
    pub(crate) fn trim(&mut self, alloc: Global, behind: &[Frame]) -> Result<usize, LogError>
        requires works { self.old.sight.failed ≡ false }
        requires sound { AreRecords self.old.sight.form.kind (map frame_record behind.now) }
        requires own { map frame_record behind.now ≡ own_data self.old.sight }
        ensures form { self.new.sight.form ≡ self.old.sight.form }
        ensures ok { IfOk result (λ count. LogTrimmed self.old self.new (map frame_record behind.now) count) }
        ensures err { IfErr result (λ e. NotRewritten self.old self.new
            (trim_of self.old (map frame_record behind.now)) e) }
    {
        self.front = Front::header(alloc);
        self.log.trim(alloc, behind)
    }

    /// How many records stand, if a trim would leave the log as it is.
    pub(crate) fn trimmed(&self) -> Option<usize>
        ensures { IfSome result (λ count. StaysTrimmed self.now count) }
    {
        self.log.trimmed()
    }

    /// Puts all that is in its own place, by one `replace`, and reads nothing. It stays remembered.
    pub(crate) fn put_again(&mut self, alloc: Global) -> Result<(), LogError>
        requires works { self.old.sight.failed ≡ false }
        ensures form { self.new.sight.form ≡ self.old.sight.form }
        ensures ok { OnOk result (Rewritten self.old self.new (records_of self.old.sight.kept)) }
        ensures err { IfErr result (λ e. NotRewritten self.old self.new (records_of self.old.sight.kept) e) }
    {
        self.log.put_again(alloc)
    }

    /// Writes a record, and forces the log if the record is to be forced. Room for the frame was made before,
    /// so it cannot fail for memory. Device: the record stands or not, it may be forced, and the log has
    /// failed.
    pub(crate) fn write(&mut self, frame: &Frame, forced: bool) -> Result<(), LogError>
        requires room { record_size (frame_record frame.now) ≤ self.old.room }
        requires works { self.old.sight.failed ≡ false }
        requires sound { IsRecord self.old.sight.form.kind (frame_record frame.now) }
        ensures ok { OnOk result (WritesRecord self.old self.new (frame_record frame.now) forced) }
        ensures err { IfErr result (λ e. (e ≡ LogError.Device)
            × Breaks self.old self.new (frame_record frame.now ∷ [])) }
    {
        write(&mut self.log, frame, forced)
    }

    /// Restarts the log, with the record of a boot after what is left, of which this is remembered from then
    /// on.
    pub(crate) fn restart(
        &mut self,
        alloc: Global,
        keep: usize,
        opened: &Frame,
        remembered: RememberedData,
    ) -> Result<(), RestartError>
        requires sound { IsRecord self.old.sight.form.kind (frame_record opened.now) }
        requires says { RemembersData (left_by self.old.sight keep) remembered }
        ensures form { self.new.sight.form ≡ self.old.sight.form }
        ensures ok { OnOk result (LogRestarts self.old self.new keep (frame_record opened.now ∷ [])) }
        ensures err { IfErr result (λ e. FailsToRestart self.old self.new keep (frame_record opened.now) e) }
    {
        match self.log.restart(alloc, keep, slice::from_ref(opened)) {
            Ok(()) => {
                let all = self.log.size();
                let last = opened.size();
                let size = all - last;
                self.front = Front { size, remembered };
                Ok(())
            }
            Err(LogError::Memory) => Err(RestartError::Memory),
            Err(LogError::Device) => Err(RestartError::Device),
        }
    }
}
