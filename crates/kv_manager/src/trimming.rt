//! A manager's trim.

ghost use Rattle.std.specs.Prelude.{◌≡◌, IfErr, IfOk, OnErr, OnOk, false, map};
ghost use Rattle.protocol_words.specs.kind;
ghost use Rattle.protocol.specs.Store.{base_records, data_of};
ghost use Rattle.log_text.specs.Made.{frame_record};
ghost use Rattle.log_records.specs.Sights.{AreRecords, NotRewritten, records_of};
ghost use Rattle.log_records.specs.Trimming.{StaysTrimmed, LogTrimmed, trim_of};
ghost use Rattle.protocol.specs.LogNames.{unnamed};
ghost use Rattle.kv_state.specs.Stores.{RebasesStore};
ghost use Rattle.kv_manager.specs.Resources.{sight_of, trim_error};
ghost use Rattle.resource_manager.specs.Trimming.{ManagerNotTrimmed, ManagerTrims};

use crate::manager::KvManager;
use crate::remembered::FrontedLog;
use kv_state::base_frames;
use log_records::LogError;
use log_store::LogStore;
use log_text::Frame;
use resource_manager::TrimError;
use std::alloc::{AllocError, Global};

/// Why a manager's log was not trimmed, where it was not written.
fn trim_error(error: LogError) -> TrimError
    ensures { result ≡ trim_error error }
{
    match error {
        LogError::Memory => TrimError::Memory,
        LogError::Device => TrimError::Device,
    }
}

/// Trims a manager's log again that a trim leaves as it is: it is put in its own place, and not read.
fn trim_again<L: LogStore>(
    alloc: Global,
    log: &mut FrontedLog<L>,
    count: usize,
) -> Result<(), LogError>
    requires works { log.old.sight.failed ≡ false }
    requires managers { log.old.sight.form.kind ≡ kind.Manager }
    requires settled { StaysTrimmed log.old count }
    ensures form { log.new.sight.form ≡ log.old.sight.form }
    ensures ok { OnOk result (LogTrimmed log.old log.new
        (map unnamed (base_records (data_of (records_of log.old.sight.kept)))) count) }
    ensures err { IfErr result (λ e. NotRewritten log.old log.new
        (trim_of log.old (map unnamed (base_records (data_of (records_of log.old.sight.kept))))) e) }
{
    log.put_again(alloc)
}

impl<L: LogStore> KvManager<L> {
    /// The frames of the data that the log's records make, keys rising. They are the key store's own: the log
    /// is not read.
    fn data_frames(&self) -> Result<Vec<Frame>, AllocError>
        requires { self.now.log.sight.failed ≡ false }
        ensures frames { IfOk result (λ frames. map frame_record frames.items
            ≡ map unnamed (base_records (data_of (records_of self.now.log.sight.kept)))) }
        ensures sound { IfOk result (λ frames. AreRecords kind.Manager (map frame_record frames.items)) }
    {
        self.records_are_sound();
        let pairs = self.store.pairs()?;
        base_frames(self.alloc, self.store.count(), &pairs)
    }

    /// Trims its log, and nothing else moves. Gives how many records remain. A log that its last trim left as
    /// it was is put in its own place, and neither it nor the data are read. The errors are those of `trim`.
    fn trim_log(&mut self) -> Result<usize, TrimError>
        ensures ok { IfOk result (ManagerTrims (sight_of self.old) (sight_of self.new)) }
        ensures err { IfErr result (ManagerNotTrimmed (sight_of self.old) (sight_of self.new)) }
        ensures store { self.new.store ≡ self.old.store }
    {
        if self.failed() {
            return Err(TrimError::Failed);
        }
        self.records_are_sound();
        if let Some(count) = self.log.trimmed() {
            return match trim_again(self.alloc, &mut self.log, count) {
                Ok(()) => Ok(count),
                Err(error) => Err(trim_error(error)),
            };
        }
        let frames = self.data_frames()?;
        match self.log.trim(self.alloc, &frames) {
            Ok(count) => Ok(count),
            Err(error) => Err(trim_error(error)),
        }
    }

    /// Forgets what the data were before the last commit, as a restart over the trimmed log does.
    fn rebase(&mut self)
        requires { self.old.log.sight.failed ≡ false }
        ensures store { RebasesStore self.old.store self.new.store }
        ensures log { self.new.log ≡ self.old.log }
        ensures boot { self.new.boot ≡ self.old.boot }
    {
        self.store.rebase();
    }

    /// Trims its log: the last Opened and the records of the branches that are not forgotten stay, and after
    /// them the data, keys rising, forced by one write. Gives how many records remain. What the data were
    /// before the last commit is forgotten. Its own records are never refused. A log that its last trim left
    /// as it was is put in its own place, and not read. Failed, Memory: nothing changed. Device: the log
    /// stands as it was or trimmed, and the manager has failed until a restart.
    pub fn trim(&mut self) -> Result<usize, TrimError>
        ensures ok { IfOk result (ManagerTrims (sight_of self.old) (sight_of self.new)) }
        ensures data { OnOk result (RebasesStore self.old.store self.new.store) }
        ensures err { IfErr result (ManagerNotTrimmed (sight_of self.old) (sight_of self.new)) }
        ensures store { OnErr result (self.new.store ≡ self.old.store) }
    {
        let count = self.trim_log()?;
        self.rebase();
        Ok(count)
    }
}
