//! A key store with a log, as an XA manager.

ghost use Rattle.log_text.specs.Forms.{log_form};
ghost use Rattle.protocol_words.specs.Types.{AnyRecord};
ghost use Rattle.std.specs.Prelude.{◌≡◌, ◌<◌, ◌+◌, ◌++◌, [], length, false, true, List, IfOk, IfErr, OnOk, OnErr, Err, Some, None};
ghost use Rattle.key_lists.specs.declared.holders.Mode.TheVariants as mode;
ghost use Rattle.kv_state.specs.Stores.{MovesTables, state_of};
ghost use Rattle.kv_state.specs.Works.{ReadsKey, WritesKey, KeyStoreWorksIdle, work_refusal};
ghost use Rattle.kv_state.specs.Ends.{known_of};
ghost use Rattle.xa_branch.specs.Branches.{AreBranchesListedOnce};
ghost use Rattle.xa_branch.specs.Decisions.{decision_at};
ghost use Rattle.xa_assoc.specs.Answers.{AnswersCall, BeginsIdle, Closes, OpensManager, Recovers, Wanted, map_ok};
ghost use Rattle.xa_assoc.specs.Associations.{IsAssocList};
ghost use Rattle.xa_assoc.specs.Ready.{is_work_verb, leaves};
ghost use Rattle.xa_tables.specs.Calls.{legal};
ghost use Rattle.kv_manager.specs.Resources.{sight_of};
ghost use Rattle.kv_manager.specs.Sights.{SameKv, are_ordered};
ghost use Rattle.resource_manager.specs.Opening.{IsNewManager};
ghost use Rattle.std.specs.List.{AllByRecursion};
ghost use Rattle.log_rules.specs.sound.Sound.{IsSound};
ghost use Rattle.log_records.specs.Sights.{IsLogFront, ReadsAs, left_by, log_state, records_of, whole_within};
ghost use Rattle.protocol_words.specs.kind;
ghost use Rattle.kv_manager.specs.Restarts.{IsReady, LeavesNone, NotReady, KvNotRestarted, NotRestored, Restarted, RestoredFrom, StartsOver};
ghost use Rattle.kv_state.specs.Remembered.{RemembersData};
ghost use Rattle.kv_manager.specs.Turns.{KvCalls, RefusesWork};

use crate::remembered::FrontedLog;
use crate::restart::{Ready, RecordsError, made_ready, started};
use kv_state::{KeyStore, RememberedData};
use log_records::{LogOpenError, RecLog};
use log_store::{LogStore, MemoryStore};
use protocol::{Bytes, Kind, LogRecord, Op, ProcessId};
use resource_manager::RestartError;
use std::alloc::{AllocError, Global};
use std::marker::Model;
use std::mem;
use thiserror::Error;
use xa_assoc::WorkError;
use xa_branch::Decision;
use xa_codes::{Code, Flags};
use xa_tables::{BranchState, Verb};
use xa_xid::Xid;

/// Why no manager is restored from a store.
#[derive(Clone, Copy, Debug, PartialEq, Eq, Error)]
pub enum RestoreError {
    /// The bytes are no log, or it could not be opened.
    #[error("the log does not open: {0}")]
    Log(LogOpenError),
    /// The log's records leave no manager, or the record of the boot could not be written.
    #[error("the log leaves no manager: {0}")]
    Records(RecordsError),
}

/// A key store with a log, as an XA manager.
pub struct KvManager<L: LogStore> {
    pub(crate) alloc: Global,
    pub(crate) log: FrontedLog<L>,
    boot: u64,
    pub(crate) store: KeyStore,
}

// For the proof: what is let go by hand is proved here alone, and not again by each crate above.
impl<L: LogStore + Drop> Drop for KvManager<L> {
    fn drop(self) {
        let KvManager {
            alloc: _,
            log: _,
            boot: _,
            store: _,
        } = self;
    }
}

impl<L: LogStore> Model for KvManager<L> {
    ghost use Rattle.kv_manager.specs.Sights.{IsKvManager, KvSight};

    ghost Value = { KvSight };

    ghost view = { λ m. record { store = m.store; log = m.log; boot = m.boot } };

    ghost invariant = { λ m. IsKvManager (record { store = m.store; log = m.log; boot = m.boot }) };
}

impl<L: LogStore> KvManager<L> {
    /// How often the manager opened.
    pub fn boot(&self) -> u64
        ensures { result ≡ self.now.boot }
    {
        self.boot
    }

    /// The bytes of its log, as a list made again. After a failure of the device a torn frame may be at
    /// the end.
    pub fn log_text(&self) -> Result<Vec<u8>, AllocError>
        ensures { IfOk result (λ text. ReadsAs self.now.log.sight.form text.items
            (records_of self.now.log.sight.kept) self.now.log.sight.failed) }
    {
        self.log.log().text(self.alloc)
    }

    /// How many bytes its log has. A crash that keeps N after the forced front keeps every record.
    pub fn log_size(&self) -> usize
        ensures { left_by self.now.log.sight result ≡ records_of self.now.log.sight.kept }
    {
        self.log.log().size()
    }

    /// How many of the records after the forced ones a crash would leave that keeps N bytes after
    /// the forced front.
    pub fn unforced_left(&self, keep: usize) -> Result<usize, AllocError>
        ensures { IfOk result (λ count. count
            ≡ length (whole_within (self.now.log.sight.behind + keep) self.now.log.sight.kept.unforced)) }
    {
        self.log.log().unforced_left(self.alloc, keep)
    }

    /// Each record of its log can be in a manager's log.
    pub fn records_are_sound(&self)
        ensures { AllByRecursion (IsSound kind.Manager) (records_of self.now.log.sight.kept) }
    {
        self.log.log().records_are_sound();
    }

    /// Each branch that it knows is listed once, and none that is in S0.
    pub fn branches_are_listed_once(&self)
        ensures { AreBranchesListedOnce self.now.store.tables.branches.branches }
    {
        self.store.branches_are_listed_once();
    }

    /// Each thread that holds associations is listed once, and a branch as suspended for migration only if it
    /// is.
    pub fn associations_are_listed_once(&self)
        ensures { IsAssocList self.now.store.tables.associations }
    {
        self.store.associations_are_listed_once();
    }

    /// The records of its log may follow one another, also where its device has failed.
    pub fn records_are_in_order(&self)
        ensures { are_ordered (records_of self.now.log.sight.kept) ≡ true }
    {
        let _ = &self.alloc;
    }

    /// The records of its log, as a list made again.
    pub fn records(&self) -> Result<Vec<LogRecord>, AllocError>
        ensures { IfOk result (λ records. records.items ≡ records_of self.now.log.sight.kept) }
    {
        self.log.log().records(self.alloc)
    }

    /// The store under its log, to be read.
    pub fn store(&self) -> &L
        ensures { (log_state self.now.log.sight.form (L.bytes result.now) (L.forced result.now)
            (L.failures result.now)
            (L.room result.now) self.now.log.sight.failed).sight ≡ self.now.log.sight }
    {
        self.log.log().store()
    }

    /// The records that a crash would leave which keeps N bytes after the forced front, as a list
    /// made again.
    pub fn left(&self, keep: usize) -> Result<Vec<LogRecord>, AllocError>
        ensures { IfOk result (λ records. records.items ≡ left_by self.now.log.sight keep) }
    {
        self.log.log().kept(self.alloc, keep)
    }

    /// Of the records that a crash would leave that keeps N bytes after the forced front, those after the
    /// first ones, if the header and the first ones, all of them forced, are `size` bytes.
    pub fn kept_after(&self, size: usize, keep: usize) -> Result<Vec<LogRecord>, AllocError>
        ensures { IfOk result (λ records. (first : List AnyRecord) → IsLogFront self.now.log.sight size first
            → first ++ records.items ≡ left_by self.now.log.sight keep) }
    {
        self.log.log().kept_after(self.alloc, size, keep)
    }

    /// Whether its device has failed: it answers nothing until a restart.
    pub fn failed(&self) -> bool
        ensures { result ≡ self.now.log.sight.failed }
    {
        self.log.log().failed()
    }

    /// The state of a branch: S0 where it is not known.
    pub fn state(&self, xid: &Xid) -> BranchState
        ensures { result ≡ state_of self.now.store xid.now }
    {
        self.store.state(xid)
    }

    /// What an operator decided of a branch, and what it was told since; None if no operator decided it,
    /// and after forget.
    pub fn decision(&self, xid: &Xid) -> Option<Decision>
        ensures { result ≡ decision_at (state_of self.now.store xid.now) (known_of self.now.store xid.now) }
    {
        self.store.decision(xid)
    }

    /// Reads a key for a thread's branch, which holds it from then on, at least shared. RmFail,
    /// NotAssociated, RollbackOnly, TooLong, Locked, in this order. A refusal changes nothing.
    pub fn get(&mut self, thread: u32, key: &[u8]) -> Result<Option<Bytes>, WorkError>
        ensures ok { IfOk result (λ found. KvCalls self.old self.new ⊥
            (λ before behind. ReadsKey before behind thread key.now found)) }
        ensures err { IfErr result (λ e. RefusesWork self.old self.new
            (work_refusal self.old.store thread key.now None mode.Shared) e) }
    {
        if self.failed() {
            return Err(WorkError::RmFail);
        }
        self.store.get(thread, key)
    }

    /// Opens the manager, which migrates associations or not. RmFail: it has failed. Inval, Async: the flags.
    /// A refusal changes nothing.
    pub fn open(&mut self, flags: Flags, migrates: bool) -> Code
        ensures { KvCalls self.old self.new (result ≡ Code.RmFail)
            (λ before behind. MovesTables before behind
            (λ old new. OpensManager old new flags.0 migrates result)) }
    {
        if self.failed() {
            return Code::RmFail;
        }
        self.store.open(flags, migrates)
    }

    /// Writes a value at a key for a thread's branch. RmFail, NotAssociated, RollbackOnly, TooLong, Locked,
    /// TooManyWrites, in this order. A refusal changes nothing.
    pub fn put(&mut self, thread: u32, key: &[u8], value: &[u8]) -> Result<(), WorkError>
        ensures ok { OnOk result (KvCalls self.old self.new ⊥
            (λ before behind. WritesKey before behind thread key.now (Some value.now))) }
        ensures err { IfErr result (λ e. RefusesWork self.old self.new
            (work_refusal self.old.store thread key.now (Some value.now) mode.Exclusive) e) }
    {
        if self.failed() {
            return Err(WorkError::RmFail);
        }
        self.store.put(thread, key, value)
    }

    /// Deletes a key for a thread's branch, with the refusals of `put`.
    pub fn delete(&mut self, thread: u32, key: &[u8]) -> Result<(), WorkError>
        ensures ok { OnOk result (KvCalls self.old self.new ⊥
            (λ before behind. WritesKey before behind thread key.now None)) }
        ensures err { IfErr result (λ e. RefusesWork self.old self.new
            (work_refusal self.old.store thread key.now None mode.Exclusive) e) }
    {
        if self.failed() {
            return Err(WorkError::RmFail);
        }
        self.store.delete(thread, key)
    }

    /// Closes the manager; one that is not open stays so. RmFail: it has failed. Inval, Async: the flags.
    /// Proto: there is an association. A refusal changes nothing.
    pub fn close(&mut self, flags: Flags) -> Code
        ensures { KvCalls self.old self.new (result ≡ Code.RmFail)
            (λ before behind. MovesTables before behind (λ old new. Closes old new flags.0 result)) }
    {
        if self.failed() {
            return Code::RmFail;
        }
        self.store.close(flags)
    }

    /// A start or an end of a thread's work in a branch.
    fn work_call(
        &mut self,
        verb: Verb,
        thread: u32,
        xid: &Xid,
        flags: Flags,
    ) -> Result<Code, AllocError>
        requires { is_work_verb verb ≡ true }
        ensures answer { IfOk result (λ answer. (wanted : Wanted)
            → KvCalls self.old self.new (answer ≡ Code.RmFail)
            (λ before behind. MovesTables before behind
            (λ old new. AnswersCall wanted old new verb thread xid.now flags.0 answer))) }
        ensures err { OnErr result ((leaves (legal verb flags.0) ≡ false) × SameKv self.old self.new) }
    {
        if self.failed() {
            return Ok(Code::RmFail);
        }
        self.store.work_call(verb, thread, xid, flags)
    }

    /// A scan of the branches in doubt: the next of them, at most N. RmFail: the manager has failed. Inval:
    /// the flags. Proto: it is not open. Inval: no scan is open and none begins. RmErr: one begins, and 256
    /// threads have one. A refusal changes nothing, nor does want of memory.
    pub fn recover(
        &mut self,
        thread: u32,
        count: u32,
        flags: Flags,
    ) -> Result<Result<Vec<Xid>, Code>, AllocError>
        ensures answer { IfOk result (λ answer. KvCalls self.old self.new (map_ok answer ≡ Err Code.RmFail)
            (λ before behind. MovesTables before behind
            (λ old new. Recovers old new thread count flags.0 (map_ok answer)))) }
        ensures err { OnErr result (SameKv self.old self.new) }
    {
        if self.failed() {
            return Ok(Err(Code::RmFail));
        }
        self.store.recover(thread, count, flags)
    }

    /// A thread begins work in a branch, joins it, or takes it up again. RmFail: the manager has failed. The
    /// other codes are those of `States::work_call`: Inval, Async, Proto, DupId, NotA, RmErr, which change
    /// nothing, and RbRollback, after which a resumed association is gone.
    pub fn start(&mut self, thread: u32, xid: &Xid, flags: Flags) -> Result<Code, AllocError>
        ensures answer { IfOk result (λ answer. (wanted : Wanted)
            → KvCalls self.old self.new (answer ≡ Code.RmFail)
            (λ before behind. MovesTables before behind
            (λ old new. AnswersCall wanted old new Verb.Start thread xid.now flags.0 answer))) }
        ensures err { OnErr result (SameKv self.old self.new) }
    {
        self.work_call(Verb::Start, thread, xid, flags)
    }

    /// A thread ends its work in a branch, or suspends it. RmFail: the manager has failed. The other codes
    /// are those of `States::work_call`: Inval, Async, Proto, NotA, RmErr, which change nothing, NoMigrate,
    /// and RbRollback, after which the association is gone. With TMSUCCESS and with TMFAIL it takes no
    /// memory.
    pub fn end(&mut self, thread: u32, xid: &Xid, flags: Flags) -> Result<Code, AllocError>
        ensures answer { IfOk result (λ answer. (wanted : Wanted)
            → KvCalls self.old self.new (answer ≡ Code.RmFail)
            (λ before behind. MovesTables before behind
            (λ old new. AnswersCall wanted old new Verb.End thread xid.now flags.0 answer))) }
        ensures err { OnErr result ((leaves (legal Verb.End flags.0) ≡ false)
            × SameKv self.old self.new) }
    {
        self.work_call(Verb::End, thread, xid, flags)
    }

    /// A new branch begins that no thread is in. False: it is known, or 1,024 are; nothing changed, nor does
    /// want of memory.
    pub(crate) fn begin_idle(&mut self, xid: &Xid) -> Result<bool, AllocError>
        requires up { self.old.log.sight.failed ≡ false }
        ensures begun { IfOk result (λ begun. KvCalls self.old self.new ⊥
            (λ before behind. MovesTables before behind
            (λ old new. BeginsIdle old new xid.now begun))) }
        ensures err { OnErr result (SameKv self.old self.new) }
    {
        self.store.begin_idle(xid)
    }

    /// An idle branch does an operation, and no thread is in it. False: it was refused, and the branch can
    /// only be rolled back. Memory: nothing changed.
    pub(crate) fn work_idle(&mut self, xid: &Xid, op: &Op) -> Result<bool, AllocError>
        requires up { self.old.log.sight.failed ≡ false }
        requires state { state_of self.old.store xid.now ≡ BranchState.S2 }
        ensures ok { IfOk result (λ done. KvCalls self.old self.new ⊥
            (λ before behind. KeyStoreWorksIdle before behind xid.now op.now done)) }
        ensures err { OnErr result (SameKv self.old self.new) }
    {
        self.store.work_idle(xid, op)
    }

    /// What the manager restarts as after a crash that keeps N of the log's unforced bytes, and what it is to
    /// remember of what is left; what it remembered is gone. Memory. Exhausted: no boot comes after the last
    /// one.
    fn ready(&mut self, keep: usize) -> Result<(Ready, RememberedData), RestartError>
        ensures stays { self.new ≡ self.old }
        ensures ok { IfOk result (λ r. IsReady (left_by self.old.log.sight keep) r.0) }
        ensures remembered { IfOk result (λ r. RemembersData (left_by self.old.log.sight keep) r.1) }
        ensures err { IfErr result (NotReady (left_by self.old.log.sight keep)) }
    {
        self.records_are_sound();
        match made_ready(self.alloc, &mut self.log, keep) {
            Ok(ready) => Ok(ready),
            Err(RecordsError::Memory) => Err(RestartError::Memory),
            Err(RecordsError::Exhausted) => Err(RestartError::Exhausted),
            Err(RecordsError::Device) => unreachable!(),
            Err(RecordsError::Unfit) => unreachable!(),
        }
    }

    /// What was made ready takes the manager's place, after the log's restart. What stood before is left in
    /// its stead.
    fn reopen(
        &mut self,
        keep: usize,
        ready: &mut Ready,
        remembered: RememberedData,
    ) -> Result<(), RestartError>
        requires ready { IsReady (left_by self.old.log.sight keep) ready.old }
        requires says { RemembersData (left_by self.old.log.sight keep) remembered }
        ensures ok { OnOk result (Restarted self.old self.new keep ready.old.in_doubt.items) }
        ensures listed { ready.new.in_doubt.items ≡ ready.old.in_doubt.items }
        ensures err { IfErr result (KvNotRestarted self.old self.new keep) }
    {
        self.log
            .restart(self.alloc, keep, &ready.opened, remembered)?;
        mem::swap(&mut self.store, &mut ready.store);
        self.boot = ready.boot;
        Ok(())
    }

    /// Restarts the manager after a crash that keeps N of the log's unforced bytes: it stands as the records
    /// that are left say, not open, and gives the branches in doubt, in the order of their promises. Its own
    /// records are never refused. The records are gone through that came after its last restart, or all of
    /// them after a trim. Memory: nothing changed. Exhausted: no boot below 2^63 comes after the last one;
    /// nothing changed. Device: the manager has failed until it is restarted.
    pub fn restart(&mut self, keep: usize) -> Result<Vec<Xid>, RestartError>
        ensures ok { IfOk result (λ given. Restarted self.old self.new keep given.items) }
        ensures err { IfErr result (KvNotRestarted self.old self.new keep) }
    {
        let (mut ready, remembered) = self.ready(keep)?;
        let reopened = self.reopen(keep, &mut ready, remembered);
        let in_doubt = ready.into_in_doubt();
        match reopened {
            Ok(()) => Ok(in_doubt),
            Err(error) => Err(error),
        }
    }

    /// A manager over a log that was opened. Device: its record of the boot could not be written. With an
    /// error the log is handed back.
    fn over(alloc: Global, mut log: RecLog<L>) -> Result<Self, (RecordsError, RecLog<L>)>
        requires works { log.sight.failed ≡ false }
        requires kind { log.sight.form.kind ≡ kind.Manager }
        ensures ok { IfOk result (StartsOver log) }
        ensures err { IfErr result (λ e. LeavesNone log e.1 e.0 × (e.1.sight.form ≡ log.sight.form)) }
    {
        match started(alloc, &mut log) {
            Ok((store, boot)) => Ok(KvManager {
                alloc,
                log: FrontedLog::new(alloc, log),
                boot,
                store,
            }),
            Err(error) => Err((error, log)),
        }
    }
}

impl<L: LogStore + Drop> KvManager<L> {
    /// A manager of this process over an empty store, which is not open: its log has the record of its first
    /// boot. The errors are those of `restore`.
    pub fn create(alloc: Global, store: L, process: ProcessId) -> Result<Self, (RestoreError, L)>
        requires { L.bytes store ≡ [] }
        ensures ok { IfOk result (λ manager. IsNewManager (sight_of manager)) }
        ensures form { IfOk result (λ manager. manager.log.sight.form ≡ log_form process kind.Manager) }
        ensures failures { IfOk result (λ manager. manager.log.sight.failures ≡ L.failures store) }
        ensures err { IfErr result (λ e. NotRestored L.bytes L.forced L.failures process store e.1 e.0) }
    {
        KvManager::restore(alloc, store, process)
    }

    /// The store under its log, as it is.
    pub fn into_store(self) -> L
        ensures { (log_state self.log.sight.form (L.bytes result) (L.forced result) (L.failures result)
            (L.room result) self.log.sight.failed).sight ≡ self.log.sight }
    {
        let KvManager {
            alloc: _,
            log,
            boot: _,
            store: _,
        } = self;
        log.into_log().into_store()
    }

    /// The manager of this process over the log in a store, which is not open: it stands as the log's records
    /// say, and the record of its boot is written after them. With a refusal the store is handed back. Log:
    /// the bytes are no log, or it was not opened. Records: the log's records leave no manager, and the log
    /// is as it was opened; or the record could not be written.
    pub fn restore(alloc: Global, store: L, process: ProcessId) -> Result<Self, (RestoreError, L)>
        ensures ok { IfOk result (RestoredFrom process (L.bytes store) (L.forced store) (L.failures store)) }
        ensures err { IfErr result (λ e. NotRestored L.bytes L.forced L.failures process store e.1 e.0) }
    {
        let log = match RecLog::open(alloc, store, process, Kind::Manager) {
            Ok(log) => log,
            Err((error, store)) => return Err((RestoreError::Log(error), store)),
        };
        match KvManager::over(alloc, log) {
            Ok(manager) => Ok(manager),
            Err((error, log)) => Err((RestoreError::Records(error), log.into_store())),
        }
    }
}

impl KvManager<MemoryStore> {
    /// A store in memory does not fail.
    pub fn never_failed(&self)
        ensures { (sight_of self.now).log.failures ≡ 0 }
    {
        self.log.log().never_failed()
    }
}
