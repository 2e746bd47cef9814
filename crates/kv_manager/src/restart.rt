//! What the records of a log leave of a manager.

ghost use Rattle.std.specs.Prelude.{◌≡◌, ◌<◌, ◌^◌, true, false, IfOk, IfErr, List, OnOk};
ghost use Rattle.protocol_words.specs.Types.{AnyRecord};
ghost use Rattle.xa_branch.specs.Branches.{in_doubt};
ghost use Rattle.xa_assoc.specs.declared.states.States.{States as AnyStates};
ghost use Rattle.xa_assoc.specs.Restored.{Restored};
ghost use Rattle.kv_state.specs.Remembered.{LeavesNow, RemembersData};
ghost use Rattle.kv_state.specs.Stores.{IsTidy, Rebuilt};
ghost use Rattle.protocol_words.specs.kind;
ghost use Rattle.log_text.specs.Made.{frame_record};
ghost use Rattle.log_writing.specs.Writes.{WritesRecord};
ghost use Rattle.log_records.specs.Sights.{IsRecord, left_by};
ghost use Rattle.kv_manager.specs.Restarts.{IsReady, LeavesNone, LeavesStore, NotBegun, KvNotRebuilt, NotStored, StartsOver, error_of, next_boot, opened, records_number};

use crate::remembered::FrontedLog;
use kv_state::{KeyStore, RememberedData, ReplayError, Replayed, replay};
use log_records::RecLog;
use log_store::LogStore;
use log_text::Frame;
use log_writing::write;
use protocol::{LAST_NUMBER, LogRecord, Record};
use std::alloc::{AllocError, Global};
use thiserror::Error;
use xa_xid::Xid;

/// Why no manager stands over the records of a log that was opened.
#[derive(Clone, Copy, Debug, PartialEq, Eq, Error)]
pub enum RecordsError {
    /// There was no memory; nothing changed.
    #[error("no memory")]
    Memory,
    /// The device failed under the record of the boot.
    #[error("the device failed")]
    Device,
    /// The records of the log are those of no key store: a record may not follow those before it, a branch
    /// promised more than can be written, or more than 1,024 branches are in doubt; nothing changed.
    #[error("the records are not those of a key store")]
    Unfit,
    /// The boots, or the commits, count 2^63; nothing changed.
    #[error("the numbers are used up")]
    Exhausted,
}

impl RecordsError {
    /// Its number: Memory 1, Device 2, Unfit 3, Exhausted 4.
    pub fn number(self) -> u8
        ensures { result ≡ records_number self }
    {
        match self {
            RecordsError::Memory => 1,
            RecordsError::Device => 2,
            RecordsError::Unfit => 3,
            RecordsError::Exhausted => 4,
        }
    }
}

impl From<AllocError> for RecordsError {
    ghost use Rattle.kv_manager.specs.declared.restart.RecordsError.TheVariants as error;

    ghost from_gives = { λ e r. r ≡ error.Memory };

    fn from(_error: AllocError) -> RecordsError {
        RecordsError::Memory
    }
}

/// Why records that did not replay leave no manager: malformed ones are unfit.
fn replay_error(error: ReplayError) -> RecordsError
    ensures { result ≡ error_of error }
{
    match error {
        ReplayError::Memory => RecordsError::Memory,
        ReplayError::Malformed => RecordsError::Unfit,
        ReplayError::Exhausted => RecordsError::Exhausted,
    }
}

/// The boot after the last one.
fn next_boot(last: Option<u64>) -> Option<u64>
    ensures { result ≡ next_boot last }
{
    match last {
        None => Some(1),
        Some(boot) if boot < LAST_NUMBER => Some(boot + 1),
        Some(_) => None,
    }
}

/// The key store of what replayed. Memory: there was none. Unfit: more branches are in doubt than it holds,
/// or one of them twice.
fn stored(alloc: Global, replayed: Replayed) -> Result<KeyStore, RecordsError>
    requires { (t : AnyStates) → Restored replayed.left.items t
        → IsTidy (record {
          tables = t;
          writes = replayed.writes;
          locks = replayed.locks;
          versions = replayed.data;
          decisions = replayed.decisions;
        }) }
    ensures ok { IfOk result (λ store. Rebuilt store replayed.left.items replayed.writes replayed.locks
        replayed.data replayed.decisions) }
    ensures err { IfErr result (NotStored replayed.left.items) }
{
    let Replayed {
        left,
        data,
        writes,
        locks,
        decisions,
        ..
    } = replayed;
    match KeyStore::restored(alloc, left.as_slice(), writes, locks, data, decisions) {
        Ok(Ok(store)) => Ok(store),
        Ok(Err(_)) => Err(RecordsError::Unfit),
        Err(_) => Err(RecordsError::Memory),
    }
}

/// The key store of what replayed, and the boot after the last one. Memory: there was none. Unfit: more
/// branches are in doubt than it holds, or one of them twice. Exhausted: no boot comes after the last one.
fn store_of(alloc: Global, replayed: Replayed) -> Result<(KeyStore, u64), RecordsError>
    requires { (ls : List AnyRecord) × LeavesNow ls replayed }
    ensures ok { IfOk result (λ made. (ls : List AnyRecord) → LeavesNow ls replayed
        → LeavesStore ls made.0 made.1) }
    ensures err { IfErr result (λ e. (ls : List AnyRecord) → LeavesNow ls replayed → KvNotRebuilt ls e) }
{
    let Some(boot) = next_boot(replayed.boot) else {
        drop(replayed);
        return Err(RecordsError::Exhausted);
    };
    match stored(alloc, replayed) {
        Ok(store) => Ok((store, boot)),
        Err(error) => Err(error),
    }
}

/// What the records of a log leave of a key store, and the boot after them. Memory: there was none. Unfit:
/// they are not the records of a key store. Exhausted: the boots or the commits count 2^63. With an error the
/// records are gone.
pub fn rebuilt(alloc: Global, records: Vec<LogRecord>) -> Result<(KeyStore, u64), RecordsError>
    ensures ok { IfOk result (λ made. LeavesStore records.items made.0 made.1) }
    ensures err { IfErr result (KvNotRebuilt records.items) }
{
    match replay(alloc, records) {
        Ok(replayed) => store_of(alloc, replayed),
        Err(error) => Err(replay_error(error)),
    }
}

/// The frame of the record of a boot.
fn opened(alloc: Global, boot: u64) -> Result<Frame, AllocError>
    requires { boot < 2 ^ 63 }
    ensures spells { IfOk result (λ frame. frame_record frame ≡ opened boot) }
    ensures sound { IfOk result (λ frame. IsRecord kind.Manager (frame_record frame)) }
{
    let record = LogRecord {
        entry: Record::Opened(boot),
        parent: None,
    };
    Frame::new(alloc, record)
}

/// What a manager restarts as. All that takes memory is made.
#[derive(Drop)]
pub(crate) struct Ready {
    pub(crate) store: KeyStore,
    pub(crate) boot: u64,
    pub(crate) in_doubt: Vec<Xid>,
    pub(crate) opened: Frame,
}

impl Ready {
    /// The branches in doubt.
    pub(crate) fn into_in_doubt(self) -> Vec<Xid>
        ensures { result ≡ self.in_doubt }
    {
        let Ready {
            store,
            in_doubt,
            opened,
            ..
        } = self;
        drop(store);
        drop(opened);
        in_doubt
    }
}

/// The branches in doubt of a store, and the frame of its boot.
fn announced(alloc: Global, store: &KeyStore, boot: u64) -> Result<(Vec<Xid>, Frame), AllocError>
    requires { boot < 2 ^ 63 }
    ensures listed { IfOk result (λ made. made.0.items ≡ in_doubt store.now.tables.branches.branches) }
    ensures spells { IfOk result (λ made. frame_record made.1 ≡ opened boot) }
    ensures sound { IfOk result (λ made. IsRecord kind.Manager (frame_record made.1)) }
{
    let opened = opened(alloc, boot)?;
    let in_doubt = store.in_doubt()?;
    Ok((in_doubt, opened))
}

/// What a manager restarts as by what replayed. The errors are those of `store_of`.
fn ready_for(alloc: Global, replayed: Replayed) -> Result<Ready, RecordsError>
    requires { (ls : List AnyRecord) × LeavesNow ls replayed }
    ensures ok { IfOk result (λ ready. (ls : List AnyRecord) → LeavesNow ls replayed → IsReady ls ready) }
    ensures err { IfErr result (λ e. (ls : List AnyRecord) → LeavesNow ls replayed → KvNotRebuilt ls e) }
{
    let (store, boot) = store_of(alloc, replayed)?;
    match announced(alloc, &store, boot) {
        Ok((in_doubt, opened)) => Ok(Ready {
            store,
            boot,
            in_doubt,
            opened,
        }),
        Err(_) => {
            drop(store);
            Err(RecordsError::Memory)
        }
    }
}

/// What a manager restarts as after a crash that keeps N bytes of its log after the forced front, and what it
/// is to remember of what is left; what it remembered is gone. The errors are those of `rebuilt`.
pub(crate) fn made_ready<L: LogStore>(
    alloc: Global,
    log: &mut FrontedLog<L>,
    keep: usize,
) -> Result<(Ready, RememberedData), RecordsError>
    ensures stays { log.new ≡ log.old }
    ensures ok { IfOk result (λ r. IsReady (left_by log.old.sight keep) r.0) }
    ensures remembered { IfOk result (λ r. RemembersData (left_by log.old.sight keep) r.1) }
    ensures err { IfErr result (KvNotRebuilt (left_by log.old.sight keep)) }
{
    match log.read(alloc, keep) {
        Ok((replayed, remembered)) => match ready_for(alloc, replayed) {
            Ok(ready) => Ok((ready, remembered)),
            Err(error) => {
                drop(remembered);
                Err(error)
            }
        },
        Err(error) => Err(replay_error(error)),
    }
}

/// Writes the record of a boot, forced. Memory: nothing changed. Device: the device failed under it.
fn write_boot<L: LogStore>(
    alloc: Global,
    log: &mut RecLog<L>,
    boot: u64,
) -> Result<(), RecordsError>
    requires fits { boot < 2 ^ 63 }
    requires works { log.old.sight.failed ≡ false }
    requires kind { log.old.sight.form.kind ≡ kind.Manager }
    ensures ok { OnOk result (WritesRecord log.old log.new (opened boot) true) }
    ensures err { IfErr result (NotBegun log.old log.new boot) }
    ensures form { log.new.sight.form ≡ log.old.sight.form }
{
    let opened = opened(alloc, boot)?;
    log.reserve(opened.size())?;
    match write(log, &opened, true) {
        Ok(()) => Ok(()),
        Err(_) => Err(RecordsError::Device),
    }
}

/// What a manager over a log that was opened starts as; the record of its boot is in the log, forced.
/// Device: the record could not be written. The other errors are those of `rebuilt`.
pub(crate) fn started<L: LogStore>(
    alloc: Global,
    log: &mut RecLog<L>,
) -> Result<(KeyStore, u64), RecordsError>
    requires works { log.old.sight.failed ≡ false }
    requires kind { log.old.sight.form.kind ≡ kind.Manager }
    ensures ok { IfOk result (λ made. StartsOver log.old
        (record { store = made.0; log = log.new; boot = made.1 })) }
    ensures err { IfErr result (LeavesNone log.old log.new) }
    ensures form { log.new.sight.form ≡ log.old.sight.form }
{
    let records = log.records(alloc)?;
    let (store, boot) = rebuilt(alloc, records)?;
    match write_boot(alloc, log, boot) {
        Ok(()) => Ok((store, boot)),
        Err(error) => {
            drop(store);
            Err(error)
        }
    }
}
