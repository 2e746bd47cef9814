//! A log whose device fails once: what stands then, and that a restart goes on. And a log that is written
//! again.

ghost use Rattle.std.specs.Prelude.{◌≡◌, IfOk};
ghost use Rattle.protocol.specs.declared.names.Kind.TheVariants.{Coordinator};

use crate::damage::COMMITTED;
use log_records::{LogError, LogOpenError, RecLog};
use log_store::{FaultStore, LogStore, MemoryStore, StoreCall};
use log_writing::coordinator_frame;
use protocol::{Kind, ProcessId, Record};
use std::alloc::Global;
use std::test::Fail;

/// A store with the log of a commit, which fails at its first call of this kind.
fn failing(alloc: Global, torn: &[u8], call: StoreCall) -> Result<FaultStore, Fail> {
    let mut text = Vec::from_slice(alloc, &COMMITTED)?;
    text.extend_from_slice(torn)?;
    Ok(FaultStore::new(MemoryStore::from_bytes(text), call, 1, 0))
}

/// The log in a store, which has not failed.
fn opened<L: LogStore + Drop>(alloc: Global, store: L) -> Result<RecLog<L>, Fail>
    ensures { IfOk result (λ log. log.sight.form.kind ≡ Coordinator) }
{
    match RecLog::open(alloc, store, ProcessId(1), Kind::Coordinator) {
        Ok(log) => Ok(log),
        Err(_) => Err(Fail::from("a log")),
    }
}

/// The log of a commit, whose device fails at the first call of this kind.
fn failing_log(alloc: Global, call: StoreCall) -> Result<RecLog<FaultStore>, Fail>
    ensures { IfOk result (λ log. log.sight.form.kind ≡ Coordinator) }
{
    opened(alloc, failing(alloc, &[], call)?)
}

/// Whether a trim answers that the device failed.
fn trim_fails(alloc: Global, log: &mut RecLog<FaultStore>) -> bool
    requires { log.old.sight.form.kind ≡ Coordinator }
{
    !log.failed() && log.trim(alloc, &[]) == Err(LogError::Device) && log.failed()
}

/// A trim whose device fails leaves the log as it was, and failed; a restart takes it up again.
#[test]
fn a_failed_trim_leaves_the_old_log(rt: HostRuntime) -> Result<(), Fail> {
    let alloc = rt.alloc();
    let mut log = failing_log(alloc, StoreCall::Replace)?;
    assert!(rt; trim_fails(alloc, &mut log));
    assert_eq!(rt; log.records(alloc)?.len(), 3);
    assert!(rt; log.restart(alloc, 0, &[]) == Ok(()));
    assert!(rt; !log.failed() && log.records(alloc)?.len() == 3);
    Ok(())
}

/// Whether a force answers that the device failed.
fn force_fails(log: &mut RecLog<FaultStore>) -> bool {
    !log.failed() && log.force() == Err(LogError::Device) && log.failed()
}

/// A force whose device fails answers so, and the log has failed.
#[test]
fn a_failed_force_fails_the_log(rt: HostRuntime) -> Result<(), Fail> {
    let alloc = rt.alloc();
    let mut log = failing_log(alloc, StoreCall::Force)?;
    assert!(rt; force_fails(&mut log));
    assert_eq!(rt; log.records(alloc)?.len(), 3);
    Ok(())
}

/// Restarts the log with the record of its second boot; what the crash takes is all that is not forced.
fn restarts(alloc: Global, log: &mut RecLog<FaultStore>) -> Result<bool, Fail>
    requires { log.old.sight.form.kind ≡ Coordinator }
    ensures { log.new.sight.form ≡ log.old.sight.form }
{
    let frames = [coordinator_frame(alloc, &Record::Opened(2), None)?];
    Ok(log.restart(alloc, 0, &frames) == Ok(()))
}

/// A restart whose force fails leaves its record after the others, not forced, and the log has failed: the
/// next crash takes it, and the next restart writes it again.
#[test]
fn a_failed_restart_goes_on_at_the_next(rt: HostRuntime) -> Result<(), Fail> {
    let alloc = rt.alloc();
    let mut log = failing_log(alloc, StoreCall::Force)?;
    assert!(rt; !restarts(alloc, &mut log)? && log.failed());
    assert_eq!(rt; log.records(alloc)?.len(), 4);
    assert_eq!(rt; log.kept(alloc, 0)?.len(), 3);
    assert!(rt; restarts(alloc, &mut log)? && !log.failed());
    assert_eq!(rt; log.kept(alloc, 0)?.len(), 4);
    Ok(())
}

/// A torn tail is removed by one replace: where it fails, the store is handed back as it was, and opens the
/// next time.
#[test]
fn a_failed_open_hands_the_store_back(rt: HostRuntime) -> Result<(), Fail> {
    let alloc = rt.alloc();
    let store = failing(alloc, &[4, 0], StoreCall::Replace)?;
    let Err((error, store)) = RecLog::open(alloc, store, ProcessId(1), Kind::Coordinator) else {
        return Err(Fail::from("a store handed back"));
    };
    assert!(rt; error == LogOpenError::Device && store.failures() == 1);
    assert_eq!(rt; opened(alloc, store)?.records(alloc)?.len(), 3);
    Ok(())
}

/// Writes a log again, without records.
fn emptied(alloc: Global, log: &mut RecLog<MemoryStore>) -> bool {
    !log.failed() && log.rewrite(alloc, &[]) == Ok(())
}

/// A rewrite leaves what it is given alone.
#[test]
fn a_rewrite_leaves_what_it_is_given(rt: HostRuntime) -> Result<(), Fail> {
    let alloc = rt.alloc();
    let store = MemoryStore::from_bytes(Vec::from_slice(alloc, &COMMITTED)?);
    let mut log = opened(alloc, store)?;
    assert!(rt; emptied(alloc, &mut log));
    assert!(rt; log.records(alloc)?.is_empty());
    Ok(())
}
