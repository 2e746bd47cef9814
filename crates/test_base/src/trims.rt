//! Trims after an opening, after a restart, and after a crash that loses an End: a case whose End is lost
//! is live again, and its records stay.

ghost use Rattle.std.specs.Prelude.{◌≡◌, IfOk};
ghost use Rattle.protocol.specs.declared.names.Kind.TheVariants.{Coordinator};

use crate::damage::COMMITTED;
use log_records::RecLog;
use log_store::MemoryStore;
use log_writing::coordinator_frame;
use protocol::{Kind, LogRecord, ProcessId, Record};
use std::alloc::Global;
use std::test::Fail;

/// How long the log of a commit is without its End.
const LIVE: usize = 95;

/// The log of these bytes.
fn opened(alloc: Global, text: &[u8]) -> Result<RecLog<MemoryStore>, Fail>
    ensures { IfOk result (λ log. log.sight.form.kind ≡ Coordinator) }
{
    let store = MemoryStore::from_bytes(Vec::from_slice(alloc, text)?);
    match RecLog::open(alloc, store, ProcessId(1), Kind::Coordinator) {
        Ok(log) => Ok(log),
        Err(_) => Err(Fail::from("a log")),
    }
}

/// Restarts it with the record of this boot; what the crash takes is all that is not forced.
fn restarted(alloc: Global, log: &mut RecLog<MemoryStore>, boot: u64) -> Result<bool, Fail>
    requires { log.old.sight.form.kind ≡ Coordinator }
    ensures { log.new.sight.form ≡ log.old.sight.form }
{
    let frames = [coordinator_frame(alloc, &Record::Opened(boot), None)?];
    Ok(log.restart(alloc, 0, &frames) == Ok(()))
}

/// Appends a record.
fn append(
    alloc: Global,
    log: &mut RecLog<MemoryStore>,
    entry: &Record,
    parent: Option<ProcessId>,
) -> Result<bool, Fail>
    requires { log.old.sight.form.kind ≡ Coordinator }
    ensures { log.new.sight.form ≡ log.old.sight.form }
{
    let frame = coordinator_frame(alloc, entry, parent)?;
    log.reserve(frame.size())?;
    if log.failed() {
        return Ok(false);
    }
    Ok(log.append(&frame).is_ok())
}

/// Appends the End of the case.
fn end(alloc: Global, log: &mut RecLog<MemoryStore>) -> Result<bool, Fail>
    requires { log.old.sight.form.kind ≡ Coordinator }
    ensures { log.new.sight.form ≡ log.old.sight.form }
{
    let records = opened(alloc, &COMMITTED)?.records(alloc)?;
    let [_, _, LogRecord { entry, parent }] = records.as_slice() else {
        return Ok(false);
    };
    append(alloc, log, entry, *parent)
}

/// Forces all.
fn forced(log: &mut RecLog<MemoryStore>) -> bool
    ensures { log.new.sight.form ≡ log.old.sight.form }
{
    !log.failed() && log.force().is_ok()
}

/// How many records a trim leaves.
fn trimmed(alloc: Global, log: &mut RecLog<MemoryStore>) -> Option<usize>
    requires { log.old.sight.form.kind ≡ Coordinator }
    ensures { log.new.sight.form ≡ log.old.sight.form }
{
    if log.failed() {
        return None;
    }
    log.trim(alloc, &[]).ok()
}

/// Opened and Commit stay, and after an End the Opened alone.
#[test]
fn a_trim_behind_an_opening(rt: HostRuntime) -> Result<(), Fail> {
    let alloc = rt.alloc();
    assert!(rt; trimmed(alloc, &mut opened(alloc, &COMMITTED[..LIVE])?) == Some(2));
    let mut log = opened(alloc, &COMMITTED)?;
    assert!(rt; trimmed(alloc, &mut log) == Some(1));
    assert_eq!(rt; log.text(alloc)?.as_slice(), &COMMITTED[..23]);
    Ok(())
}

/// A torn tail is no record.
#[test]
fn a_trim_behind_an_opening_without_a_torn_tail(rt: HostRuntime) -> Result<(), Fail> {
    let alloc = rt.alloc();
    let mut log = opened(alloc, &COMMITTED[..LIVE + 20])?;
    assert!(rt; trimmed(alloc, &mut log) == Some(2));
    assert_eq!(rt; log.text(alloc)?.as_slice(), &COMMITTED[..LIVE]);
    Ok(())
}

/// The last Opened and the Commit stay; after a forced End, which the next crash leaves, the Opened alone.
#[test]
fn a_trim_behind_a_restart(rt: HostRuntime) -> Result<(), Fail> {
    let alloc = rt.alloc();
    let mut log = opened(alloc, &COMMITTED[..LIVE])?;
    assert!(rt; restarted(alloc, &mut log, 2)? && trimmed(alloc, &mut log) == Some(2));
    assert!(rt; end(alloc, &mut log)? && forced(&mut log) && restarted(alloc, &mut log, 3)?);
    assert!(rt; trimmed(alloc, &mut log) == Some(1));
    Ok(())
}

/// A crash takes the End, which was not forced: the case is live again, and its Commit stays, until an End
/// that stands.
#[test]
fn a_trim_behind_a_lost_end(rt: HostRuntime) -> Result<(), Fail> {
    let alloc = rt.alloc();
    let mut log = opened(alloc, &COMMITTED[..LIVE])?;
    assert!(rt; end(alloc, &mut log)? && restarted(alloc, &mut log, 2)?);
    assert!(rt; trimmed(alloc, &mut log) == Some(2));
    assert!(rt; end(alloc, &mut log)? && trimmed(alloc, &mut log) == Some(1));
    Ok(())
}

/// A torn tail is written over: the same, where the crash left a front of the End.
#[test]
fn a_trim_behind_a_torn_end(rt: HostRuntime) -> Result<(), Fail> {
    let alloc = rt.alloc();
    let mut log = opened(alloc, &COMMITTED[..LIVE])?;
    let frames = [coordinator_frame(alloc, &Record::Opened(2), None)?];
    assert!(rt; end(alloc, &mut log)? && log.restart(alloc, 20, &frames) == Ok(()));
    assert!(rt; trimmed(alloc, &mut log) == Some(2));
    Ok(())
}
