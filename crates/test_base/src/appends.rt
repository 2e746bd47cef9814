//! A log that is appended to opens again: the highest number that a record can have is read, one above it
//! makes no frame, and only records out of order make a log that is refused.

ghost use Rattle.std.specs.Prelude.{◌≡◌, IfOk};
ghost use Rattle.protocol.specs.declared.names.Kind.TheVariants.{Coordinator};

use log_records::{LogOpenError, RecLog};
use log_store::MemoryStore;
use log_writing::coordinator_frame;
use protocol::{Kind, ProcessId, Record};
use std::alloc::Global;
use std::test::Fail;

/// A log without records.
fn empty_log(alloc: Global) -> Result<RecLog<MemoryStore>, Fail>
    ensures { IfOk result (λ log. log.sight.form.kind ≡ Coordinator) }
{
    match RecLog::open(
        alloc,
        MemoryStore::new(alloc),
        ProcessId(1),
        Kind::Coordinator,
    ) {
        Ok(log) => Ok(log),
        Err(_) => Err(Fail::from("a log")),
    }
}

/// Appends an Opened of this boot.
fn append_boot(alloc: Global, log: &mut RecLog<MemoryStore>, boot: u64) -> Result<(), Fail>
    requires { log.old.sight.form.kind ≡ Coordinator }
    ensures { log.new.sight.form ≡ log.old.sight.form }
{
    let frame = coordinator_frame(alloc, &Record::Opened(boot), None)?;
    log.reserve(frame.size())?;
    if log.failed() || log.append(&frame).is_err() {
        return Err(Fail::from("a record that is appended"));
    }
    Ok(())
}

/// What opening the log's bytes answers: how many records they are, or why they are refused.
fn opened_again(
    alloc: Global,
    log: &RecLog<MemoryStore>,
) -> Result<Result<usize, LogOpenError>, Fail> {
    let text = log.text(alloc)?;
    match RecLog::open(
        alloc,
        MemoryStore::from_bytes(text),
        ProcessId(1),
        Kind::Coordinator,
    ) {
        Ok(again) => Ok(Ok(again.records(alloc)?.len())),
        Err((error, _store)) => Ok(Err(error)),
    }
}

#[test]
fn the_highest_boot_opens_again(rt: HostRuntime) -> Result<(), Fail> {
    let alloc = rt.alloc();
    let mut log = empty_log(alloc)?;
    append_boot(alloc, &mut log, 1)?;
    append_boot(alloc, &mut log, (1 << 63) - 1)?;
    assert!(rt; opened_again(alloc, &log)? == Ok(2));
    Ok(())
}

#[test]
fn a_boot_above_the_highest_makes_no_frame(rt: HostRuntime) {
    let alloc = rt.alloc();
    assert!(rt; coordinator_frame(alloc, &Record::Opened(1 << 63), None).is_err());
}

#[test]
fn records_out_of_order_are_refused_where_they_are_opened(rt: HostRuntime) -> Result<(), Fail> {
    let alloc = rt.alloc();
    let mut log = empty_log(alloc)?;
    append_boot(alloc, &mut log, 2)?;
    append_boot(alloc, &mut log, 1)?;
    assert!(rt; opened_again(alloc, &log)? == Err(LogOpenError::Damaged(23)));
    Ok(())
}
