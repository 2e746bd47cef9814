//! What each record makes of the data.

ghost use Rattle.std.specs.Prelude.{◌≡◌, ◌<◌, ◌^◌, false, IfErr, OnOk};
ghost use Rattle.kv_store.specs.Versions.{AppliesCommit, Sets, pair_write};
ghost use Rattle.kv_state.specs.Replays.{CommitFails, KeepsBefore, TakeFails, DataTake};

use crate::fault::ReplayError;
use kv_store::Versions;
use log_rules::order::Seen;
use log_text::name_xid;
use protocol::{Bytes, LAST_NUMBER, LogRecord, NUMBERS, Record, Write};
use std::alloc::{AllocError, Global};

/// Makes a commit of these writes.
fn commit(versions: &mut Versions, writes: &[Write]) -> Result<(), ReplayError>
    requires { versions.old.is_staged ≡ false }
    ensures ok { OnOk result (AppliesCommit versions.old versions.new writes.now) }
    ensures counted { OnOk result (versions.new.count < 2 ^ 63) }
    ensures err { IfErr result (CommitFails versions.old) }
{
    if versions.count() >= LAST_NUMBER {
        return Err(ReplayError::Exhausted);
    }
    versions.apply(writes)?;
    Ok(())
}

/// Sets a key of the base.
fn set(alloc: Global, versions: &mut Versions, key: &Bytes, value: &Bytes) -> Result<(), AllocError>
    requires { versions.old.is_staged ≡ false }
    ensures { OnOk result (Sets versions.old versions.new (pair_write (key.now, value.now))) }
{
    let write = Write {
        key: key.copied(alloc)?,
        value: Some(value.copied(alloc)?),
    };
    versions.set(&write)
}

/// The data take the next record after those that have been seen.
pub(crate) fn take(
    alloc: Global,
    versions: &mut Versions,
    seen: &Seen,
    next: &LogRecord,
) -> Result<(), ReplayError>
    requires unstaged { versions.old.is_staged ≡ false }
    requires counted { versions.old.count < 2 ^ 63 }
    ensures ok { OnOk result (DataTake seen.now next.now versions.old versions.new) }
    ensures before { OnOk result (KeepsBefore versions.old versions.new next.now.entry) }
    ensures counted { OnOk result (versions.new.count < 2 ^ 63) }
    ensures err { IfErr result (TakeFails seen.now next.now versions.old) }
{
    match &next.entry {
        Record::Committed(branch) | Record::HeurCommit(branch) => {
            let xid = name_xid(next.parent, *branch);
            if !seen.is_open(&xid) {
                return Err(ReplayError::Malformed);
            }
            commit(versions, seen.promised(&xid))
        }
        Record::Direct(_, writes) => commit(versions, writes.as_slice()),
        Record::Base(count) => {
            if *count >= NUMBERS {
                return Err(ReplayError::Exhausted);
            }
            *versions = Versions::new(alloc, *count);
            Ok(())
        }
        Record::Pair(key, value) => {
            set(alloc, versions, key, value)?;
            Ok(())
        }
        _ => Ok(()),
    }
}
