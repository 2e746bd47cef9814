//! The records of a process's log that are not forced, which a crash may take.

ghost use Rattle.std.specs.Prelude.{◌≡◌, All, IfOk, length, map};
ghost use Rattle.log_text.specs.Payloads.{FitsFrame};
ghost use Rattle.log_records.specs.Sights.{record_size};
ghost use Rattle.tree_process.specs.Nodes.{core_of};

use crate::node::Process;
use log_store::LogStore;
use log_text::Frame;
use protocol::LogRecord;
use std::alloc::{AllocError, Global};

/// How many bytes the frame of a record takes.
fn size_of(alloc: Global, record: &LogRecord) -> Result<u64, AllocError>
    requires { FitsFrame record.now }
    ensures { IfOk result (λ size. size ≡ record_size record.now) }
{
    let frame = Frame::of(alloc, &record.entry, record.parent)?;
    Ok(frame.size() as u64)
}

/// How many bytes the frame of each of these records takes.
fn sizes_of(alloc: Global, records: &[LogRecord]) -> Result<Vec<u64>, AllocError>
    requires { All FitsFrame records.now }
    ensures { IfOk result (λ sizes. sizes.items ≡ map record_size records.now) }
{
    let mut sizes = Vec::new(alloc);
    for record in records {
        sizes.push(size_of(alloc, record)?)?;
    }
    Ok(sizes)
}

impl<L: LogStore> Process<L> {
    /// How many records of its log are not forced.
    fn unforced(&self) -> Result<usize, AllocError>
        ensures { IfOk result (λ count. count ≡ length (core_of self.now).log.kept.unforced) }
    {
        self.unforced_left(self.log_size())
    }

    /// How many bytes each record of its log takes that is not forced, in order.
    pub fn unforced_sizes(&self, alloc: Global) -> Result<Vec<u64>, AllocError>
        ensures { IfOk result (λ sizes. sizes.items ≡ map record_size (core_of self.now).log.kept.unforced) }
    {
        self.records_are_sound();
        let records = self.records()?;
        let forced = records.len() - self.unforced()?;
        let (_, unforced) = records.split_at(forced);
        sizes_of(alloc, unforced)
    }
}
