//! The frames of a base and its pairs.

ghost use Rattle.std.specs.Prelude.{◌≡◌, ◌∷◌, IfOk, map};
ghost use Rattle.protocol_words.specs.kind;
ghost use Rattle.log_text.specs.Made.{frame_record};
ghost use Rattle.log_rules.specs.sound.Sound.{IsSound};
ghost use Rattle.std.specs.List.{AllByRecursion};
ghost use Rattle.log_records.specs.Sights.{AreRecords};
ghost use Rattle.protocol.specs.Store.{pair_record};
ghost use Rattle.protocol.specs.LogNames.{unnamed};
ghost use Rattle.protocol_words.specs.record_of;

use log_text::Frame;
use protocol::{Bytes, LogRecord, Record};
use std::alloc::{AllocError, Global};

/// The frame of the count of a base.
fn base(alloc: Global, count: u64) -> Result<Frame, AllocError>
    requires { IsSound kind.Manager (unnamed (record_of.Base count)) }
    ensures { IfOk result (λ frame. frame_record frame ≡ unnamed (record_of.Base count)) }
{
    let entry = LogRecord {
        entry: Record::Base(count),
        parent: None,
    };
    Frame::new(alloc, entry)
}

/// The frame of a pair.
fn pair(alloc: Global, key: &Bytes, value: &Bytes) -> Result<Frame, AllocError>
    requires { IsSound kind.Manager (unnamed (record_of.Pair key.now value.now)) }
    ensures { IfOk result (λ frame. frame_record frame ≡ unnamed (record_of.Pair key.now value.now)) }
{
    let entry = LogRecord {
        entry: Record::Pair(key.copied(alloc)?, value.copied(alloc)?),
        parent: None,
    };
    Frame::new(alloc, entry)
}

/// The frames of a base of N commits and of these pairs.
pub fn base_frames(
    alloc: Global,
    count: u64,
    pairs: &[(Bytes, Bytes)],
) -> Result<Vec<Frame>, AllocError>
    requires base { IsSound kind.Manager (unnamed (record_of.Base count)) }
    requires pairs { AllByRecursion (λ p. IsSound kind.Manager (unnamed (pair_record p))) pairs.now }
    ensures frames { IfOk result (λ frames. map frame_record frames.items
        ≡ unnamed (record_of.Base count) ∷ map (λ p. unnamed (pair_record p)) pairs.now) }
    ensures sound { IfOk result (λ frames. AreRecords kind.Manager (map frame_record frames.items)) }
{
    let mut frames = Vec::new(alloc);
    frames.push(base(alloc, count)?)?;
    for (key, value) in pairs {
        frames.push(pair(alloc, key, value)?)?;
    }
    Ok(frames)
}
